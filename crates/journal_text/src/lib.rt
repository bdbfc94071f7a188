//! The text of journals: written, read in both versions, and upgraded.
//!
//! `writing` and `entries` put the text of a journal into a sink: what has a text there is `Written`
//! (`written`), a cell, a watch, an edit, an entry, and one loop puts several. `reading` takes line
//! after line, and `steps` says where each leads, from one of the `places` to the next, and `headings`
//! where one in a heading does: `lines` finds what a line names, and `spelling` whether it is spelled
//! as it is written. `showing` gives the text of one entry, and
//! `fitting` says whether lines are those of one.
#![tactic(auto)]

mod entries;
mod faults;
mod fitting;
mod headings;
mod laws;
mod lines;
mod places;
mod reading;
mod showing;
mod spelling;
mod steps;
mod upgrading;
mod writing;
mod written;

pub use faults::JournalFault;
pub use fitting::{Fit, fit_entry};
pub use laws::{one_journal_answer, written_reads_back};
pub use reading::read_journal;
pub use showing::{entry_text, written_entry};
pub use upgrading::upgrade_journal;
pub use writing::write_journal;
