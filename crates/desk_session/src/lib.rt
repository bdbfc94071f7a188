//! Sessions over desks: a session behind the text of its map. Sessions over any counter and the text
//! of journals are those of `session_protocol`, windows on a shared desk those of `desk_shared`, offered here
//! again.
//!
//! `starting` has the session over the desk of a map's text.
#![tactic(auto)]

mod starting;

pub use desk_commits::Journal;
pub use desk_core::{Awaits, Counter};
pub use desk_shared::Window;
pub use journal_text::{
    JournalFault, one_journal_answer, read_journal, upgrade_journal, write_journal,
    written_reads_back,
};
pub use session_protocol::{
    Bounds, LinesVersion, ServeFault, StartFault, hear_map, serve, serve_in,
};
pub use starting::serve_with_map;
