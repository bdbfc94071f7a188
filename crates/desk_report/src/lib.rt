//! The report of a map and a fleet's plans, its text, and the sources and sinks of bytes that
//! texts come from and go to.
#![tactic(auto)]

mod bytes;
mod changed;
mod describe;
mod laws;
mod reports;
mod text;
mod values;
mod words;

pub use bytes::{ReadFailed, Sink, Source, Spout, Tap, WriteFailed, put_all};
pub use changed::Changes;
pub use describe::{line, plain_report, with_totals};
pub use laws::{one_report, settle_is_bound_and_gap};
pub use mapf_rules::Kinds;
pub use reports::{AgentLine, Report};
pub use text::{
    put_count, put_entry, put_totals, put_visit, write_changes, write_report, write_trial,
};
pub use values::{put_answer, put_cell, put_given, put_number};
pub use words::{Word, put_line, put_more, put_next, put_word};
