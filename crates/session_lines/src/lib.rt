//! The grammar of session lines: their words, and the requests that they stand for.
//!
//! `requests` reads a line by its first word (`commands`) and by the words behind it (`edits`, `kinds`,
//! `shapes`, `cells`, `plain`, `values`).
#![tactic(auto)]

mod agents;
mod cells;
mod commands;
mod edits;
mod inquiries;
mod kinds;
mod plain;
mod questions;
mod requests;
mod shapes;
mod values;
mod versions;

pub use commands::is_remark;
pub use inquiries::Inquiry;
pub use questions::read_line_in;
pub use requests::{LineFault, Request, read_line};
pub use values::{MOST_SECONDS, is_word, place_of};
pub use versions::LinesVersion;
