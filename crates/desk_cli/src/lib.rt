//! The program's words: what they ask for, and the help on them.
#![tactic(auto)]

mod arguments;
mod asking;
mod check_options;
mod commands;
mod helping;
mod kinds;
mod mistakes;
mod options;
mod pages;
mod picture_options;
mod planner_options;
mod program;
mod ranges;
mod reading;
mod values;
mod words;

pub use asking::read_words;
pub use helping::{SESSION_PROMPT, VERSION};
pub use words::{
    Asked, AuditWords, CheckWords, DrawWords, DrillWords, HostWords, PageWords, ServeWords, Words,
};
