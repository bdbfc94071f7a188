//! A log in a file of the system, which one program has at a time.
#![tactic(auto)]

mod files;
mod opening;

pub use files::LogFile;
pub use opening::{OpenError, open_log, settle_name};
