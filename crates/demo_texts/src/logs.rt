//! Logs: how many whole entries they have, and where the last of these ends.
use desk_log::read_log;
use std::alloc::{AllocError, Global};

/// What is read of a log, or why it is none.
pub fn put_log(alloc: Global, told: &mut String, text: &[u8]) -> Result<(), AllocError> {
    match read_log(alloc, text) {
        Ok(log) => {
            let (count, end) = (log.count, log.end);
            drop(log);
            write!(told, "{count} entries, {end} bytes")
        }
        Err(fault) => write!(told, "{fault}"),
    }
}
