//! Journals: their mode where they are read, and their text of version 2.
use bstr::ByteSlice;
use journal_text::{read_journal, upgrade_journal};
use plan_table::Mode;
use std::alloc::{AllocError, Global};

// The mode, or why the text isn't read.
fn put_mode(alloc: Global, told: &mut String, text: &[u8]) -> Result<(), AllocError> {
    match read_journal(alloc, text) {
        Ok(journal) => {
            let mode = journal.mode();
            drop(journal);
            told.push_str(match mode {
                Mode::Stay => "stay",
                Mode::Disappear => "disappear",
            })
        }
        Err(fault) => write!(told, "{fault}"),
    }
}

/// What is read of a journal, and in the lines behind it what it is upgraded to.
pub fn put_journal(alloc: Global, told: &mut String, text: &[u8]) -> Result<(), AllocError> {
    put_mode(alloc, told, text)?;
    told.push_str("\n")?;
    match upgrade_journal(alloc, text) {
        Ok(upgraded) => told.push_str(upgraded.as_slice().to_str().unwrap_or("not UTF-8")),
        Err(fault) => write!(told, "{fault}"),
    }
}
