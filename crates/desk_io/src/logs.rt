//! Logs that are read as journals.
ghost use Rattle.std.specs.Prelude.{◌≡◌, ◌⊎◌, ◌++◌, ℕ, None, IfErr, IfOk, IfSome, codes, decimal, string_bytes};
ghost use Rattle.desk_io.specs.Texts.{IsDamaged, ReadsAsJournal};

use crate::telling::More;
use desk_log::{LogFault, is_log, read_log};
use journal_text::JournalFault;
use solver_check::{Fault, RunFault};
use std::alloc::Global;

/// What is noted of a log whose last entry was not finished, by how many bytes of it there are.
pub fn tear_note(alloc: Global, bytes: usize) -> Option<String>
    ensures whole { bytes ≡ 0 → result ≡ None }
    ensures torn { IfSome result (λ note. string_bytes note ≡ codes "note: log: " ++ decimal bytes ++ codes " bytes of an entry that was not finished") }
{
    if bytes == 0 {
        return None;
    }
    format!(in alloc; "note: log: {bytes} bytes of an entry that was not finished").ok()
}

// The fault of a log that was to be read as a journal.
fn fault_of(why: LogFault) -> Fault
    ensures { (result ≡ Fault.Run RunFault.OutOfMemory) ⊎ ((line : ℕ) × (result ≡ Fault.Run (RunFault.Journal (JournalFault.BadLine line)))) }
{
    match why {
        LogFault::BadLine { line } => Fault::Run(RunFault::Journal(JournalFault::BadLine { line })),
        LogFault::OutOfMemory => Fault::Run(RunFault::OutOfMemory),
    }
}

/// The bytes of a file, or where they are a log the journal that its entries make. An entry that was
/// not finished is noted.
///
/// # Errors
///
/// The log's first line that doesn't fit, or want of memory.
pub fn as_journal(alloc: Global, bytes: Vec<u8>, more: &mut More) -> Result<Vec<u8>, Fault>
    ensures read { IfOk result (λ text. ReadsAsJournal bytes.items text.items) }
    ensures unread { IfErr result (λ fault. (fault ≡ Fault.Run RunFault.OutOfMemory) ⊎ IsDamaged bytes.items fault) }
{
    if !is_log(bytes.as_slice()) {
        return Ok(bytes);
    }
    match read_log(alloc, bytes.as_slice()) {
        Ok(log) => {
            more.note(tear_note(alloc, bytes.len().saturating_sub(log.end)));
            Ok(log.journal)
        }
        Err(why) => Err(fault_of(why)),
    }
}
