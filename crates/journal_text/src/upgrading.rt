ghost use Rattle.std.specs.Prelude.{◌≡◌, Ok, Err, MatchResult};
ghost use Rattle.journal_text.specs.Reading.{UpgradesTo};

use crate::faults::JournalFault;
use crate::reading::read_journal;
use crate::writing::write_journal;
use desk_report::Spout;
use std::alloc::Global;

/// The text of version 2 of the journal that the text, of version 1 or 2, reads as.
///
/// # Errors
///
/// The first line that doesn't fit, or want of memory.
pub fn upgrade_journal(alloc: Global, text: &[u8]) -> Result<Vec<u8>, JournalFault>
    ensures { MatchResult result (λ new. UpgradesTo text.now (Ok new.items)) (λ fault. UpgradesTo text.now (Err fault)) }
{
    let journal = match read_journal(alloc, text) {
        Ok(journal) => journal,
        Err(fault) => return Err(fault),
    };
    let mut sink = Spout::new(Vec::new(alloc));
    match write_journal(journal.items(), journal.mode(), &mut sink) {
        Ok(()) => Ok(sink.into_inner()),
        Err(_) => Err(JournalFault::OutOfMemory),
    }
}
