ghost use Rattle.std.specs.Prelude.{◌≡◌};
ghost use Rattle.journal_text.specs.Reading.{mode_of, ReadsAs};

use crate::faults::JournalFault;
use crate::lines::whole_line;
use crate::places::{Heading, Place};
use crate::steps::next;
use desk_commits::Journal;
use grid_cells::OutOfMemory;
use plan_table::Mode;
use std::alloc::Global;

// The mode that a heading tells.
fn mode_of(heading: Heading) -> Mode
    ensures { result ≡ mode_of heading }
{
    match heading {
        Heading::First => Mode::Stay,
        Heading::Second(mode) => mode,
    }
}

/// Reads the text of a journal, of version 1 or 2. Each list of commits with its mode has one text
/// of version 2, and in mode Stay one of version 1 too, and no other text reads as it.
///
/// # Errors
///
/// The first line that doesn't fit, or want of memory.
pub fn read_journal(alloc: Global, text: &[u8]) -> Result<Journal, JournalFault>
    ensures { ReadsAs text.now result }
{
    let mut place = Place::Start;
    let mut rest = text;
    let mut read: usize = 0;
    'lines: while let Some((line, behind)) = whole_line(rest) {
        match next(alloc, place, line) {
            Ok(Some(after)) => place = after,
            Ok(None) => return Err(JournalFault::BadLine { line: read + 1 }),
            Err(OutOfMemory) => return Err(JournalFault::OutOfMemory),
        }
        rest = behind;
        read += 1;
    }
    match place {
        Place::Over { heading, entries } => {
            if rest.is_empty() {
                Ok(Journal::new(entries.into_items(), mode_of(heading)))
            } else {
                Err(JournalFault::BadLine { line: read + 1 })
            }
        }
        _ => Err(JournalFault::BadLine { line: read + 1 }),
    }
}
