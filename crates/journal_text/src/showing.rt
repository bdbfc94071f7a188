ghost use Rattle.std.specs.Prelude.{◌≡◌, IfSome};
ghost use Rattle.journal_text.specs.Lines.{entry_lines, text_of};
ghost use Rattle.journal_text.specs.Ranges.{IsEntry};
ghost use Rattle.journal_text.specs.Reading.{IsEntryText};

use crate::reading::read_journal;
use crate::written::Written;
use desk_commits::Commit;
use desk_report::Spout;
use std::alloc::Global;

// How many bytes there is room for before the lines are written: most entries, and their commit lines
// in a log, fit.
const ROOM: usize = 128;

/// The lines that are written of the entry; none where memory is wanting.
pub fn written_entry(alloc: Global, entry: &Commit) -> Option<Vec<u8>>
    ensures written { IfSome result (λ lines. lines.items ≡ text_of (entry_lines entry.now)) }
    ensures lawful { IfSome result (λ lines. IsEntry entry.now) }
{
    let Ok(text) = Vec::with_capacity(alloc, ROOM) else {
        return None;
    };
    let mut sink = Spout::new(text);
    match entry.put_into(&mut sink) {
        Ok(()) => Some(sink.into_inner()),
        Err(_) => None,
    }
}

/// The lines of the entry of that number, counted from 1, of the journal that the text reads as; none
/// where it reads as none or has no such entry, or memory is wanting.
pub fn entry_text(alloc: Global, text: &[u8], number: usize) -> Option<Vec<u8>>
    ensures { IfSome result (λ lines. IsEntryText text.now number lines.items) }
{
    let place = number.checked_sub(1)?;
    let journal = match read_journal(alloc, text) {
        Ok(journal) => journal,
        Err(_) => return None,
    };
    match journal.items().get(place) {
        Some(entry) => written_entry(alloc, entry),
        None => None,
    }
}
