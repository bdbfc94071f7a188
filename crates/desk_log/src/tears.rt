//! What stands behind the last whole entry of a log.
ghost use Rattle.std.specs.Prelude.{◌≡◌, ◌++◌, ℕ, List, true, IfErr};
ghost use Rattle.std.specs.List.{list_all};
ghost use Rattle.commit_log.specs.Lines.{is_one_line, lines_text};
ghost use Rattle.desk_log.specs.Reading.{IsTear};

use crate::faults::LogFault;
use commit_log::{Check, check_of, commit_line};
use journal_text::{Fit, fit_entry};
use std::alloc::Global;

/// How many line feeds a text has.
pub(crate) fn count_lines(text: &[u8]) -> usize {
    text.iter().filter(|byte| **byte == b'\n').count()
}

// The lines of a text, and what stands behind the last of them.
fn split_at_last_line(text: &[u8]) -> (&[u8], &[u8])
    ensures whole { text.now ≡ result.0.now ++ result.1.now }
    ensures lines { (lines : List (List ℕ)) × (list_all is_one_line lines ≡ true) × (result.0.now ≡ lines_text lines) }
    ensures piece { is_one_line result.1.now ≡ true }
{
    let mut end = text.len();
    while end > 0 && text[end - 1] != b'\n' {
        end -= 1;
    }
    text.split_at(end)
}

/// Looks whether the text is what a crash may leave of an entry of that number behind that check: a
/// front of its lines and of its commit line. It stands behind that many lines of the log.
///
/// # Errors
///
/// The first line that doesn't fit, or want of memory.
pub(crate) fn look_at_tear(
    alloc: Global,
    text: &[u8],
    number: u64,
    before: &Check,
    lines: usize,
) -> Result<(), LogFault>
    ensures { IfErr result (λ fault. IsTear text.now number before.now → fault ≡ LogFault.OutOfMemory) }
{
    let (whole, piece) = split_at_last_line(text);
    match fit_entry(alloc, whole) {
        Ok(Fit::Begun) => Ok(()),
        Ok(Fit::Whole) => {
            let due = commit_line(alloc, number, &check_of(before, whole))?;
            if due.as_slice().starts_with(piece) {
                Ok(())
            } else {
                let line = lines.saturating_add(count_lines(whole)).saturating_add(1);
                Err(LogFault::BadLine { line })
            }
        }
        Ok(Fit::Bad { line }) => Err(LogFault::BadLine {
            line: lines.saturating_add(line),
        }),
        Err(_) => Err(LogFault::OutOfMemory),
    }
}
