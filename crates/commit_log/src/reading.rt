//! Entries read from a log, one after another.
ghost use Rattle.std.specs.Prelude.{◌≡◌, ◌++◌, ◌∷◌, ◌↔◌, true, IsTrue, IfOk, MatchOption, MatchResult};
ghost use Rattle.commit_log.specs.Lines.{is_one_line};
ghost use Rattle.commit_log.specs.Text.{commit_words};
ghost use Rattle.commit_log.specs.Reads.{BeginsSealed, IsUnsealed, FaultIs};

use crate::checks::{Check, check_of, push_commit_words};
use bstr::ByteSlice;
use std::alloc::{AllocError, Global};

/// An entry that stands in a log with its commit line, and what stands behind that.
#[derive(Drop)]
pub struct Sealed<'t> {
    pub entry: &'t [u8],
    /// The check of its commit line.
    pub check: Check,
    pub rest: &'t [u8],
}

/// Why no entry is read.
#[derive(Clone, Copy, Debug, PartialEq, Eq)]
pub enum ReadFault {
    /// A commit line that isn't the one that is due, from that byte on.
    Damaged { at: usize },
    OutOfMemory,
}

/// How long the words of a commit line can be: `commit `, 20 digits, a space, a check.
const LONGEST: usize = 44;

// The first line of a text, without its line feed, and the text behind it.
fn first_line(text: &[u8]) -> Option<(&[u8], &[u8])>
    ensures { MatchOption result (is_one_line text.now ≡ true)
        (λ r. (text.now ≡ r.0.now ++ 10 ∷ r.1.now) × (is_one_line r.0.now ≡ true)) }
{
    let end = text.find_byte(b'\n')?;
    Some((&text[..end], &text[end + 1..]))
}

// Whether the line, which lacks its line feed, is the commit line of that number and check.
fn is_commit_line(
    alloc: Global,
    line: &[u8],
    number: u64,
    check: &Check,
) -> Result<bool, AllocError>
    ensures { IfOk result (λ is. IsTrue is ↔ (line.now ≡ commit_words number check.now)) }
{
    let mut due = Vec::with_capacity(alloc, LONGEST)?;
    push_commit_words(&mut due, number, check)?;
    Ok(line == due.as_slice())
}

/// The entry of that number that a text behind that check, or behind a head of that check, begins with.
/// None where the text has no commit line: lines of an entry that was not finished, or nothing.
///
/// # Errors
///
/// The first commit line isn't the one that is due; or want of memory.
pub fn next_entry<'t>(
    alloc: Global,
    text: &'t [u8],
    number: u64,
    before: &Check,
) -> Result<Option<Sealed<'t>>, ReadFault>
    ensures { MatchResult result
        (λ found. MatchOption found (IsUnsealed text.now) (λ s. BeginsSealed text.now number before.now s.entry.now s.check s.rest.now))
        (FaultIs text.now number before.now) }
{
    let mut at = 0;
    let mut rest = text;
    'lines: while let Some((line, behind)) = first_line(rest) {
        if line.starts_with(b"commit ") {
            let entry = &text[..at];
            let check = check_of(before, entry);
            return match is_commit_line(alloc, line, number, &check) {
                Ok(true) => Ok(Some(Sealed {
                    entry,
                    check,
                    rest: behind,
                })),
                Ok(false) => Err(ReadFault::Damaged { at }),
                Err(_) => Err(ReadFault::OutOfMemory),
            };
        }
        at += line.len() + 1;
        rest = behind;
    }
    Ok(None)
}
