//! The journal that a log's entries make.
ghost use Rattle.std.specs.Prelude.{◌≡◌, ◌++◌, OnOk, IfOk, MatchResult};
ghost use Rattle.desk_report.specs.LineText.{line_text};
ghost use Rattle.desk_commits.specs.Entries.{Entry};
ghost use Rattle.journal_text.specs.Lines.{end_words};
ghost use Rattle.journal_text.specs.Fitting.{IsEntryOf};
ghost use Rattle.desk_log.specs.Reading.{heading_text, IsRead, IsFrontOfLog};

use crate::entries::is_plain_entry;
use crate::faults::LogFault;
use crate::heads::bad_head_line;
use crate::tears::{count_lines, look_at_tear};
use commit_log::{Check, ReadFault, SceneDigest, Sealed, next_entry, read_head};
use desk_commits::MOST_ENTRIES;
use itoa::Buffer;
use journal_text::{Fit, fit_entry};
use plan_table::Mode;
use std::alloc::{AllocError, Global};

/// A log, as it was read.
#[derive(Drop)]
pub struct LogRead {
    pub mode: Mode,
    pub scene: SceneDigest,
    /// The text of the journal that its entries make.
    pub journal: Vec<u8>,
    /// How many whole entries it has.
    pub count: u64,
    /// The check of the last of them, or of the head where there is none.
    pub check: Check,
    /// Where the last of them ends, or the head.
    pub end: usize,
}

// The heading of a journal in that mode.
fn heading(alloc: Global, mode: Mode) -> Result<Vec<u8>, AllocError>
    ensures { IfOk result (λ text. text.items ≡ heading_text mode) }
{
    match mode {
        Mode::Stay => Vec::from_slice(alloc, b"journal 2\nmode stay\n"),
        Mode::Disappear => Vec::from_slice(alloc, b"journal 2\nmode disappear\n"),
    }
}

// Puts the last line of a journal.
fn put_end(journal: &mut Vec<u8>, count: u64) -> Result<(), AllocError>
    ensures { OnOk result (journal.new.items ≡ journal.old.items ++ line_text (end_words count)) }
{
    let mut digits = Buffer::new();
    journal.extend_from_slice(b"end ")?;
    journal.extend_from_slice(digits.format(count).as_bytes())?;
    journal.extend_from_slice(b"\n")
}

// What stands before the rest of a text.
fn before<'t>(text: &'t [u8], rest: &[u8]) -> &'t [u8] {
    text.get(..text.len().saturating_sub(rest.len()))
        .unwrap_or(text)
}

// Looks whether what stands before a commit line is an entry, behind a front of the log. Few entries
// need the second look.
fn look_at_entry(alloc: Global, entry: &[u8], front: &[u8]) -> Result<(), LogFault>
    ensures { MatchResult result (λ _. (e : Entry) × IsEntryOf entry.now e) (λ fault. (e : Entry) → IsEntryOf entry.now e → fault ≡ LogFault.OutOfMemory) }
{
    if is_plain_entry(entry) {
        return Ok(());
    }
    match fit_entry(alloc, entry) {
        Ok(Fit::Whole) => Ok(()),
        Ok(Fit::Begun) => Err(LogFault::BadLine {
            line: count_lines(front)
                .saturating_add(count_lines(entry))
                .saturating_add(1),
        }),
        Ok(Fit::Bad { line }) => Err(LogFault::BadLine {
            line: count_lines(front).saturating_add(line),
        }),
        Err(_) => Err(LogFault::OutOfMemory),
    }
}

// The fault of a text behind a front of the log, at which no entry is read.
fn fault_of(text: &[u8], front: &[u8], why: ReadFault) -> LogFault
    ensures { why ≡ ReadFault.OutOfMemory → result ≡ LogFault.OutOfMemory }
{
    match why {
        ReadFault::Damaged { at } => {
            let before = text.get(..at).unwrap_or(text);
            let lines = count_lines(front).saturating_add(count_lines(before));
            LogFault::BadLine {
                line: lines.saturating_add(1),
            }
        }
        ReadFault::OutOfMemory => LogFault::OutOfMemory,
    }
}

// The fault of the line behind a front of the log.
fn fault_behind(front: &[u8]) -> LogFault {
    LogFault::BadLine {
        line: count_lines(front).saturating_add(1),
    }
}

/// Reads a log: the entries that are whole, with their commit lines. What a crash may have left of one
/// more stands behind them.
///
/// # Errors
///
/// The first line that doesn't fit, or want of memory. In a log that was kept, and in each cut of it
/// behind its head, every line fits.
pub fn read_log(alloc: Global, text: &[u8]) -> Result<LogRead, LogFault>
    ensures { MatchResult result (IsRead text.now) (λ fault. IsFrontOfLog text.now → fault ≡ LogFault.OutOfMemory) }
{
    let Some(head) = read_head(alloc, text)? else {
        return Err(LogFault::BadLine {
            line: bad_head_line(text),
        });
    };
    let mut journal = heading(alloc, head.mode)?;
    let (mut rest, mut check, mut count) = (head.rest, head.check, 0u64);
    'entries: loop {
        match next_entry(alloc, rest, count + 1, &check) {
            Ok(Some(found)) => {
                let Sealed {
                    entry,
                    check: sealed,
                    rest: behind,
                } = found;
                look_at_entry(alloc, entry, before(text, rest))?;
                if count >= u64::from(MOST_ENTRIES) {
                    return Err(fault_behind(before(text, rest)));
                }
                journal.extend_from_slice(entry)?;
                count += 1;
                check = sealed;
                rest = behind;
            }
            Ok(None) => break,
            Err(why) => return Err(fault_of(rest, before(text, rest), why)),
        }
    }
    let lines = count_lines(before(text, rest));
    look_at_tear(alloc, rest, count + 1, &check, lines)?;
    put_end(&mut journal, count)?;
    Ok(LogRead {
        mode: head.mode,
        scene: head.scene,
        journal,
        count,
        check,
        end: text.len() - rest.len(),
    })
}
