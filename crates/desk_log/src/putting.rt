//! Entries of a desk put into a log, one after another.
ghost use Rattle.std.specs.Prelude.{◌≡◌, ◌++◌, List, ℕ, Some, OnOk, IfSome};
ghost use Rattle.commit_log.specs.Lines.{IsBody};
ghost use Rattle.commit_log.specs.Text.{log_text};
ghost use Rattle.commit_log.specs.Crashes.{Counts, MayLeave};
ghost use Rattle.desk_commits.specs.Entries.{Entry};
ghost use Rattle.journal_text.specs.Lines.{entry_lines, text_of};
ghost use Rattle.desk_log.specs.Keeping.{texts_of, LeavesEntries};

use commit_log::{Log, LogFailed, LogWriter};
use desk_commits::Commit;
use journal_text::written_entry;
use std::alloc::Global;

// The text of an entry, as it stands in a log.
fn body_of(alloc: Global, entry: &Commit) -> Option<Vec<u8>>
    ensures text { IfSome result (λ text. text.items ≡ text_of (entry_lines entry.now)) }
    ensures body { IfSome result (λ text. IsBody text.items) }
{
    written_entry(alloc, entry)
}

/// Puts the entries behind those that stand in the log.
///
/// # Errors
///
/// The log failed: a part of the entries may stand there.
pub(crate) fn put_entries<L: Log>(
    alloc: Global,
    writer: &mut LogWriter<L>,
    entries: &[Commit],
) -> Result<(), LogFailed>
    ensures counted { (head : List ℕ) (before : List Entry) → Counts head (texts_of before) writer.old.count writer.old.check
        → OnOk result (Counts head (texts_of (before ++ entries.now)) writer.new.count writer.new.check) }
    ensures logged { (head : List ℕ) (before : List Entry) → Counts head (texts_of before) writer.old.count writer.old.check
        → L.text writer.old.log ≡ Some (log_text head (texts_of before))
        → OnOk result (L.text writer.new.log ≡ Some (log_text head (texts_of (before ++ entries.now)))) }
    ensures left { (head : List ℕ) (before : List Entry) (left : List ℕ) → Counts head (texts_of before) writer.old.count writer.old.check
        → L.text writer.old.log ≡ Some (log_text head (texts_of before)) → L.kept writer.old.log ≡ L.text writer.old.log
        → MayLeave (L.kept writer.new.log) (L.text writer.new.log) left → LeavesEntries head left before (before ++ entries.now) }
    ensures kept { L.kept writer.new.log ≡ L.kept writer.old.log }
{
    for entry in entries {
        let Some(text) = body_of(alloc, entry) else {
            return Err(LogFailed);
        };
        writer.put(text)?;
    }
    Ok(())
}
