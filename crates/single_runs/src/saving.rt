ghost use Rattle.std.specs.Prelude.{◌≡◌, [], Some, IsTrue, OnOk, OnErr, is_err, ◌||◌};
ghost use Rattle.std.specs.Io.KnownBytes.{Appends};
ghost use Rattle.atomic_save.specs.Outcomes.{Only, LeavesOnly, IsOldOrNew, IsFoundInFile};
ghost use Rattle.desk_report.specs.Bytes.{AppendsFront};
ghost use Rattle.journal_text.specs.Ranges.{IsJournal};
ghost use Rattle.single_runs.specs.Saved.{log_of, saved_text};

use atomic_save::{Document, FileFailed, NamedFile, SaveError, TemporaryFile, save};
use desk_core::Desk;
use desk_report::{Sink, WriteFailed};
use journal_text::write_journal;

/// Writes the journal of a desk, from which a desk of the same scene and journal can be opened where
/// this one was. It takes no memory.
///
/// # Errors
///
/// The sink failed, or took no byte: a prefix of the text went out.
pub fn save_desk<W: Sink>(desk: &Desk, sink: &mut W) -> Result<(), WriteFailed>
    ensures ok { OnOk result (Appends (W.held sink.old) (W.held sink.new) (saved_text desk.now)) }
    ensures err { OnErr result (AppendsFront (W.held sink.old) (W.held sink.new) (saved_text desk.now)) }
    ensures broken { W.broken sink.new ≡ (W.broken sink.old || is_err result) }
    ensures lawful { OnOk result (IsJournal (log_of desk.now)) }
{
    let _most = desk.limit().entries();
    write_journal(desk.journal(), desk.scene().mode(), sink)
}

/// Saves the journal of a desk under a file's name. At any moment, also after an `Err`, the name has
/// what it had or that journal's text, and nothing else; once it is saved, an end of the machine leaves
/// the text. It takes no memory but what the file's calls do.
///
/// # Errors
///
/// A call on the files failed.
pub fn save_journal<T: TemporaryFile, F: NamedFile<T>>(
    desk: &Desk,
    named: &mut F,
    temporary: T,
) -> Result<(), SaveError>
    requires durable { IsTrue F.is_told → Only (F.content named.old) (F.may_leave named.old) }
    requires empty { IsTrue F.is_told → T.written temporary ≡ Some [] }
    ensures found { IsTrue F.is_told → IsFoundInFile (F.content named.old) (saved_text desk.now) result (F.content named.new) }
    ensures durable { IsTrue F.is_told → OnOk result (Only (Some (saved_text desk.now)) (F.may_leave named.new)) }
    ensures any_moment { IsTrue F.is_told → LeavesOnly F.moment F.left_since named.old named.new (IsOldOrNew (F.content named.old) (saved_text desk.now)) }
    ensures cause { F.has_failed named.new ≡ ((F.has_failed named.old || T.has_failed temporary) || is_err result) }
{
    save(named, temporary, &DeskJournal { desk })
}

/// The journal of a desk, as it is saved.
#[derive(Drop)]
pub struct DeskJournal<'d> {
    pub desk: &'d Desk,
}

impl<'d> Document for DeskJournal<'d> {
    ghost use Rattle.single_runs.specs.Saved.{saved_text};

    ghost bytes = { λ journal. saved_text journal.desk.now };

    fn write<T: TemporaryFile>(&self, file: T) -> (T, Result<(), FileFailed>) {
        let mut sink = Pieces { file };
        let saved = save_desk(self.desk, &mut sink);
        let written = match saved {
            Ok(()) => Ok(()),
            Err(_) => Err(FileFailed),
        };
        let Pieces { file } = sink;
        (file, written)
    }
}

// A sink that writes what it takes into a temporary file.
struct Pieces<T> {
    file: T,
}

impl<T: TemporaryFile> Sink for Pieces<T> {
    ghost held = { λ pieces. T.written pieces.file };

    ghost broken = { λ pieces. T.has_failed pieces.file };

    fn put(&mut self, bytes: &[u8]) -> Result<usize, WriteFailed> {
        match self.file.write(bytes) {
            Ok(()) => Ok(bytes.len()),
            Err(_) => Err(WriteFailed),
        }
    }
}
