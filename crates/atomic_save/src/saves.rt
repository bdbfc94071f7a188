//! A save that may end at any moment.
ghost use Rattle.std.specs.Prelude.{◌≡◌, [], Some, IfSome, IsTrue, OnOk, is_err, ◌||◌};
ghost use Rattle.std.specs.Io.KnownBytes.{Appends};
ghost use Rattle.atomic_save.specs.Outcomes.{Only, LeavesOnly, IsOldOrNew, IsFoundInFile};

use crate::documents::Document;
use crate::named_files::NamedFile;
use crate::temporary_files::{FileFailed, TemporaryFile};

/// How far a save came that failed.
#[derive(Clone, Copy, Debug, PartialEq, Eq)]
pub enum SaveError {
    /// The document isn't whole on the disk beside the file; what was written of it there is removed.
    NotWritten,
    /// It is whole on the disk, and hasn't the file's name.
    NotRenamed,
    /// It has the name, and the end of the machine may still leave what was there before.
    NotDurable,
}

/// Saves the document under the file's name. At any moment, also after an `Err`, the name has what it
/// had or the document, and nothing else; once it is saved, an end of the machine leaves the document.
///
/// # Errors
///
/// A call of the system failed.
pub fn save<T: TemporaryFile, F: NamedFile<T>, D: Document>(
    named: &mut F,
    temporary: T,
    document: &D,
) -> Result<(), SaveError>
    requires durable { IsTrue F.is_told → Only (F.content named.old) (F.may_leave named.old) }
    requires empty { IsTrue F.is_told → T.written temporary ≡ Some [] }
    ensures found { IsTrue F.is_told → IsFoundInFile (F.content named.old) (D.bytes document.now) result (F.content named.new) }
    ensures durable { IsTrue F.is_told → OnOk result (Only (Some (D.bytes document.now)) (F.may_leave named.new)) }
    ensures any_moment { IsTrue F.is_told → LeavesOnly F.moment F.left_since named.old named.new (IsOldOrNew (F.content named.old) (D.bytes document.now)) }
    ensures cause { F.has_failed named.new ≡ ((F.has_failed named.old || T.has_failed temporary) || is_err result) }
{
    let (file, whole) = write_whole(document, temporary);
    if whole.is_err() {
        named.remove(file);
        return Err(SaveError::NotWritten);
    }
    if named.rename(file).is_err() {
        return Err(SaveError::NotRenamed);
    }
    match named.sync_folder() {
        Ok(()) => Ok(()),
        Err(_) => Err(SaveError::NotDurable),
    }
}

/// Writes the document into the file, and puts that onto the disk.
pub(crate) fn write_whole<T: TemporaryFile, D: Document>(
    document: &D,
    file: T,
) -> (T, Result<(), FileFailed>)
    ensures bytes { OnOk result.1 (Appends (T.written file) (T.written result.0) (D.bytes document.now)) }
    ensures kept { OnOk result.1 (IfSome (T.written result.0) (λ bytes. Only (Some bytes) (T.may_keep result.0))) }
    ensures failed { T.has_failed result.0 ≡ (T.has_failed file || is_err result.1) }
{
    let (mut file, written) = document.write(file);
    let whole = match written {
        Ok(()) => file.sync(),
        Err(failed) => Err(failed),
    };
    (file, whole)
}
