//! The bytes of files.
ghost use Rattle.std.specs.Prelude.{◌≡◌, ◌⊎◌, ℕ, List, Option, Some, None, IfErr, IfOk, Any, option_map};
ghost use Rattle.std.specs.Option.{option_copied};
ghost use Rattle.desk_io.specs.Texts.{AreTold, IsJournalTold, IsNoJournal, IsTold, IsText, IsUnread};

use crate::logs::as_journal;
use crate::telling::More;
use solver_check::{Fault, MOST_BYTES, RunFault};
use std::alloc::Global;
use std::fs;
use std::io::{ErrorKind, Read};
use std::rt::Files;

/// What has files, by their names.
pub trait Folder {
    /// The bytes of the file of that name, where they are told.
    ghost holds: { Self → List ℕ → Option (List ℕ) };

    /// The bytes of a file; more is known of why it can't be read.
    ///
    /// # Errors
    ///
    /// The file can't be opened or read, or has more than `MOST_BYTES` bytes; or want of memory.
    fn bytes(&self, file: &'static str, more: &mut More) -> Result<Vec<u8>, Fault>
        ensures read { IfOk result (λ bytes. IsTold (holds self.now file.now) bytes.items) }
        ensures unread { IfErr result (IsUnread file.now) };

    /// The text of a journal: the bytes of its file, or where that is a log the journal that its entries
    /// make. An entry of it that was not finished is noted.
    ///
    /// # Errors
    ///
    /// As `bytes`, or the log's first line that doesn't fit.
    fn journal(&self, file: &'static str, more: &mut More) -> Result<Vec<u8>, Fault>
        ensures read { IfOk result (λ text. IsJournalTold (holds self.now file.now) text.items) }
        ensures unread { IfErr result (IsNoJournal (holds self.now) file.now) };
}

/// The system's files.
pub struct System<'a, R>(pub &'a R);

impl<R> Drop for System<'_, R> {
    fn drop(self) {
        let System(_) = self;
    }
}

impl<R: Files + AllocGlobal> Folder for System<'_, R> {
    ghost holds = { λ _ _. None };

    fn bytes(&self, file: &'static str, more: &mut More) -> Result<Vec<u8>, Fault> {
        let alloc = self.0.alloc();
        let opened = match fs::open(self.0, file) {
            Ok(opened) => opened,
            Err(why) => {
                more.reason(alloc, &why);
                return Err(Fault::CannotRead { file });
            }
        };
        let mut bytes = Vec::new(alloc);
        match opened.take(MOST_BYTES + 1).read_to_end(&mut bytes) {
            Err(why) if why.kind() == ErrorKind::OutOfMemory => {
                Err(Fault::Run(RunFault::OutOfMemory))
            }
            Err(why) => {
                more.reason(alloc, &why);
                Err(Fault::CannotRead { file })
            }
            Ok(count) if count as u64 > MOST_BYTES => {
                more.reason(alloc, &"more than 1073741824 bytes");
                Err(Fault::CannotRead { file })
            }
            Ok(_) => Ok(bytes),
        }
    }

    fn journal(&self, file: &'static str, more: &mut More) -> Result<Vec<u8>, Fault> {
        match self.bytes(file, more) {
            Ok(bytes) => as_journal(self.0.alloc(), bytes, more),
            Err(fault) => Err(fault),
        }
    }
}

/// The bytes of a file, where one is named.
///
/// # Errors
///
/// As `Folder::bytes`.
pub fn named_bytes<F: Folder>(
    folder: &F,
    file: Option<&'static str>,
    more: &mut More,
) -> Result<Option<Vec<u8>>, Fault>
    ensures read { IfOk result (λ bytes. IsText (F.holds folder.now) (option_copied file.entry) (option_map (λ b. b.items) bytes)) }
    ensures unread { IfErr result (λ fault. (name : List ℕ) × (option_copied file.entry ≡ Some name) × IsUnread name fault) }
{
    match file {
        None => Ok(None),
        Some(file) => match folder.bytes(file, more) {
            Ok(bytes) => Ok(Some(bytes)),
            Err(fault) => Err(fault),
        },
    }
}

/// The bytes of the files, in their order.
///
/// # Errors
///
/// Those of `Folder::bytes`, at the first file that has one; or want of memory.
pub fn all_bytes<F: Folder>(
    alloc: Global,
    folder: &F,
    files: &[&'static str],
    more: &mut More,
) -> Result<Vec<Vec<u8>>, Fault>
    ensures read { IfOk result (λ all. AreTold (F.holds folder.now) files.now all.items) }
    ensures unread { IfErr result (λ fault. (fault ≡ Fault.Run RunFault.OutOfMemory) ⊎ Any (λ file. IsUnread file.now fault) files.now) }
{
    let mut all = Vec::new(alloc);
    for file in files {
        let bytes = match folder.bytes(file, more) {
            Ok(bytes) => bytes,
            Err(fault) => {
                drop(all);
                return Err(fault);
            }
        };
        if let Err(_refused) = all.push(bytes) {
            drop(all);
            return Err(Fault::Run(RunFault::OutOfMemory));
        }
    }
    Ok(all)
}
