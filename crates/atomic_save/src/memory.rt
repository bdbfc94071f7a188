//! Files in memory, which tell what may be left of them: one of their calls may fail.
ghost use Rattle.std.specs.Prelude.{◌≡◌, ◌⊎◌, true, false, [], ◌∷◌, length, drop, Some, IfOk};
ghost use Rattle.std.proofs.Common.{inl, refl};
ghost use Rattle.atomic_save.specs.Memory.{content_of, contents_of, MayBeLeft, MayBeLeftSince, left_now};

use crate::named_files::NamedFile;
use crate::temporary_files::{FileFailed, TemporaryFile};
use std::alloc::{AllocError, Global};

#[cfg(test)]
mod tests;

/// A call of the files.
#[derive(Clone, Copy, Debug, PartialEq, Eq)]
pub enum Call {
    Create,
    Write,
    Sync,
    Rename,
    SyncFolder,
}

/// A temporary file in memory. Until it is synced, the end of the machine may leave of it what it was
/// at the sync before.
#[derive(Drop)]
pub struct MemoryTemporary {
    alloc: Global,
    bytes: Vec<u8>,
    synced: Vec<u8>,
    fails: Option<Call>,
    failed: bool,
}

impl TemporaryFile for MemoryTemporary {
    ghost written = { λ file. Some file.bytes.items };

    ghost may_keep = { λ file c. (c ≡ Some file.bytes.items) ⊎ (c ≡ Some file.synced.items) };

    ghost has_failed = { λ file. file.failed };

    fn write(&mut self, bytes: &[u8]) -> Result<(), FileFailed> {
        if self.fails == Some(Call::Write) || self.bytes.extend_from_slice(bytes).is_err() {
            self.failed = true;
            return Err(FileFailed);
        }
        Ok(())
    }

    fn sync(&mut self) -> Result<(), FileFailed> {
        match self.bytes.to_vec(self.alloc) {
            Ok(synced) if self.fails != Some(Call::Sync) => {
                self.synced = synced;
                Ok(())
            }
            _ => {
                self.failed = true;
                Err(FileFailed)
            }
        }
    }
}

/// A file in memory by its name. Until its folder is synced, the end of the machine may leave what the
/// name had before, or what was synced of the file that was renamed.
#[derive(Drop)]
pub struct MemoryFile {
    alloc: Global,
    content: Option<Vec<u8>>,
    unsettled: Vec<Option<Vec<u8>>>,
    past: Vec<Option<Vec<u8>>>,
    fails: Option<Call>,
    failed: bool,
}

impl MemoryFile {
    ghost use Rattle.std.specs.Prelude.{◌≡◌, false};
    ghost use Rattle.atomic_save.specs.Memory.{content_of};
    ghost use Rattle.atomic_save.specs.Outcomes.{Only};

    /// A file of that content, which is on the disk, where each call of that kind fails.
    pub fn new(alloc: Global, content: Option<Vec<u8>>, fails: Option<Call>) -> MemoryFile
        ensures content { ⟦<MemoryFile as NamedFile<MemoryTemporary>>⟧.content result ≡ content_of content }
        ensures durable { Only (content_of content) (⟦<MemoryFile as NamedFile<MemoryTemporary>>⟧.may_leave result) }
        ensures failed { ⟦<MemoryFile as NamedFile<MemoryTemporary>>⟧.has_failed result ≡ false }
    {
        MemoryFile {
            alloc,
            content,
            unsettled: Vec::new(alloc),
            past: Vec::new(alloc),
            fails,
            failed: false,
        }
    }
}

// What the end of the machine may leave where a file of that content is replaced by one that is synced
// so far.
fn replaced(
    alloc: Global,
    content: &Option<Vec<u8>>,
    synced: Vec<u8>,
) -> Result<Vec<Option<Vec<u8>>>, AllocError>
    ensures { IfOk result (λ ends. contents_of ends.items ≡ content_of content.now ∷ Some synced.items ∷ []) }
{
    let before = match content {
        Some(bytes) => Some(bytes.to_vec(alloc)?),
        None => None,
    };
    let mut ends = Vec::new(alloc);
    ends.push(before)?;
    ends.push(Some(synced))?;
    Ok(ends)
}

impl NamedFile<MemoryTemporary> for MemoryFile {
    ghost is_told = { true };

    ghost content = { λ file. content_of file.content };

    ghost may_leave = { λ file c. MayBeLeft (content_of file.content) (contents_of file.unsettled.items) c };

    ghost moment = { λ file. length (contents_of file.past.items) };

    ghost left_since = { λ file t c. MayBeLeftSince (content_of file.content) (contents_of file.unsettled.items) (contents_of file.past.items) t c };

    ghost has_failed = { λ file. file.failed };

    ghost leaves_content = { λ file. inl refl };

    ghost counts_now = { λ file t c le left. inl left };

    ghost only_now = { λ file c left. left_now (content_of file.content) (contents_of file.unsettled.items) (contents_of file.past.items) c left };

    #[tactic(auto, using(crate::proofs::Moments::elapses_still))]
    fn create(&mut self) -> Result<MemoryTemporary, FileFailed> {
        if self.fails == Some(Call::Create) {
            self.failed = true;
            return Err(FileFailed);
        }
        Ok(MemoryTemporary {
            alloc: self.alloc,
            bytes: Vec::new(self.alloc),
            synced: Vec::new(self.alloc),
            fails: self.fails,
            failed: false,
        })
    }

    #[tactic(auto, using(crate::proofs::Moments::elapses_still))]
    fn rename(&mut self, file: MemoryTemporary) -> Result<(), FileFailed> {
        self.failed |= file.failed;
        if self.fails == Some(Call::Rename) {
            self.failed = true;
            return Err(FileFailed);
        }
        let MemoryTemporary { bytes, synced, .. } = file;
        let Ok(mut ends) = replaced(self.alloc, &self.content, synced) else {
            self.failed = true;
            return Err(FileFailed);
        };
        match self.unsettled.append(&mut ends) {
            Ok(()) => {
                self.content = Some(bytes);
                Ok(())
            }
            Err(_) => {
                self.failed = true;
                Err(FileFailed)
            }
        }
    }

    #[tactic(auto, using(crate::proofs::Moments::elapses_still))]
    fn remove(&mut self, file: MemoryTemporary) {
        self.failed |= file.failed;
    }

    #[tactic(auto, using(crate::proofs::Moments::elapses_still))]
    fn sync_folder(&mut self) -> Result<(), FileFailed> {
        if self.fails == Some(Call::SyncFolder) {
            self.failed = true;
            return Err(FileFailed);
        }
        match self.past.append(&mut self.unsettled) {
            Ok(()) => Ok(()),
            Err(_) => {
                self.failed = true;
                Err(FileFailed)
            }
        }
    }
}
