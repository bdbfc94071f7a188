//! The system's files. Std says nothing of what they hold, so nothing is claimed of that here.
ghost use Rattle.std.specs.Prelude.{◌≡◌, ◌||◌, is_err, false, None, ⊤};

use crate::documents::Document;
use crate::elsewhere::keep_elsewhere;
use crate::named_files::NamedFile;
use crate::naming::{
    ENDING, KEPT_ENDING, MOST_NAMES, NEW_MODE, is_file, is_renamed_anew, new_file, split,
};
use crate::system_temporary::SystemTemporary;
use crate::temporary_files::FileFailed;
use std::fs;
use std::fs::{File, Permissions};
use std::io::{BufWriter, Error, ErrorKind, Result as Done};
use std::mem::swap;
use std::os::unix::fs::PermissionsExt;
use std::rt::Files;

/// A file of the system by its name, with its folder.
#[derive(Drop)]
pub struct SystemFile<R: Files<File = File> + AllocGlobal + Drop> {
    rt: R,
    file: String,
    folder: File,
    permissions: Option<Permissions>,
    temporary: String,
    kept: String,
    is_left: bool,
    failed: bool,
    why: Option<Error>,
}

impl<R: Files<File = File> + AllocGlobal + Drop> SystemFile<R> {
    // The file, whose folder is open, with no temporary file yet.
    pub(crate) fn new(rt: &R, file: &str, folder: File) -> Done<SystemFile<R>>
    where
        R: Clone,
    {
        let permissions = match fs::metadata(rt, file) {
            Ok(there) => Some(there.permissions()),
            Err(_) => None,
        };
        Ok(SystemFile {
            rt: rt.clone()?,
            file: String::from_str(rt.alloc(), file)?,
            folder,
            permissions,
            temporary: String::new(rt.alloc()),
            kept: String::new(rt.alloc()),
            is_left: false,
            failed: false,
            why: None,
        })
    }

    /// The system's reason for the last call that failed, also of one on a temporary file.
    pub fn into_reason(self) -> Option<Error> {
        self.why
    }

    // Lets others lock the folder.
    pub(crate) fn unlock_folder(&self) -> Done<()> {
        self.folder.unlock()
    }

    // Makes a temporary file of the first name that nobody has, and the name under which it can be kept.
    fn made(&self) -> Done<(SystemTemporary, String, String)> {
        let (folder, name) = split(self.file.as_str());
        for number in 0..MOST_NAMES {
            let path = format!(in self.rt.alloc(); "{folder}.{name}.{number}{ENDING}")?;
            let kept = format!(in self.rt.alloc(); "{folder}{name}.{number}{KEPT_ENDING}")?;
            if fs::symlink_metadata(&self.rt, kept.as_str()).is_ok() {
                continue;
            }
            match new_file(&self.rt, path.as_str(), self.mode()) {
                Ok(file) => return Ok((self.ready(file, path.as_str())?, path, kept)),
                Err(why) if why.kind() == ErrorKind::AlreadyExists => {}
                Err(why) => return Err(why),
            }
        }
        Err(ErrorKind::AlreadyExists.into())
    }

    // The mode of what is to be the file.
    fn mode(&self) -> u32 {
        match &self.permissions {
            Some(permissions) => permissions.mode() & 0o7777,
            None => NEW_MODE,
        }
    }

    // A new temporary file as it is to be written; where that can't be, it is removed.
    fn ready(&self, file: File, path: &str) -> Done<SystemTemporary> {
        let ready = self.locked(file);
        if ready.is_err() {
            let _gone = fs::remove_file(&self.rt, path);
        }
        ready
    }

    // Locks a new temporary file, gives it the file's permissions, and makes its buffer.
    fn locked(&self, file: File) -> Done<SystemTemporary> {
        file.try_lock()?;
        if let Some(permissions) = &self.permissions {
            if file.metadata()?.permissions().mode() & 0o7777 != self.mode() {
                file.set_permissions(Permissions::from_mode(permissions.mode()))?;
            }
        }
        Ok(SystemTemporary::new(BufWriter::new(self.rt.alloc(), file)?))
    }

    // What a call did; the reason for one that failed is kept.
    fn noted(&mut self, done: Done<()>) -> Result<(), FileFailed>
        ensures { self.new.failed ≡ (self.old.failed || is_err result) }
    {
        match done {
            Ok(()) => Ok(()),
            Err(why) => {
                self.failed = true;
                self.why = Some(why);
                Err(FileFailed)
            }
        }
    }

    /// Where the document is that a save couldn't give the file's name, and the system's reason for
    /// that: in the temporary file, under this or another name, or where it isn't there in a file of
    /// another folder, which is written now; none where no folder takes it.
    pub fn into_kept<D: Document>(self, document: &D) -> (Option<String>, Option<Error>) {
        if self.is_left {
            return (Some(self.temporary), self.why);
        }
        let kept = keep_elsewhere(&self.rt, self.file.as_str(), document);
        (kept, self.why)
    }
}

impl<R: Files<File = File> + AllocGlobal + Drop> NamedFile<SystemTemporary> for SystemFile<R> {
    ghost is_told = { false };

    ghost content = { λ _. None };

    ghost may_leave = { λ _ _. ⊤ };

    ghost moment = { λ _. 0 };

    ghost left_since = { λ _ _ _. ⊤ };

    ghost has_failed = { λ file. file.failed };

    ghost leaves_content = { λ _. tt };

    ghost counts_now = { λ _ _ _ _ _. tt };

    ghost only_now = { λ _ _ _. tt };

    fn create(&mut self) -> Result<SystemTemporary, FileFailed> {
        match self.made() {
            Ok((file, temporary, kept)) => {
                self.temporary = temporary;
                self.kept = kept;
                Ok(file)
            }
            Err(why) => {
                self.failed = true;
                self.why = Some(why);
                Err(FileFailed)
            }
        }
    }

    fn rename(&mut self, file: SystemTemporary) -> Result<(), FileFailed> {
        let done = fs::rename(&self.rt, self.temporary.as_str(), self.file.as_str());
        if done.is_err() {
            if is_renamed_anew(&self.rt, self.temporary.as_str(), self.kept.as_str()) {
                swap(&mut self.temporary, &mut self.kept);
            }
            self.is_left = is_file(&self.rt, self.temporary.as_str());
        }
        // (until here it is open, and so locked)
        let (failed, _) = file.into_fault();
        self.failed |= failed;
        self.noted(done)
    }

    fn remove(&mut self, file: SystemTemporary) {
        let _gone = fs::remove_file(&self.rt, self.temporary.as_str());
        let (failed, why) = file.into_fault();
        if failed {
            self.failed = true;
            self.why = why;
        }
    }

    fn sync_folder(&mut self) -> Result<(), FileFailed> {
        let done = self.folder.sync_all();
        self.noted(done)
    }
}
