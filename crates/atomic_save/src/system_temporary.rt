//! A temporary file of the system. Std says nothing of what it holds, so nothing is claimed of that here.
ghost use Rattle.std.specs.Prelude.{◌≡◌, ◌||◌, is_err, None, ⊤};

use crate::temporary_files::{FileFailed, TemporaryFile};
use std::fs::File;
use std::io::{BufWriter, Error, Result as Done, Write};

/// A temporary file, locked as long as it is open.
#[derive(Drop)]
pub struct SystemTemporary {
    writer: BufWriter<File>,
    failed: bool,
    why: Option<Error>,
}

impl SystemTemporary {
    // The file behind the buffer, in which nothing has failed yet.
    pub(crate) fn new(writer: BufWriter<File>) -> SystemTemporary {
        SystemTemporary {
            writer,
            failed: false,
            why: None,
        }
    }

    // Closes the file, and lets go what it hasn't written: whether a call has failed, and the reason for
    // the last one that did.
    pub(crate) fn into_fault(self) -> (bool, Option<Error>)
        ensures { result.0 ≡ self.failed }
    {
        let (_file, _unwritten) = self.writer.into_parts();
        (self.failed, self.why)
    }

    // What a call did; the reason for one that failed is kept.
    fn noted(&mut self, done: Done<()>) -> Result<(), FileFailed>
        ensures { self.new.failed ≡ (self.old.failed || is_err result) }
    {
        match done {
            Ok(()) => Ok(()),
            Err(why) => {
                self.failed = true;
                self.why = Some(why);
                Err(FileFailed)
            }
        }
    }
}

impl TemporaryFile for SystemTemporary {
    ghost written = { λ _. None };

    ghost may_keep = { λ _ _. ⊤ };

    ghost has_failed = { λ file. file.failed };

    fn write(&mut self, bytes: &[u8]) -> Result<(), FileFailed> {
        let done = self.writer.write_all(bytes);
        self.noted(done)
    }

    fn sync(&mut self) -> Result<(), FileFailed> {
        let done = match self.writer.flush() {
            Ok(()) => self.writer.get_ref().sync_all(),
            Err(why) => Err(why),
        };
        self.noted(done)
    }
}
