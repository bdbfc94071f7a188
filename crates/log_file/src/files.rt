//! The file of a log. Std says nothing of what it holds, so nothing is claimed of that here.
ghost use Rattle.std.specs.Prelude.{◌≡◌, None};

use commit_log::{Log, LogFailed};
use std::fs::File;
use std::io::{Error, Result as Done, Write};

/// The file of a log, locked as long as it is open.
#[derive(Drop)]
pub struct LogFile {
    file: File,
    is_synced: bool,
    why: Option<Error>,
}

impl LogFile {
    /// The open file, at whose end bytes are put. If it isn't to be synced, the end of the machine may
    /// leave what it had before.
    pub(crate) fn new(file: File, is_synced: bool) -> LogFile
        ensures file { result.file ≡ file }
        ensures synced { result.is_synced ≡ is_synced }
        ensures why { result.why ≡ None }
    {
        LogFile {
            file,
            is_synced,
            why: None,
        }
    }

    /// Whether it is synced.
    pub fn is_synced(&self) -> bool
        ensures { result ≡ self.now.is_synced }
    {
        self.is_synced
    }

    /// Leaves so many bytes of the file.
    ///
    /// # Errors
    ///
    /// The system's reason.
    pub fn shorten(&mut self, length: u64) -> Done<()> {
        self.file.set_len(length)?;
        self.put_on_disk()
    }

    /// The system's reason for the last call that failed.
    pub fn why(&self) -> Option<Error>
        ensures { result ≡ self.now.why }
    {
        self.why
    }

    // Puts onto the disk what the file has, if that is wanted.
    fn put_on_disk(&self) -> Done<()> {
        if self.is_synced {
            self.file.sync_data()
        } else {
            Ok(())
        }
    }

    // What a call did; the reason for one that failed is kept.
    fn noted(&mut self, done: Done<()>) -> Result<(), LogFailed> {
        match done {
            Ok(()) => Ok(()),
            Err(why) => {
                self.why = Some(why);
                Err(LogFailed)
            }
        }
    }
}

impl Log for LogFile {
    ghost text = { λ _. None };

    ghost kept = { λ _. None };

    fn append(&mut self, bytes: &[u8]) -> Result<(), LogFailed> {
        let done = self.file.write_all(bytes);
        self.noted(done)
    }

    fn sync(&mut self) -> Result<(), LogFailed> {
        let done = self.put_on_disk();
        self.noted(done)
    }
}
