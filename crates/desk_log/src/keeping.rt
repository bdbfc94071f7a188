//! A desk's entries kept in a log.
ghost use Rattle.std.specs.Prelude.{◌≡◌, ◌++◌, ◌||◌, ℕ, List, OnErr, OnOk, false, is_err, true};
ghost use Rattle.desk_commits.specs.Entries.{Entry};
ghost use Rattle.desk_log.specs.Keeping.{IsLogged, IsLoggedInPart};

use crate::putting::put_entries;
use commit_log::{Log, LogFailed, LogWriter};
use desk_commits::Commit;
use session_protocol::KeepFailed;
use std::alloc::Global;

/// A log that keeps the entries of a desk.
#[derive(Drop)]
pub struct LogKeeper<L: Log> {
    alloc: Global,
    writer: LogWriter<L>,
    has_failed: bool,
}

impl<L: Log> LogKeeper<L> {
    /// The log that has a desk's entries.
    pub fn new(alloc: Global, writer: LogWriter<L>) -> LogKeeper<L>
        ensures writer { result.writer ≡ writer }
        ensures sound { result.has_failed ≡ false }
    {
        LogKeeper {
            alloc,
            writer,
            has_failed: false,
        }
    }

    /// Whether the log has failed.
    pub fn has_failed(&self) -> bool
        ensures { result ≡ self.now.has_failed }
    {
        self.has_failed
    }

    /// The log, which is handed back.
    pub fn into_log(self) -> L
        ensures { result ≡ self.writer.log }
    {
        let LogKeeper {
            alloc: _,
            writer,
            has_failed: _,
        } = self;
        let LogWriter {
            log,
            count: _,
            check: _,
        } = writer;
        log
    }

    /// The log.
    pub fn log(&self) -> &L
        ensures { result.now ≡ self.now.writer.log }
    {
        &self.writer.log
    }

    /// The log is given up: it has failed.
    pub fn give_up(&mut self)
        ensures writer { self.new.writer ≡ self.old.writer }
        ensures failed { self.new.has_failed ≡ true }
    {
        self.has_failed = true;
    }

    /// How many entries stand in the log.
    pub fn count(&self) -> u64
        ensures { result ≡ self.now.writer.count }
    {
        self.writer.count
    }

    /// Puts the entries behind those that stand in the log, and makes a crash leave them.
    ///
    /// # Errors
    ///
    /// The log failed: a part of the entries may stand there.
    pub fn keep_more(&mut self, entries: &[Commit]) -> Result<(), KeepFailed>
        ensures kept { (head : List ℕ) (before : List Entry)
            → IsLogged head (L.text self.old.writer.log) (L.kept self.old.writer.log) self.old.writer.count self.old.writer.check before
            → OnOk result (IsLogged head (L.text self.new.writer.log) (L.kept self.new.writer.log) self.new.writer.count self.new.writer.check
            (before ++ entries.now)) }
        ensures left { (head : List ℕ) (before : List Entry)
            → IsLogged head (L.text self.old.writer.log) (L.kept self.old.writer.log) self.old.writer.count self.old.writer.check before
            → OnErr result (IsLoggedInPart head (L.text self.new.writer.log) (L.kept self.new.writer.log) before (before ++ entries.now)) }
        ensures failed { self.new.has_failed ≡ (self.old.has_failed || is_err result) }
    {
        match self.put_more(entries) {
            Ok(()) => Ok(()),
            Err(_) => {
                self.has_failed = true;
                Err(KeepFailed)
            }
        }
    }

    // Puts the entries, and makes a crash leave them.
    fn put_more(&mut self, entries: &[Commit]) -> Result<(), LogFailed>
        ensures same { self.new.has_failed ≡ self.old.has_failed }
        ensures kept { (head : List ℕ) (before : List Entry)
            → IsLogged head (L.text self.old.writer.log) (L.kept self.old.writer.log) self.old.writer.count self.old.writer.check before
            → OnOk result (IsLogged head (L.text self.new.writer.log) (L.kept self.new.writer.log) self.new.writer.count self.new.writer.check
            (before ++ entries.now)) }
        ensures left { (head : List ℕ) (before : List Entry)
            → IsLogged head (L.text self.old.writer.log) (L.kept self.old.writer.log) self.old.writer.count self.old.writer.check before
            → OnErr result (IsLoggedInPart head (L.text self.new.writer.log) (L.kept self.new.writer.log) before (before ++ entries.now)) }
    {
        put_entries(self.alloc, &mut self.writer, entries)?;
        self.writer.settle()
    }

    /// Puts those entries of a journal that the log lacks, and makes a crash leave them.
    ///
    /// # Errors
    ///
    /// The log failed: a part of the entries may stand there.
    pub fn keep_rest(&mut self, journal: &[Commit]) -> Result<(), KeepFailed>
        ensures kept { (head : List ℕ) (before later : List Entry)
            → IsLogged head (L.text self.old.writer.log) (L.kept self.old.writer.log) self.old.writer.count self.old.writer.check before
            → journal.now ≡ before ++ later
            → OnOk result (IsLogged head (L.text self.new.writer.log) (L.kept self.new.writer.log) self.new.writer.count self.new.writer.check journal.now) }
        ensures left { (head : List ℕ) (before later : List Entry)
            → IsLogged head (L.text self.old.writer.log) (L.kept self.old.writer.log) self.old.writer.count self.old.writer.check before
            → journal.now ≡ before ++ later → OnErr result (IsLoggedInPart head (L.text self.new.writer.log) (L.kept self.new.writer.log) before journal.now) }
        ensures failed { self.new.has_failed ≡ (self.old.has_failed || is_err result) }
    {
        match self.put_rest(journal) {
            Ok(()) => Ok(()),
            Err(_) => {
                self.has_failed = true;
                Err(KeepFailed)
            }
        }
    }

    // Puts the entries that the log lacks, and makes a crash leave them.
    fn put_rest(&mut self, journal: &[Commit]) -> Result<(), LogFailed>
        ensures same { self.new.has_failed ≡ self.old.has_failed }
        ensures kept { (head : List ℕ) (before later : List Entry)
            → IsLogged head (L.text self.old.writer.log) (L.kept self.old.writer.log) self.old.writer.count self.old.writer.check before
            → journal.now ≡ before ++ later
            → OnOk result (IsLogged head (L.text self.new.writer.log) (L.kept self.new.writer.log) self.new.writer.count self.new.writer.check journal.now) }
        ensures left { (head : List ℕ) (before later : List Entry)
            → IsLogged head (L.text self.old.writer.log) (L.kept self.old.writer.log) self.old.writer.count self.old.writer.check before
            → journal.now ≡ before ++ later → OnErr result (IsLoggedInPart head (L.text self.new.writer.log) (L.kept self.new.writer.log) before journal.now) }
    {
        let kept = self.writer.count as usize;
        if kept >= journal.len() {
            return Ok(());
        }
        self.put_more(&journal[kept..])
    }
}
