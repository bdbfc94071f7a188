//! Logs by their names, which keep the commits of sessions.
ghost use Rattle.std.specs.Prelude.{◌≡◌, ℕ, List, Option, Some, None, IfErr, IfOk, OnOk, option_map, take};
ghost use Rattle.desk_io.specs.Texts.{IsTold, untold};
ghost use Rattle.mapf_desk.specs.Ends.{Savings, unsaid};
ghost use Rattle.mapf_desk.specs.Logged.{IsUnopened};

use crate::faults::{LogRefused, ProgramFault};
use commit_log::Log;
use desk_io::{More, System};
use log_file::{LogFile, OpenError, open_log, settle_name};
use solver_check::{Fault, MOST_BYTES, RunFault};
use std::alloc::Global;
use std::fs::File;
use std::io::{Error, ErrorKind, Result as Done};
use std::rt::Files;

/// A log that is open, which no other program has.
pub trait OpenLog: Log {
    /// Leaves so many bytes of it.
    ///
    /// # Errors
    ///
    /// The system's reason.
    fn cut(&mut self, length: u64) -> Done<()>
        ensures { OnOk result (Self.text self.new ≡ option_map (take length) (Self.text self.old)) };

    /// The system's reason for the last append or sync that failed.
    fn reason(&self) -> Option<Error>;
}

impl OpenLog for LogFile {
    fn cut(&mut self, length: u64) -> Done<()> {
        self.shorten(length)
    }

    fn reason(&self) -> Option<Error> {
        self.why()
    }
}

/// A log as it was opened, by its name, and the bytes that it had.
#[derive(Drop)]
pub struct Opened<L: OpenLog + Drop> {
    pub name: &'static str,
    pub log: L,
    pub bytes: Vec<u8>,
}

/// What has logs.
pub trait Logs {
    type Open: OpenLog + Drop;

    /// The bytes of the log of that name, where they are told.
    ghost had: { Self → List ℕ → Option (List ℕ) };

    /// Which logs were left with which bytes, all of which a crash leaves.
    ghost has_left: { Self → Savings };

    /// Opens the log of that name, or makes it, and reads its bytes.
    ///
    /// # Errors
    ///
    /// Another program has it, or it can't be opened or read, or is too long; or want of memory.
    fn open(
        &self,
        name: &'static str,
        is_synced: bool,
        more: &mut More,
    ) -> Result<Opened<Self::Open>, ProgramFault>
        ensures name { IfOk result (λ opened. opened.name.now ≡ name.now) }
        ensures text { IfOk result (λ opened. Self.Open.text opened.log ≡ had self.now name.now) }
        ensures read { IfOk result (λ opened. IsTold (had self.now name.now) opened.bytes.items) }
        ensures unopened { IfErr result (IsUnopened name.now) };

    /// Makes a crash leave the name of a log that was made.
    ///
    /// # Errors
    ///
    /// The system's reason.
    fn settle_name(&self, name: &'static str, log: &Self::Open) -> Done<()>;

    /// Lets a log go.
    fn close(&self, name: &'static str, log: Self::Open)
        ensures { (text : List ℕ) → Self.Open.text log ≡ Some text → Self.Open.kept log ≡ Some text → has_left self.now name.now text };
}

impl<R: Files<File = File> + AllocGlobal> Logs for System<'_, R> {
    type Open = LogFile;

    ghost had = { λ _ _. None };

    ghost has_left = { λ _. unsaid };

    fn open(
        &self,
        name: &'static str,
        is_synced: bool,
        more: &mut More,
    ) -> Result<Opened<LogFile>, ProgramFault> {
        let alloc = self.0.alloc();
        match open_log(self.0, alloc, name, is_synced, MOST_BYTES) {
            Ok((log, bytes)) => Ok(Opened { name, log, bytes }),
            Err(OpenError::InUse) => Err(ProgramFault::Log(LogRefused::InUse)),
            Err(OpenError::TooLong) => {
                more.reason(alloc, &"more than 1073741824 bytes");
                Err(ProgramFault::Desk(Fault::CannotRead { file: name }))
            }
            Err(OpenError::Refused(why)) => Err(unwritten(alloc, name, why, more)),
        }
    }

    fn settle_name(&self, name: &'static str, log: &LogFile) -> Done<()> {
        if log.is_synced() {
            settle_name(self.0, name)
        } else {
            Ok(())
        }
    }

    fn close(&self, name: &'static str, log: LogFile) {
        let _name = name;
        drop(log);
    }
}

/// The fault of a log that can't be opened or written; the system's reason is noted.
pub(crate) fn unwritten(
    alloc: Global,
    file: &'static str,
    why: Error,
    more: &mut More,
) -> ProgramFault
    ensures { IsUnopened file.now result }
{
    if why.kind() == ErrorKind::OutOfMemory {
        return ProgramFault::Desk(Fault::Run(RunFault::OutOfMemory));
    }
    more.reason(alloc, &why);
    ProgramFault::Desk(Fault::CannotWrite { file })
}
