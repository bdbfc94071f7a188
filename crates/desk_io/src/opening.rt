//! How a planner's pair of files is opened, with no wait.
ghost use Rattle.std.specs.Prelude.{◌≡◌, ◌⊎◌, ◌++◌, IfErr, IfOk, codes, string_bytes};

use crate::doors::{Doors, Ends, FileNames, Opened, Reader, Stage, Unmet};
use crate::pipes::{DoorError, End, copied, is_pipe, open_door};
use solver_check::Shown;
use std::alloc::{AllocError, Global};
use std::fs::File;
use std::io::Error;
use std::rt::Files;
use std::sync::atomic::AtomicBool;
use std::sync::{Mutex, Wait};

/// Why there are no seats.
#[derive(Drop)]
pub enum PipesFault {
    OutOfMemory,
    /// A file of the planner of that name is another planner's already, of this host or of another one.
    InUse { name: &'static str },
}

/// Why a planner has no pair of files.
#[derive(Drop)]
pub(crate) enum DoorsFault {
    OutOfMemory,
    /// One of them is another planner's already, or another host's.
    InUse,
    /// One of them can't be opened.
    Closed(Unmet),
}

impl From<AllocError> for DoorsFault {
    fn from(_why: AllocError) -> DoorsFault {
        DoorsFault::OutOfMemory
    }
}

impl Doors {
    /// The files of the planner of that name, NAME.in and NAME.out, of which the output is open, where
    /// it is a pipe and can be opened.
    ///
    /// # Errors
    ///
    /// Want of memory, or the output is another planner's, of this host or of another one.
    pub fn new<F: Files<File = File>>(
        files: &F,
        alloc: Global,
        name: &str,
    ) -> Result<Doors, DoorsFault>
        ensures inward { IfOk result (λ doors. string_bytes doors.names.inward ≡ name.now ++ codes ".in") }
        ensures outward { IfOk result (λ doors. string_bytes doors.names.outward ≡ name.now ++ codes ".out") }
    {
        let shown = format!(in alloc; "{}", Shown(name))?;
        let mut doors = Doors {
            name: shown,
            names: FileNames::new(alloc, name)?,
            opened: Mutex::new(Opened::NotYet),
            output: Mutex::new(None),
            watched: None,
            inward: Mutex::new(None),
            outward: Mutex::new(None),
            reader: Mutex::new(Reader::Here),
            watches: AtomicBool::new(false),
            awaits: AtomicBool::new(false),
            is_nudged: AtomicBool::new(false),
            reads: AtomicBool::new(false),
            at: Mutex::new(Stage::Awaited),
        };
        if is_pipe(files, doors.names.outward.as_str()) {
            match open_door(files, alloc, doors.names.outward.as_str(), End::Output) {
                Ok(door) => {
                    doors.watched = copied(alloc, &door.anchor)?;
                    doors.outward = Mutex::new(door.anchor);
                    doors.output = Mutex::new(Some(door.file));
                    doors.reader = Mutex::new(Reader::Awaited);
                }
                Err(DoorError::InUse) => return Err(DoorsFault::InUse),
                Err(DoorError::Refused(why)) => {
                    doors.reader = Mutex::new(Reader::Refused(Unmet::NoOutput(why)));
                }
            }
        }
        Ok(doors)
    }

    /// Opens the input, and the output, where that is no pipe. Why one can't be opened is kept.
    ///
    /// # Errors
    ///
    /// Want of memory, or one of them is another planner's, of this host or of another one.
    pub fn open<F: Files<File = File>, R: Wait>(
        &self,
        files: &F,
        rt: &R,
        alloc: Global,
    ) -> Result<(), DoorsFault>
        ensures { IfErr result (λ fault. (fault ≡ DoorsFault.InUse) ⊎ (fault ≡ DoorsFault.OutOfMemory)) }
    {
        let opened = match self.open_ends(files, rt, alloc) {
            Ok(ends) => Opened::Ends(ends),
            Err(DoorsFault::Closed(fault)) => Opened::Fault(fault),
            Err(fault) => return Err(fault),
        };
        *self.opened.lock(rt) = opened;
        Ok(())
    }

    fn open_ends<F: Files<File = File>, R: Wait>(
        &self,
        files: &F,
        rt: &R,
        alloc: Global,
    ) -> Result<Ends, DoorsFault> {
        let input = match open_door(files, alloc, self.names.inward.as_str(), End::Input) {
            Ok(door) => door,
            Err(DoorError::InUse) => return Err(DoorsFault::InUse),
            Err(DoorError::Refused(why)) => return Err(DoorsFault::Closed(Unmet::NoInput(why))),
        };
        let output = match *self.reader.lock(rt) {
            Reader::Refused(fault) => return Err(DoorsFault::Closed(fault)),
            Reader::Awaited => None,
            Reader::Here if self.watched.is_some() => None,
            Reader::Here => match self.open_plain(files, alloc) {
                Ok(file) => Some(file),
                Err(fault) => return Err(fault),
            },
        };
        let awaited = copied(alloc, &input.anchor)?;
        if awaited.is_none() && output.is_some() {
            self.pass(rt);
        }
        *self.inward.lock(rt) = input.anchor;
        Ok(Ends {
            input: input.file,
            awaited,
            output,
        })
    }

    // Opens the output that is no pipe.
    fn open_plain<F: Files<File = File>>(
        &self,
        files: &F,
        alloc: Global,
    ) -> Result<File, DoorsFault>
        ensures { IfErr result (λ fault. (fault ≡ DoorsFault.InUse) ⊎ ((why : Error) × (fault ≡ DoorsFault.Closed (Unmet.NoOutput why)))) }
    {
        match open_door(files, alloc, self.names.outward.as_str(), End::Output) {
            Ok(door) => Ok(door.file),
            Err(DoorError::InUse) => Err(DoorsFault::InUse),
            Err(DoorError::Refused(why)) => Err(DoorsFault::Closed(Unmet::NoOutput(why))),
        }
    }
}
