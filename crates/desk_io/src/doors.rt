//! A planner's pair of files, and how far the planner has come.
ghost use Rattle.std.specs.Prelude.{◌≡◌, ◌++◌, IfOk, codes, string_bytes};

use std::alloc::{AllocError, Global};
use std::fs::File;
use std::io::Error;
use std::sync::atomic::AtomicBool;
use std::sync::{Mutex, Wait};

/// How far a planner has come.
#[derive(Clone, Copy, PartialEq, Eq)]
pub(crate) enum Stage {
    /// It is waited for.
    Awaited,
    /// It hasn't come, and is waited for no longer; threads may still wait at its pipes.
    Missed,
    /// It has come, or can't; nobody waits at its pipes any more.
    Past,
}

/// Why a planner isn't met.
#[derive(Clone, Copy)]
pub(crate) enum Unmet {
    /// No thread waits for it.
    NoThread,
    /// It did not come in time.
    NeverCame,
    /// Its input can't be opened, for the system's reason.
    NoInput(Error),
    /// Its output can't be opened, for the system's reason.
    NoOutput(Error),
}

/// Whether somebody reads a planner's answers.
#[derive(Clone, Copy)]
pub(crate) enum Reader {
    /// A thread waits for that.
    Awaited,
    /// Somebody has opened the pipe; or it is no pipe.
    Here,
    /// It can't be waited for.
    Refused(Unmet),
}

/// The names of a planner's files.
#[derive(Drop)]
pub(crate) struct FileNames {
    pub inward: String,
    pub outward: String,
}

impl FileNames {
    /// Those of the planner of that name: NAME.in and NAME.out.
    pub fn new(alloc: Global, name: &str) -> Result<FileNames, AllocError>
        ensures inward { IfOk result (λ names. string_bytes names.inward ≡ name.now ++ codes ".in") }
        ensures outward { IfOk result (λ names. string_bytes names.outward ≡ name.now ++ codes ".out") }
    {
        Ok(FileNames {
            inward: format!(in alloc; "{name}.in")?,
            outward: format!(in alloc; "{name}.out")?,
        })
    }
}

/// The desk's ends of a planner's files.
#[derive(Drop)]
pub(crate) struct Ends {
    pub input: File,
    /// What the input is opened by, where it is a pipe.
    pub awaited: Option<String>,
    /// The output, where it is no pipe.
    pub output: Option<File>,
}

/// What the opening of a planner's files has come to.
#[derive(Drop)]
pub(crate) enum Opened {
    NotYet,
    Ends(Ends),
    Fault(Unmet),
    /// The planner's thread has them, or nobody.
    Taken,
}

/// A planner's pair of files.
#[derive(Drop)]
pub(crate) struct Doors {
    /// The planner's name, as it is shown.
    pub name: String,
    pub names: FileNames,
    pub opened: Mutex<Opened>,
    /// The output, where it is a pipe, and what it is opened by.
    pub output: Mutex<Option<File>>,
    pub watched: Option<String>,
    /// What the pipes are opened by as long as they are open. Who opens one holds it.
    pub inward: Mutex<Option<String>>,
    pub outward: Mutex<Option<String>>,
    pub reader: Mutex<Reader>,
    /// Whether a thread waits for who reads.
    pub watches: AtomicBool,
    /// Whether a thread waits for who writes.
    pub awaits: AtomicBool,
    /// Whether that thread is to look at what somebody left who has gone.
    pub is_nudged: AtomicBool,
    /// Whether it reads, which waits for somebody who is there and silent.
    pub reads: AtomicBool,
    pub at: Mutex<Stage>,
}

impl Doors {
    pub fn stage<R: Wait>(&self, rt: &R) -> Stage {
        *self.at.lock(rt)
    }

    /// Goes on from one stage to another, where it stands at that one; says whether it did.
    pub fn go<R: Wait>(&self, rt: &R, from: Stage, to: Stage) -> bool {
        let mut stage = self.at.lock(rt);
        let goes = *stage == from;
        if goes {
            *stage = to;
        }
        goes
    }

    /// Nobody waits at the pipes any more, whatever came.
    pub fn pass<R: Wait>(&self, rt: &R) {
        *self.at.lock(rt) = Stage::Past;
    }
}
