use solver_check::{CheckFault, Fault, HostFault, Shown};
use std::fmt::{Display, Error, Formatter, Write};

/// Why a desk's commits are kept in no log.
#[derive(Clone, Copy, Debug, PartialEq, Eq)]
pub enum LogRefused {
    /// Another program has it.
    InUse,
    /// It is of another map, scenario or number of agents.
    AnotherScene,
    /// A line doesn't fit; lines count from 1.
    BadLine { line: usize },
    /// It is of the other mode.
    ModeDiffers,
    /// It could not be written: what wasn't kept isn't answered.
    Failed,
}

impl Display for LogRefused {
    fn fmt<W: Write>(&self, f: &mut Formatter<W>) -> Result<(), Error> {
        match self {
            LogRefused::InUse => f.write_str("log: in use"),
            LogRefused::AnotherScene => f.write_str("log: another scene"),
            LogRefused::BadLine { line } => write!(f, "log: bad line {line}"),
            LogRefused::ModeDiffers => f.write_str("log: mode differs"),
            LogRefused::Failed => f.write_str("log: write failed"),
        }
    }
}

/// Why the program did not do what its words ask for.
#[derive(Drop)]
pub enum ProgramFault {
    /// The words lack something, a file is at fault, or a run has a fault.
    Desk(Fault),
    /// There is no verdict on a solver's paths, or no picture.
    Check(CheckFault),
    /// Planners weren't hosted.
    Host(HostFault),
    /// Two planners have one name, and so one pair of files.
    NamedTwice { name: &'static str },
    /// The log can't be gone on with, or failed.
    Log(LogRefused),
    /// A file of the planner is another planner's already, of this host or of another one.
    InUse { name: &'static str },
}

impl Display for ProgramFault {
    fn fmt<W: Write>(&self, f: &mut Formatter<W>) -> Result<(), Error> {
        match self {
            ProgramFault::Desk(fault) => fault.fmt(f),
            ProgramFault::Check(fault) => fault.fmt(f),
            ProgramFault::Host(fault) => fault.fmt(f),
            ProgramFault::Log(why) => why.fmt(f),
            ProgramFault::NamedTwice { name } => {
                write!(f, "a planner named twice, {}", Shown(name))
            }
            ProgramFault::InUse { name } => write!(f, "{}: in use", Shown(name)),
        }
    }
}
