ghost use Rattle.std.specs.Prelude.{◌≡◌};
ghost use Rattle.solver_check.specs.Faults.{as_told};
ghost use Rattle.solver_check.specs.declared.faults.RunFault.TheVariants.{Journal, Serve};

use crate::shown::Shown;
use bench_reader::{MapFault, ScenFault};
use desk_commits::ReplayFault;
use journal_text::JournalFault;
use scene_edits::TaskFault;
use session_protocol::ServeFault;
use thiserror::Error;

/// Why a run did not come to its end.
#[derive(Clone, Copy, Debug, PartialEq, Eq, Error)]
pub enum RunFault {
    /// The map's text is no map.
    #[error("map: {0}")]
    Map(MapFault),
    /// The scenario's text is no scenario for the map.
    #[error("scen: {0}")]
    Scen(ScenFault),
    /// The first tasks of the scenario make no scene on the map.
    #[error("scen: {0}")]
    Tasks(TaskFault),
    /// The journal's text is no journal.
    #[error("journal: {0}")]
    Journal(JournalFault),
    /// The journal isn't of the scene's mode, or the desk refuses one of its entries.
    #[error("journal: {0}")]
    Replay(ReplayFault),
    /// The session ended before its input did.
    #[error("{0}")]
    Serve(ServeFault),
    /// A report could not be written.
    #[error("write failed")]
    WriteFailed,
    /// A shared desk did not come back at its end.
    #[error("pass lost")]
    PassLost,
    /// A drill has more scripts than it may.
    #[error("too many scripts")]
    TooManyScripts,
    #[error("out of memory")]
    OutOfMemory,
}

impl RunFault {
    /// The fault of a part of a run as the run tells it: want of memory is one fault, wherever it is.
    pub fn as_told(self) -> RunFault
        ensures { result ≡ as_told self }
    {
        match self {
            RunFault::Map(MapFault::OutOfMemory)
            | RunFault::Scen(ScenFault::OutOfMemory)
            | RunFault::Tasks(TaskFault::OutOfMemory)
            | RunFault::Journal(JournalFault::OutOfMemory)
            | RunFault::Replay(ReplayFault::OutOfMemory)
            | RunFault::Serve(ServeFault::OutOfMemory) => RunFault::OutOfMemory,
            fault => fault,
        }
    }
}

impl From<JournalFault> for RunFault {
    ghost from_gives = { λ why fault. fault ≡ as_told (Journal why) };

    fn from(fault: JournalFault) -> RunFault {
        RunFault::Journal(fault).as_told()
    }
}

impl From<ServeFault> for RunFault {
    ghost from_gives = { λ why fault. fault ≡ as_told (Serve why) };

    fn from(fault: ServeFault) -> RunFault {
        RunFault::Serve(fault).as_told()
    }
}

/// Why the program did not do what its words ask for.
#[derive(Debug, Drop, Error)]
pub enum Fault {
    /// Agents are asked for, and there is no scenario that has their tasks.
    #[error("--agents needs --scen")]
    AgentsWithoutScen,
    /// A file can't be opened or read, or has too many bytes.
    #[error("can't read {}", Shown(*.file))]
    CannotRead { file: &'static str },
    /// A file that begins as a log is none: that is its first line that doesn't fit, counted from 1.
    #[error("log: bad line {line}")]
    BadLog { line: usize },
    /// The desk's journal can't be saved in a file, which is then as it was.
    #[error("can't write {}", Shown(*.file))]
    CannotWrite { file: &'static str },
    /// Another session is to save its journal in that file.
    #[error("can't write {}: in use", Shown(*.file))]
    InUse { file: &'static str },
    /// The file can't be replaced by the desk's journal, which is whole in another one.
    #[error("can't write {}: the journal is in {}", Shown(*.file), Shown(.kept.as_str()))]
    Kept { file: &'static str, kept: String },
    #[error("{0}")]
    Run(RunFault),
}
