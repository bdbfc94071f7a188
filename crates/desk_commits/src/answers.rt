use crate::commits::Commit;
use desk_report::Report;
use grid_cells::{Agent, Cell, OutOfMemory};
use scene_edits::{EditFault, Scene, Thing};

/// Why a commit is refused: the first that holds, in this order. Want of memory may come in place
/// of the fault of an edit.
#[derive(Clone, Copy, Debug, PartialEq, Eq)]
pub enum Refusal {
    /// The journal has as many entries as its limit allows.
    JournalFull { limit: u32 },
    /// The commit's base is above the desk's version, which is `now`.
    Ahead { now: u64 },
    /// The commit asks for no edit.
    NoEdits,
    /// An entry after the commit's base names a thing of the commit: `thing` is the first such
    /// thing in the commit's order, `at` the last entry that names it, `now` the desk's version.
    Stale { now: u64, thing: Thing, at: u64 },
    /// The first edit with a fault, its index counted from 0.
    Faulty { index: usize, why: EditFault },
    OutOfMemory,
}

/// Why a question isn't answered: the first that holds, in this order.
#[derive(Clone, Copy, Debug, PartialEq, Eq)]
pub enum AskFault {
    /// The agent isn't live.
    UnknownAgent,
    /// The cell isn't on the map.
    OutOfMap,
    OutOfMemory,
}

impl From<OutOfMemory> for AskFault {
    ghost use Rattle.std.specs.Prelude.{◌≡◌};
    ghost use Rattle.desk_commits.specs.declared.answers.AskFault.TheVariants.{OutOfMemory};

    ghost from_gives = { λ _ fault. fault ≡ OutOfMemory };

    fn from(_refused: OutOfMemory) -> AskFault {
        AskFault::OutOfMemory
    }
}

/// The report of the desk's scene, at that version.
#[derive(PartialEq)]
pub struct Reading {
    pub version: u64,
    pub report: Report,
}

impl Drop for Reading {
    fn drop(self) {
        let Reading {
            version: _,
            report: _report,
        } = self;
    }
}

/// A copy of the desk's scene, at that version.
#[derive(Debug, Drop)]
pub struct Snapshot {
    pub version: u64,
    pub scene: Scene,
}

/// What a desk is asked.
#[derive(Debug, Drop)]
pub enum Call {
    Commit(Commit),
    Read,
    Distance(Agent, Cell),
    Snapshot,
}

/// What a desk answers to a call.
#[derive(Drop)]
pub enum Answer {
    /// The commit was accepted, and made this version.
    Done(u64),
    /// The commit was refused, and comes back.
    Refused(Refusal, Commit),
    Shown(Reading),
    /// The distance in steps, if there is one.
    Far(Option<u32>),
    AskRefused(AskFault),
    Copied(Snapshot),
    /// There was no memory for a reading or a snapshot.
    NoMemory,
}
