use desk_commits::{AskFault, Reading, Refusal, SinceFault};
use desk_report::Changes;
use grid_cells::{Agent, List};
use plan_table::Row;

/// What is wrong with a line.
#[derive(Clone, Copy, PartialEq, Eq)]
pub(crate) enum BadLine {
    /// Its first word is not known.
    Word,
    /// It has too few or too many words, or a word that does not fit.
    Shape,
    /// Nothing is being gathered.
    NotBegun,
    /// As much is gathered as a commit may hold.
    Full,
}

/// What a line is answered.
#[derive(Drop)]
pub(crate) enum Reply {
    Silent,
    Bad { line: u32, why: BadLine },
    /// The line found no memory, and had no effect.
    NoMemory,
    Version(u64),
    Base(u64),
    Kept,
    Cancelled,
    Refused(Refusal),
    /// The version that a commit would make, and what it would change.
    Would(u64, Changes),
    /// The version, an earlier one, and what changed since that.
    Changed(u64, u64, Changes),
    /// Why it isn't told what changed.
    NotTold(SinceFault),
    Shown(Reading),
    /// A distance in steps, if there is one.
    Far(Option<u32>),
    NotAsked(AskFault),
    Solves(bool),
    /// An agent's goal and path.
    Planned(Agent, Row),
    /// Whether a cell is open.
    Open(bool),
    /// The agents in a cell at a time.
    Standing(List<Agent>),
}
