ghost use Rattle.std.specs.Prelude.{◌≡◌};
ghost use Rattle.mapf_rules.specs.ConflictList.{kind_of};
ghost use Rattle.mapf_rules.specs.Naming.{time_of};

use grid_cells::{Agent, Cell, List, Step};

/// Agents that move on to one another's cells in one step, the least agent first.
pub type Ring = List<Agent>;

/// The kinds of entries, in the order in which they are listed.
#[derive(Clone, Copy, PartialEq, Eq)]
pub enum Kind {
    Vertex,
    Parked,
    Edge,
    Following,
    Swapping,
    Cycle,
}

/// An entry of the conflict list: who is in conflict, when and where. A step entry stands at the
/// time at which its step begins. Entries compare by kind, then by their fields in turn, which is
/// the order in which they are listed.
#[derive(Clone, Drop, PartialEq, Eq, PartialOrd, Ord)]
pub enum Conflict {
    /// Two agents are in one cell, and one of them still moves or is to leave.
    Vertex {
        time: Step,
        first: Agent,
        second: Agent,
        cell: Cell,
    },
    /// Two agents rest in one cell for ever, from that time on.
    Parked {
        time: Step,
        first: Agent,
        second: Agent,
        cell: Cell,
    },
    /// Two agents make the same move.
    Edge {
        time: Step,
        first: Agent,
        second: Agent,
        cell: Cell,
        next: Cell,
    },
    /// The follower moves into the cell that the leader has at the step's start.
    Following {
        time: Step,
        follower: Agent,
        leader: Agent,
        cell: Cell,
    },
    /// Two agents change places: the first leaves the cell, the second the other cell.
    Swapping {
        time: Step,
        first: Agent,
        second: Agent,
        cell: Cell,
        other: Cell,
    },
    /// Three agents or more move on to one another's cells, and no other agent moves out of these.
    Cycle {
        time: Step,
        ring: Ring,
    },
}

impl Conflict {
    /// The time of the entry.
    pub fn time(&self) -> Step
        ensures { result ≡ time_of self.now }
    {
        match self {
            Conflict::Vertex { time, .. } => *time,
            Conflict::Parked { time, .. } => *time,
            Conflict::Edge { time, .. } => *time,
            Conflict::Following { time, .. } => *time,
            Conflict::Swapping { time, .. } => *time,
            Conflict::Cycle { time, .. } => *time,
        }
    }

    /// The kind of the entry.
    pub fn kind(&self) -> Kind
        ensures { result ≡ kind_of self.now }
    {
        match self {
            Conflict::Vertex { .. } => Kind::Vertex,
            Conflict::Parked { .. } => Kind::Parked,
            Conflict::Edge { .. } => Kind::Edge,
            Conflict::Following { .. } => Kind::Following,
            Conflict::Swapping { .. } => Kind::Swapping,
            Conflict::Cycle { .. } => Kind::Cycle,
        }
    }
}
