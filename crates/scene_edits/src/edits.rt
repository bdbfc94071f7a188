use grid_cells::{Agent, Cell, List, OutOfMemory, Step};

/// What a planner asks to be changed in a scene.
#[derive(Debug, PartialEq, Drop)]
pub enum Edit {
    /// A new agent, whose plan is its start alone.
    Add {
        agent: Agent,
        start: Cell,
        goal: Cell,
    },
    /// The agent and its plan go.
    Drop {
        agent: Agent,
    },
    /// The agent has another goal, and its plan stays.
    Goal {
        agent: Agent,
        goal: Cell,
    },
    /// The agent's plan is the path of the cells.
    Path {
        agent: Agent,
        cells: List<Cell>,
    },
    /// The agent's positions up to the time `from` stay, and the cells follow: its plan is the
    /// path of both. With no cells it rests from that time on.
    Tail {
        agent: Agent,
        from: Step,
        cells: List<Cell>,
    },
    /// The cell is open.
    Open {
        cell: Cell,
    },
    /// The cell is closed.
    Close {
        cell: Cell,
    },
}

/// Why an edit is refused.
#[derive(Clone, Copy, Debug, PartialEq, Eq)]
pub enum EditFault {
    /// The agent isn't live.
    UnknownAgent,
    /// The agent is live already.
    AgentTaken,
    /// MOST_AGENTS agents are live already.
    TooManyAgents,
    /// A cell of the edit isn't on the map.
    OutOfMap,
    /// A path of no cells.
    EmptyPath,
    /// The path doesn't begin where the agent's plan begins.
    NotFromStart,
    /// The time is after the last index of the agent's plan.
    NoSuchTime,
    /// The cell at that index of the new path is no step from the one before. It is the least such
    /// index.
    NotAStep { at: u32 },
    /// The last index of the new path is above MOST_LAST_INDEX, trailing waits counted.
    TooLong,
}

/// Why an edit isn't applied.
#[derive(Clone, Copy, Debug, PartialEq, Eq)]
pub enum ApplyFault {
    Fault(EditFault),
    OutOfMemory,
}

impl From<OutOfMemory> for ApplyFault {
    ghost use Rattle.std.specs.Prelude.{◌≡◌};
    ghost use Rattle.scene_edits.specs.declared.edits.ApplyFault.TheVariants.{OutOfMemory};

    ghost from_gives = { λ _ fault. fault ≡ OutOfMemory };

    fn from(_refused: OutOfMemory) -> ApplyFault {
        ApplyFault::OutOfMemory
    }
}

/// Why a list of edits isn't applied: the first edit with a fault, its index counted from 0.
#[derive(Clone, Copy, Debug, PartialEq, Eq)]
pub enum EditsFault {
    Faulty { index: usize, why: EditFault },
    OutOfMemory,
}
