use grid_cells::{Agent, Cell};
use plan_table::{Plan, Row};

/// What an edit changed in a scene.
#[derive(Debug, Drop)]
pub enum Change {
    Added {
        agent: Agent,
    },
    Dropped {
        agent: Agent,
        row: Row,
    },
    Aimed {
        agent: Agent,
        old_goal: Cell,
    },
    /// The agent has another plan. `since` is the least time, in steps, at which its positions
    /// before and after differ, none and a cell being different. There is none where they never
    /// do.
    Moved {
        agent: Agent,
        old_plan: Plan,
        since: Option<u32>,
    },
    /// The cell was closed and is open, or was open and is closed.
    Flipped {
        cell: Cell,
    },
    /// The cell had that state already.
    Same {
        cell: Cell,
    },
}

/// What an edit can name, or a planner can watch.
#[derive(Clone, Copy, Debug, PartialEq, Eq)]
pub enum Thing {
    Agent(Agent),
    Cell(Cell),
    Map,
}
