use grid_cells::{Agent, Cell, Step};

/// A blocked visit: the agent's path has a closed cell at that time, up to its last index.
/// Visits compare by agent, then time, then cell.
#[derive(Clone, Copy, PartialEq, Eq, PartialOrd, Ord)]
pub struct Visit {
    pub agent: Agent,
    pub time: Step,
    pub cell: Cell,
}
