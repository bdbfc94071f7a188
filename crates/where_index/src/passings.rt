use grid_cells::Agent;

/// An agent that is in a cell at a time, no later than the last index of its path. Passings compare
/// by time, then agent.
#[derive(Clone, Copy, Default, PartialEq, Eq, PartialOrd, Ord)]
pub struct Passing {
    pub time: u32,
    pub agent: Agent,
}
