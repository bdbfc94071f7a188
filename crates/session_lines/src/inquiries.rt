use grid_cells::{Agent, Cell, List, Step};

/// A question of version 2 of lines.
#[derive(Drop)]
pub enum Inquiry {
    /// The version, and the report cut to these agents.
    Report(List<Agent>),
    /// What changed in the report since that version.
    Changes(u64),
    /// The agent's goal and its path.
    Plan(Agent),
    /// Whether the cell is open.
    Cell(Cell),
    /// The agents at the cell at the time.
    At(Step, Cell),
    /// The version as soon as it is above this one, or when so many seconds have gone.
    Wait(u64, u32),
}
