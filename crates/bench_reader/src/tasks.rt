use grid_cells::Cell;

/// A task of a scenario: an agent is to go from `start` to `goal`. A bucket holds tasks of about
/// the same length.
#[derive(Clone, Copy, PartialEq, Eq)]
pub struct Task {
    pub bucket: u32,
    pub start: Cell,
    pub goal: Cell,
}
