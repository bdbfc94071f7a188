ghost use Rattle.std.specs.Prelude.{◌≡◌};
ghost use Rattle.where_index.specs.Flows.{leads};

use grid_cells::Cell;

/// A way to move on a map.
#[derive(Clone, Copy, PartialEq, Eq)]
pub enum Way {
    Up,
    Left,
    Right,
    Down,
}

impl Way {
    /// Whether it leads from the one cell to the other.
    pub fn leads(self, from: Cell, to: Cell) -> bool
        ensures { result ≡ leads self from to }
    {
        match self {
            Way::Up => to.y() < from.y(),
            Way::Left => to.x() < from.x(),
            Way::Right => from.x() < to.x(),
            Way::Down => from.y() < to.y(),
        }
    }
}
