ghost use Rattle.std.specs.Prelude.{◌↔◌, IsTrue};
ghost use Rattle.scene_edits.specs.Scene.{AreIn};

use grid_cells::{Cell, Grid, Size};
use plan_table::{Mode, Plans};
use std::alloc::Global;

/// The parts of a scene while it is edited: clauses see for how many more rows there is memory.
#[derive(Debug, Drop)]
pub(crate) struct Board {
    pub(crate) alloc: Global,
    pub(crate) grid: Grid,
    pub(crate) plans: Plans,
    pub(crate) mode: Mode,
}

// Whether the map has each of the cells.
pub(crate) fn holds_all(size: Size, cells: &[Cell]) -> bool
    ensures { IsTrue result ↔ AreIn size cells.now }
{
    cells.iter().all(|cell| size.holds(*cell))
}
