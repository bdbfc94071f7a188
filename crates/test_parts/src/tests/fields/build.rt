//! Maps whose cells open and close, and fields that follow.
ghost use Rattle.std.specs.Prelude.{◌≡◌, ◌≢◌};
ghost use Rattle.grid_cells.specs.Cell.{Point};
ghost use Rattle.grid_cells.specs.Size.{Holds};
ghost use Rattle.goal_fields.specs.Target.{Covers, flag_at};
ghost use Rattle.goal_fields.specs.Held.{StandFor};

use crate::tests::build::at;
use goal_fields::{Field, Fields};
use grid_cells::{Cell, Grid};
use std::process::Abort;

/// Opens or closes the cell, where the map has it.
pub fn set_one(grid: &mut Grid, cell: Cell, free: bool)
    ensures size { grid.new.size ≡ grid.old.size }
    ensures others { (v : Point) → Holds grid.old.size v → v ≢ cell → flag_at grid.new v ≡ flag_at grid.old v }
{
    if grid.size().holds(cell) {
        grid.set(cell, free);
    }
}

// Opens or closes the cells.
fn set_all(grid: &mut Grid, cells: &[Cell], free: bool)
    ensures size { grid.new.size ≡ grid.old.size }
    ensures covers { Covers cells.now grid.old grid.new }
{
    for cell in cells {
        set_one(grid, *cell, free);
    }
}

/// Opens or closes the cells, and repairs the field.
pub fn change(field: &mut Field, grid: &mut Grid, cells: &[Cell], free: bool) -> u64
    requires { field.old.grid ≡ grid.old }
    ensures stands { field.new.grid ≡ grid.new }
    ensures size { grid.new.size ≡ grid.old.size }
{
    set_all(grid, cells, free);
    field.repair(grid, cells)
}

/// Opens or closes the cells, and repairs the fields.
pub fn change_each(fields: &mut Fields, grid: &mut Grid, cells: &[Cell], free: bool) -> u64
    requires { StandFor grid.old fields.old.fields }
{
    set_all(grid, cells, free);
    fields.repair(grid, cells)
}

/// No distance.
pub const NO: u32 = u32::MAX;

/// Whether the distances of the first cells of a row are those.
pub fn has_row(rt: &impl Abort, field: &Field, y: u32, wanted: &[u32]) -> bool {
    let mut x = 0u32;
    for want in wanted {
        if field.distance(at(rt, x, y)).unwrap_or(NO) != *want {
            return false;
        }
        x = x.saturating_add(1);
    }
    true
}
