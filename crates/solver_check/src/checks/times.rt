ghost use Rattle.std.specs.Prelude.{◌≡◌, ◌<◌, ◌^◌, length, position};
ghost use Rattle.solver_check.specs.CheckTimes.{first_off, is_off, time_of_fault};

use grid_cells::{Cell, Size};
use plan_table::MOST_LAST_INDEX;
use scene_edits::EditFault;

/// Whether the cell is off the map.
pub(crate) fn is_off(size: Size, cell: Cell) -> bool
    ensures { result ≡ is_off size cell }
{
    cell.x() >= size.width() || cell.y() >= size.height()
}

// The index of the first cell that is off the map.
fn first_off(size: Size, cells: &[Cell]) -> Option<usize>
    ensures { result ≡ first_off size cells.now }
{
    cells.iter().position(|cell| is_off(size, *cell))
}

/// The time, in steps, at which a path of those cells has that fault.
pub(crate) fn time_of(size: Size, cells: &[Cell], why: EditFault) -> usize
    ensures { result ≡ time_of_fault size cells.now why }
{
    match why {
        EditFault::OutOfMap => first_off(size, cells).unwrap_or(0),
        EditFault::NotAStep { at } => at as usize,
        EditFault::TooLong => MOST_LAST_INDEX as usize + 1,
        _ => 0,
    }
}
