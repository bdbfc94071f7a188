ghost use Rattle.std.specs.Prelude.{◌≡◌, ◌<◌, ℕ, length, slice_index};
ghost use Rattle.grid_cells.specs.Cell.{steps_between};
ghost use Rattle.grid_cells.specs.Size.{Holds, neighbours_of};
ghost use Rattle.grid_cells.specs.Grid.{flag_index};
ghost use Rattle.cell_queue.specs.Queue.{area};

use grid_cells::{Cell, Grid};

// The number that is none: of a cell that no walk has come to.
pub(crate) const FAR: u32 = u32::MAX;

// Where the cell stands in a list of all cells of the grid, row by row.
pub(crate) fn place_of(grid: &Grid, cell: Cell) -> usize
    requires { Holds grid.now.size cell }
    ensures is { result ≡ flag_index grid.now.size cell }
    ensures bound { result < area grid.now.size }
{
    grid.size().index(cell)
}

// The cells above, left, right and below, each if the grid has it.
pub(crate) fn around(grid: &Grid, cell: Cell) -> [Option<Cell>; 4]
    ensures { result ≡ neighbours_of grid.now.size cell }
{
    grid.size().neighbours(cell)
}

/// How many steps lie between the two cells where nothing is closed (their Manhattan distance).
pub fn steps_between(a: Cell, b: Cell) -> u32
    ensures { result ≡ steps_between a b }
{
    a.x().abs_diff(b.x()) + a.y().abs_diff(b.y())
}

// Sets each number to 0.
pub(crate) fn wipe(numbers: &mut [u32])
    ensures { (k : ℕ) → k < length numbers.new → slice_index numbers.new k ≡ 0 }
{
    for k in 0..numbers.len() {
        numbers[k] = 0;
    }
}
