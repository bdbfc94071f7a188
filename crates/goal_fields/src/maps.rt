ghost use Rattle.std.specs.Prelude.{◌≡◌, ◌<◌, List, [], ◌∷◌, ◌++◌};
ghost use Rattle.grid_cells.specs.Cell.{Point};
ghost use Rattle.grid_cells.specs.Grid.{Chart};
ghost use Rattle.goal_fields.specs.Marks.{IsWhole};
ghost use Rattle.goal_fields.specs.Target.{Covers};
ghost use Rattle.goal_fields.specs.Adopting.{IsAdopting};

use grid_cells::{Cell, Grid, Size};

// Gives the cell the state that it has in the other map of that size, where the map has the cell.
fn copy_cell(map: &mut Grid, grid: &Grid, size: Size, cell: Cell)
    requires size { size ≡ grid.now.size }
    requires same_size { grid.now.size ≡ map.old.size }
    requires whole { IsWhole grid.now }
    ensures adopting { (start : Chart) (done : List Point) → IsAdopting start map.old grid.now done →
        IsAdopting start map.new grid.now (done ++ cell ∷ []) }
    ensures size { map.new.size ≡ map.old.size }
{
    if size.holds(cell) {
        map.set(cell, grid.is_open(cell));
    }
}

// Makes the map the other one of the same size, from which it differs at most at the changed cells.
pub(crate) fn adopt(map: &mut Grid, grid: &Grid, changed: &[Cell])
    requires wide { 0 < map.old.size.width }
    requires whole { IsWhole map.old }
    requires same_size { grid.now.size ≡ map.old.size }
    requires covered { Covers changed.now map.old grid.now }
    ensures is { map.new ≡ grid.now }
    ensures whole { IsWhole map.new }
{
    let size = grid.size();
    for cell in changed {
        copy_cell(map, grid, size, *cell);
    }
}
