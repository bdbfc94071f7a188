//! Values for the tests, written short.
ghost use Rattle.std.specs.Prelude.{◌≡◌};
ghost use Rattle.grid_cells.specs.Cell.{point};

use grid_cells::{Agent, Cell, Grid, Size};
use plan_table::Plan;
use std::alloc::Global;
use std::process::Abort;

pub fn at(rt: &impl Abort, x: u32, y: u32) -> Cell
    ensures { result ≡ point x y }
{
    Cell::new(x, y).expect(rt, "a cell")
}

pub fn agent(rt: &impl Abort, number: u32) -> Agent {
    Agent::new(number).expect(rt, "an agent")
}

pub fn size_of(rt: &impl Abort, width: u32, height: u32) -> Size
    ensures width { result.width ≡ width }
    ensures height { result.height ≡ height }
{
    Size::new(width, height).expect(rt, "a size")
}

/// The open map of that size.
pub fn open_map(rt: &impl Abort, alloc: Global, size: Size) -> Grid
    ensures { result.size ≡ size }
{
    Grid::all_open(alloc, size).expect(rt, "memory")
}

/// The plan of a path's line. There is none of an empty line.
pub fn plan(rt: &impl Abort, alloc: Global, line: &str) -> Option<Plan> {
    if line.is_empty() {
        return None;
    }
    Some(test_support::plan(alloc, line).expect(rt, "a plan"))
}
