ghost use Rattle.std.specs.Prelude.{◌≡◌};
ghost use Rattle.grid_cells.specs.Laws.{OneDistance, WalksAreLists};

use crate::numbers::{MOST_AGENT, MOST_PLANNER};
use crate::sizes::{MOST_CELLS, MOST_SIDE};

/// A cell has one distance to a goal on a map.
pub fn one_distance()
    ensures { OneDistance }
{}

/// There is a walk of a number of steps exactly where there is a list of cells that is a walk and
/// has one cell more than that.
pub fn walks_are_lists()
    ensures { WalksAreLists }
{}

/// The limits of maps, in cells: at most 2,048 columns and as many rows, and at most 1,048,576 cells.
pub fn limits_of_maps()
    ensures side { MOST_SIDE ≡ 2048 }
    ensures cells { MOST_CELLS ≡ 1048576 }
{}

/// The limits of numbers: of agents 65,535, of planners 255.
pub fn limits_of_numbers()
    ensures agent { MOST_AGENT ≡ 65535 }
    ensures planner { MOST_PLANNER ≡ 255 }
{}
