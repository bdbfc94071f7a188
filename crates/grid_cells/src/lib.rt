//! Map sizes, cells, agents, planners, time steps, grids, and the lists and the want of memory
//! that all crates share.
#![tactic(auto)]

mod cells;
mod grids;
mod laws;
mod lists;
mod memory;
mod numbers;
mod sizes;

pub use cells::Cell;
pub use grids::Grid;
pub use laws::{limits_of_maps, limits_of_numbers, one_distance, walks_are_lists};
pub use lists::List;
pub use memory::OutOfMemory;
pub use numbers::{Agent, MOST_AGENT, MOST_PLANNER, Planner, Step};
pub use sizes::{MOST_CELLS, MOST_SIDE, Size};
