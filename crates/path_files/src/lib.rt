//! The files of paths that solvers of multi-agent path finding write.
//!
//! A file of paths (`paths`) is read in the form that is named or that its lines tell (`forms`):
//! `times`, with `heads` before it and a row for each time (`rows`); `told`, where a line tells a path:
//! by `agents`, or by `sessions`, where it is read as a session's; or `moves`, which may be the rows of
//! one of the `columns` of a CSV file, and are `relative` to the agents' starts; or `schedules`, read in
//! `schedule_steps` of `schedule_lines`. `lines` and `cells` serve all of these. `robots` reads the `members`
//! of an object of JSON, or says where it is `broken`, which has `dues`. `orders` says which coordinate of a
//! cell stands first, `costs` what a text states of its paths before them.
#![tactic(auto)]

mod agents;
mod broken;
mod cells;
mod columns;
mod costs;
mod dues;
mod faults;
mod forms;
mod heads;
mod lines;
mod members;
mod moves;
mod orders;
mod paths;
mod relative;
mod robots;
mod rows;
mod scalars;
mod schedule_lines;
mod schedule_steps;
mod schedules;
mod sessions;
mod times;
mod told;

pub use costs::{Costs, costs_of};
pub use faults::{Member, PathsFault};
pub use forms::Form;
pub use orders::has_rows_first;
pub use paths::{SolverPaths, read_paths};
pub use relative::{is_relative, set_out};
