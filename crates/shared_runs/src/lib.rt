//! What the program does over texts with a desk that is shared: a drill, and planners hosted over one
//! desk.
//!
//! `drilling` serves `scripts` at the desk that they share (`sharing`). In `hosts`, `hosting` shares
//! the desk and closes it. `threads` seats one planner, goes on with those after it while that one's
//! thread runs, serves the operator when all sit, and joins the threads on its way back. `sittings` is
//! a planner's session in its thread, or here where none starts.
#![tactic(auto)]

mod drilling;
mod hearing;
mod hosts;
mod reporting;
mod scripts;
mod serving;
mod sharing;

pub use drilling::{MOST_SCRIPTS, hear_drill, run_drill};
pub use hosts::{HostEnd, MOST_HOSTED, host_planners};
pub use solver_check::{
    BOUNDS, CheckFault, Fault, Hearing, HostFault, Listing, MOST_BYTES, MOST_HEARD, Outcome,
    Problem, RunFault, SeatFault, Seats, run_check,
};
