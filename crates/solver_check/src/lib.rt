//! What needs no desk of what the program's words do, over texts: a verdict on a solver's paths, the
//! scene of a map and a scenario, reports from scratch, the bounds and the faults of runs, what seats
//! planners, and who hears the answers of a drill.
//!
//! `seats` says what seats a planner, `hearing` what goes along with a drill, which `heard` tells the
//! first word of each answer; `scenes` makes the scene of a map and a scenario, `reporting` reports
//! from scratch; `faults` has what a run fails by.
//!
//! In `checks`, for the word `check`, `edits` are what a text of paths asks for, `scenes` the scene
//! that it makes, `times` the time at which a path is refused; `wrongs` are the paths that aren't any,
//! `differences` and `counts` where the text differs from the problem, `judging` is the verdict, `unread`
//! that on texts that aren't read to their end; `listings` leaves out what isn't to be printed; `texts`,
//! `findings` and `quiet` write it, or `json`, in one of the `styles`, and `turning` exchanges a cell's
//! coordinates; `costs` compares those that the text states; `faults` has what a verdict or a picture fails by.
#![tactic(auto)]

mod bounds;
mod checks;
mod faults;
mod heard;
mod hearing;
mod reporting;
mod scenes;
mod seats;
mod shown;

pub use bounds::{
    BOUNDS, MOST_BYTES, MOST_HOSTED_BYTES, MOST_HOSTED_LINES, MOST_LINES, SEAT_BOUNDS,
};
pub use checks::{
    CheckFault, Checked, CostApart, CostsApart, Listing, Style, Totals, costs_apart, planned_scene,
    run_check, run_check_in,
};
pub use faults::{Fault, RunFault};
pub use heard::Heard;
pub use hearing::{Hearing, MOST_HEARD};
pub use reporting::{Alone, Auditor, InThreads, is_same, report_of};
pub use scenes::{Problem, scene_of};
pub use seats::{HostFault, Outcome, SeatFault, Seats};
pub use shown::{Shown, letter_of};
