//! Plans of a fleet of agents: paths, rows of goals and plans, and tracks.
#![tactic(auto)]

mod laws;
mod paths;
mod plans;
mod room;
mod tracks;

pub use laws::{limit_of_paths, one_table};
pub use paths::{MOST_LAST_INDEX, Plan, PlanFault};
pub use plans::{Plans, Row};
pub use tracks::{Mode, Track};
