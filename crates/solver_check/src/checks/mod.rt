//! A verdict on the paths that a solver wrote, over texts.
mod costs;
mod counts;
mod differences;
mod edits;
mod faults;
mod findings;
mod json;
mod judging;
mod listings;
mod quiet;
mod scenes;
mod setting_out;
mod styles;
mod texts;
mod times;
mod turning;
mod unread;
mod verdicts;
mod wrongs;

pub use costs::{Checked, CostApart, CostsApart, Totals, costs_apart};
pub use faults::CheckFault;
pub use listings::Listing;
pub use scenes::planned_scene;
pub use styles::Style;
pub use verdicts::{run_check, run_check_in};
