//! A desk that several planners use, in threads of their own, each with a pass.
//!
//! The table that passes share (`board`) has two words, the length of the journal and the turn, and a
//! slot, the desk's place. `steps` has what a pass does with the turn: it takes the turn and the desk,
//! and puts the desk back, one entry longer (`grow`) or not (`free`). `plays` says what each of these
//! tells the rule of the table (`specs/Turns.antt`). `sharing` has the calls, in `sharing/asking` the
//! questions, in `sharing/splitting` how passes are split and joined; `opening` has one for those who
//! have no use for a desk that isn't shared.
#![tactic(auto)]

mod board;
mod faults;
mod laws;
mod numbers;
mod opening;
mod passes;
mod plays;
mod sharing;
mod steps;
mod windows;

pub use faults::{MOST_PLANNERS, PassLost, ShareFault, SplitFault};
pub use laws::{alone_finds_what_it_saw, one_planner_finds_what_it_saw};
pub use passes::Pass;
pub use sharing::SharedDesk;
pub use windows::Window;
