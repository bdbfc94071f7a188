//! The program's files and streams, the seats of planners at pipes, and what it tells of a fault and of
//! a drill.
//!
//! `seats` lets in the planners of `host`, whose pair of files are `doors`, and the operator, and
//! `waiting` says how long they are waited for; `sittings` is a session between two files, whose last
//! answers `sending` sends; `streams` joins an input and an output (`Lines` over `Asking`, which sends
//! before it reads on), `prompting` tells who types what to type.
//!
//! `standard` fills descriptors that are closed, and `patience` and `steady` wait for streams that
//! would block; `noting` keeps why a writer failed. `named` and `files` read what the words name,
//! `logs` reads a log as a journal, `looking` looks at what is to be written, and holds it. `details` is
//! what more is known of a fault, with `faulty_paths` of a path that isn't taken; `telling`, `stages` and
//! `tallies` are what is told of faults, stages and a drill.
#![tactic(auto)]

mod details;
mod doors;
mod expectations;
mod faulty_paths;
mod files;
mod finishing;
mod handing_on;
mod letting_go;
mod logs;
mod looking;
mod meeting;
mod named;
mod noting;
mod opening;
mod patience;
mod pipes;
mod prompting;
mod seats;
mod sending;
mod short_lines;
mod sittings;
mod stages;
mod standard;
mod steady;
mod streams;
mod tallies;
mod telling;
mod waiting;
mod whole_lines;

pub use details::{Detailed, Texts, bytes_in, problem_of};
pub use files::{Folder, System, all_bytes, named_bytes};
pub use finishing::finish;
pub use logs::{as_journal, tear_note};
pub use looking::{HeldFile, hold_named};
pub use named::{Named, read_from};
pub use noting::Noting;
pub use opening::PipesFault;
pub use patience::Patient;
pub use prompting::Prompting;
pub use seats::Pipes;
pub use sending::send_last;
pub use short_lines::{MOST_LINE, ShortLines};
pub use stages::tell_stage;
pub use standard::fill_standard;
pub use steady::Steady;
pub use streams::{Answers, Asking, Lines, Outlet};
pub use tallies::Tallies;
pub use telling::{FAULT, More, tell, tell_more, tell_served};
pub use whole_lines::WholeLines;
