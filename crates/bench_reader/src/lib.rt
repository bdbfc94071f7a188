//! Reads and writes grid maps and scenarios in the text forms of the MovingAI benchmarks.
#![tactic(auto)]

mod fields;
mod header;
mod laws;
mod lines;
mod maps;
mod rows;
mod scens;
mod tasks;
mod words;
mod writer;

pub use header::rows_announced;
pub use laws::{one_map_answer, one_scen_answer};
pub use lines::{is_blank, is_blank_line, next_line, row_of};
pub use maps::{MapFault, read_map};
pub use scens::{ScenFault, read_scen};
pub use tasks::Task;
pub use words::{next_word, number_of};
pub use writer::write_map;
