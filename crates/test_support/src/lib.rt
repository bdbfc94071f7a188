//! What tests of several crates share: values written as text, a source that counts its calls,
//! gates, reports' texts, numbers that look like chance, and a process without memory.
#![tactic(auto)]

mod chance;
mod droughts;
mod gates;
mod places;
mod reports;
mod streams;
mod tracks;
mod values;

pub use chance::Chain;
pub use droughts::{Drought, take_all};
pub use gates::{Meeting, Turnstile};
pub use places::{are_at, cells_at};
pub use reports::{KINDS, conflicts_alone, text_of};
pub use streams::Repeated;
pub use tracks::{since, stays};
pub use values::{cells, edit, edits, open_grid, plan, row, scene, thing};
