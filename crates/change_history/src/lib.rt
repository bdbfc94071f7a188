//! What came to a set and went from it, and what is kept of that, by version.
//!
//! `Moves` follow a set that changes element by element: what came and what went since they began, where
//! what came and went again is neither. A `Log` keeps the moves of each version, of which the oldest can
//! be forgotten, and tells what came and went since any version that is kept. Elements are `Item`s, told
//! apart by their order.
#![tactic(auto)]

mod items;
mod laws;
mod lists;
mod logs;
mod moves;
mod records;
mod sets;

pub use items::Item;
pub use laws::moves_lead_on;
pub use logs::Log;
pub use moves::Moves;
pub use records::Record;
