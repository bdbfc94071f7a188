//! Distances of all cells of a map to a goal, mended by Lifelong Planning A* as cells open and close.
//!
//! `search` makes a field, `lifelong` takes cells out of the queue, and `updates` works out what a
//! taking moves. `field` is a field on its own; `fields` has the `distances` to each goal that is held
//! and one room for all (`lending`), and `held` is what it lends. `maps` brings the room's map up to
//! date (`adopt`). `plain` is a field that is never repaired. `a_star` answers distances between two
//! cells, by the levels of its `frontier`.
#![tactic(auto)]

mod a_star;
mod distances;
mod field;
mod fields;
mod frontier;
mod held;
mod laws;
mod lending;
mod lifelong;
mod maps;
mod places;
mod plain;
mod search;
mod updates;

pub use a_star::AStar;
pub use field::Field;
pub use fields::Fields;
pub use held::Held;
pub use laws::one_change_count;
pub use places::steps_between;
pub use plain::PlainField;
