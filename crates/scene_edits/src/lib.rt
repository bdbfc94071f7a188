//! Scenes of a grid, a fleet's plans and a mode, the edits of them, and what these changed: the rows
//! that agents had before, and the cells that were opened or closed.
//!
//! `edits` and `changes` are data. `agent_edits`, `path_edits` and `cell_edits` make one edit on the
//! parts of a scene (`boards`), `in_order` makes a list of them, and `undoing` takes back those before
//! one that is refused. Edits that are made for a while are `reversible`: `reverting` takes them back and
//! tells what that changes, in a table with room for all rows (`spare`). `differences` finds where two
//! tracks part (`first_difference`), `tasks` makes a scene of a scenario's tasks. Of the changes that a
//! list of edits told, `flipped_cells` finds the cells whose state they changed, and `named_agents` each
//! agent that they name, the row that it had, and the time below which that row's path is known to be
//! as it is now (`taking_back`).
#![tactic(auto)]

mod agent_edits;
mod boards;
mod cell_edits;
mod changes;
mod differences;
mod edits;
mod flipped_cells;
mod in_order;
mod laws;
mod named_agents;
mod path_edits;
mod reversible;
mod reverting;
mod rows;
mod scenes;
mod spare;
mod taking_back;
mod tasks;
mod undoing;

pub use changes::{Change, Thing};
pub use differences::first_difference;
pub use edits::{ApplyFault, Edit, EditFault, EditsFault};
pub use flipped_cells::flipped;
pub use laws::{
    all_edits_keep_scenes, changes_go_back, edits_keep_scenes, edits_keep_size, limit_of_fleets,
    one_answer, one_answer_to_all, one_change, one_fault_or_none, one_path,
};
pub use named_agents::{Former, FormerRow, formers};
pub use reversible::Reversible;
pub use scenes::{MOST_AGENTS, Scene};
pub use tasks::TaskFault;
