//! Which agents of a fleet stand and move where, kept while agents and their paths change.
//!
//! The records of a track are Stand, Tail and Move (`specs/Records.antt`). `traffic` keeps them all,
//! Stand and Move as one: a spot (`spot_sets`) of a cell is a time, with the agent that is there then
//! and the cell where it is one step later, the same one where it waits. `spots` has an ordered set of
//! spots for each cell where there are any, in a hash map whose keys alone name the cells
//! (`specs/ByCell.antt`). Where more than one agent moves out of a cell in a step, their moves are kept
//! once more as a list (`crowds`, with `moves`), so that `movers` can show them in one piece; a move
//! without company is shown where its spot stands. How many go each way in each step is in `flows`,
//! with `tallies` and `ways`. Tails are spots too, in a set of their own, and `ends` has where and when
//! each path ends.
//!
//! `put`, `take` and `swap` (`index`) are one exchange of records (`change_records`), those of one
//! trail (`trails`) for those of another; where an agent comes or goes, one of the two has no cell.
//! `leg_changes` exchanges the stands and moves at each time that is asked for, `tail_changes` the
//! tails at the two ends alone; both count the records by the three kinds. `questions` has what an
//! index is asked. Who is in a cell it shows in place (`occupants`); `gathering` makes one list of what
//! the two sets find.
#![tactic(auto)]

mod crowds;
mod ends;
mod flows;
mod gathering;
mod index;
mod laws;
mod leg_changes;
mod moves;
mod occupants;
mod passings;
mod questions;
mod records;
mod spot_sets;
mod spots;
mod tail_changes;
mod tallies;
mod traffic;
mod trails;
mod ways;

pub use index::WhereIndex;
pub use laws::{one_fleet, records_are_counted};
pub use moves::Move;
pub use occupants::Occupants;
pub use passings::Passing;
pub use spot_sets::Spot;
pub use ways::Way;
