//! The rules of the field: the conflict entries of a fleet's plans, their costs, and their visits to
//! closed cells, with plain programs that find them.
//!
//! `pairs` has the rules of two agents over a table of plans, `plain` the program over all pairs and
//! rings. `rings` walks from cell to cell by whoever tells who moves out of one (`Movers` in `movers`:
//! a table, an index, a sight). There is one order of entries: `Conflict` derives it from the order of
//! its variants and their fields, and the law `entries_compare_as_listed` says that it is that of
//! `listing_key`. `sorting` puts entries that were found in any order into it, for the plain program
//! and for `desk_audit`. `totals` and `search` are the plain programs of costs and blocked visits.
#![tactic(auto)]

mod entries;
mod kinds;
mod laws;
mod movers;
mod offers;
mod pairs;
mod plain;
mod rings;
mod search;
mod sorting;
mod totals;
mod visits;

pub use entries::{Conflict, Kind, Ring};
pub use kinds::Kinds;
pub use laws::{
    entries_compare_as_listed, kinds_are_told_apart, meetings_are_told, named_agents_are_there,
    one_conflict_list, one_sum_and_makespan, one_visit_list, settles_at_last,
    swap_is_two_followings,
};
pub use movers::{Movers, destination, moves_out};
pub use offers::offer;
pub use pairs::{last, position};
pub use plain::{conflicts, entries_of_pair, entries_of_two};
pub use rings::{ring_from, ring_out_of, ring_through};
pub use search::{add_visits, blocked_visits, is_closed, is_unblocked};
pub use sorting::sorted;
pub use totals::{costs, greatest_of, is_finished, makespan, settle_time, sum_of, sum_of_costs};
pub use visits::Visit;
