//! A ledger of the conflict entries of a fleet, kept while agents come, go and change tracks.
//!
//! `sight` shows a fleet as the index and one agent's track, shown or hidden, so that the entries
//! before and after a change are found alike. `gather` goes along the agent's path from stop to stop
//! and adds the entries that name it: one look at the index shows in place who is in the stop's cell
//! one step before the agent, with it and one step after (`occupants`). The place where another one is
//! met (`places`: ahead of the agent, beside it, behind it) says which entries the two can have, and
//! what is known of both already; `offers` adds these entries. The spot also tells whether the other
//! one stays, or where it goes next (`told`), so it is looked up again only where it may wait or leave,
//! or has to be known one step before. `resting` adds those after the path's end, by who comes through
//! its last cell. `spans` says at which times a change of a track can change entries: of two tracks
//! that end alike only where they are apart, so a stop is asked for the step that leads to it, the step
//! that leads on, or both. `turns` looks for the rings at the cells that the agent leaves, at times at
//! which one of its entries lets one stand; `closing` asks first whether agents move all four ways in
//! that step, since a ring does. `changes` puts in and takes out what comes and goes with a track, and
//! `ledger` has the entries, in one ordered set, and the calls.
#![tactic(auto)]

mod changes;
mod closing;
mod gather;
mod least;
mod ledger;
mod movers;
mod of_agents;
mod offers;
mod places;
mod resting;
mod sight;
mod spans;
mod told;
mod turns;

pub use ledger::ConflictLedger;
pub use mapf_rules::{
    Conflict, Kind, Movers, Ring, conflicts, destination, entries_compare_as_listed,
    entries_of_pair, entries_of_two, last, meetings_are_told, moves_out, named_agents_are_there,
    one_conflict_list, position, ring_from, ring_out_of, ring_through, sorted,
    swap_is_two_followings,
};
pub use of_agents::naming;
