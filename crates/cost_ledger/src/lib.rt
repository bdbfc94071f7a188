//! A ledger of the costs of a fleet's plans, and of its visits to closed cells.
//!
//! `rows` has each agent's goal and plan, `blocked` the visits to closed cells in their order, `rests`
//! the settle times in theirs. Who comes through a cell is not kept: `flip_at` is told it, and `flip`
//! looks for it along every plan. `ledger` changes them together, where a cell opens or closes in
//! `ledger/flips`, and where a plan comes or changes in `ledger/plans`: along a whole path by `along`,
//! and by `replans` from where two paths part. Of a ledger that finds no memory half-way the parts are
//! dropped, since together they are no ledger.
#![tactic(auto)]

mod agents;
mod along;
mod laws;
mod ledger;
mod replans;
mod rests;
mod rows;

pub use laws::{empty_stands_for_all, setting_changes_one};
pub use ledger::CostLedger;
pub use mapf_rules::{
    Visit, add_visits, blocked_visits, costs, greatest_of, is_closed, is_finished, is_unblocked,
    makespan, one_sum_and_makespan, one_visit_list, settle_time, settles_at_last, sum_of,
    sum_of_costs,
};
