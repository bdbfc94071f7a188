//! The blocked visits of a piece.
ghost use Rattle.std.specs.Prelude.{◌≤◌, IfOk, length};
ghost use Rattle.plan_table.specs.Order.{ListsAll};
ghost use Rattle.mapf_rules.specs.Visits.{visit_key};
ghost use Rattle.desk_audit.specs.Parts.{IsVisitOf};

use grid_cells::{Grid, OutOfMemory};
use mapf_rules::{Visit, add_visits};
use plan_table::Plans;
use std::alloc::Global;

/// The blocked visits of the agents at ranks from one on and before another, by agent, then time.
pub(crate) fn visits_of(
    alloc: Global,
    grid: &Grid,
    plans: &Plans,
    from: u32,
    to: u32,
) -> Result<Vec<Visit>, OutOfMemory>
    requires order { from ≤ to }
    requires within { to ≤ length plans.now.rows }
    ensures { IfOk result (λ visits. ListsAll visit_key (IsVisitOf grid.now plans.now.rows from to) visits.items) }
{
    let _agents = plans.count();
    let mut visits = Vec::new(alloc);
    for rank in from..to {
        let entry = plans.entry_at(rank);
        add_visits(&mut visits, grid, entry.0, &entry.1.plan)?;
    }
    Ok(visits)
}
