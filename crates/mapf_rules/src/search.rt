ghost use Rattle.std.specs.Prelude.{◌+◌, ◌<◌, ◌≤◌, ◌↔◌, ◌∷◌, [], IsTrue, IfOk, OnOk, Contains};
ghost use Rattle.grid_cells.specs.Grid.{IsClosed};
ghost use Rattle.plan_table.specs.Path.{last_index};
ghost use Rattle.plan_table.specs.Order.{ComesBefore};
ghost use Rattle.mapf_rules.specs.Visits.{IsUnblocked, AreVisits, visit_key};
ghost use Rattle.mapf_rules.specs.VisitSearch.{IsListed, AddsVisits};
ghost use Rattle.mapf_rules.specs.declared.visits.Visit.{Visit};

use crate::visits::Visit;
use grid_cells::{Agent, Cell, Grid, List, OutOfMemory, Step};
use plan_table::{MOST_LAST_INDEX, Plan, Plans};
use std::alloc::Global;

/// Whether the map has the cell, and it is closed.
pub fn is_closed(grid: &Grid, cell: Cell) -> bool
    ensures { IsTrue result ↔ IsClosed grid.now cell }
{
    grid.size().holds(cell) && !grid.is_open(cell)
}

/// Whether no cell of the plan is closed.
pub fn is_unblocked(grid: &Grid, plan: &Plan) -> bool
    ensures { IsTrue result ↔ IsUnblocked grid.now plan.now }
{
    for time in 0..plan.last() + 1 {
        if is_closed(grid, plan.at(Step::new(time))) {
            return false;
        }
    }
    true
}

// Adds the agent's visit at that time, if its cell is closed.
fn add_visit(
    visits: &mut Vec<Visit>,
    grid: &Grid,
    agent: Agent,
    plan: &Plan,
    time: u32,
) -> Result<(), OutOfMemory>
    requires on_path { time ≤ last_index plan.now }
    requires listed { IsListed visits.old.items }
    requires below { (visit : Visit) → Contains visits.old.items visit → ComesBefore (visit_key visit) (agent ∷ time ∷ []) }
    ensures { OnOk result (AddsVisits grid.now visits.old.items visits.new.items agent plan.now time (time + 1)) }
{
    let cell = plan.at(Step::new(time));
    if is_closed(grid, cell) {
        visits.push(Visit {
            agent,
            time: Step::new(time),
            cell,
        })?;
    }
    Ok(())
}

/// Adds the agent's visits to those of agents before it.
pub fn add_visits(
    visits: &mut Vec<Visit>,
    grid: &Grid,
    agent: Agent,
    plan: &Plan,
) -> Result<(), OutOfMemory>
    requires listed { IsListed visits.old.items }
    requires below { (visit : Visit) → Contains visits.old.items visit → visit.agent < agent }
    ensures { OnOk result (AddsVisits grid.now visits.old.items visits.new.items agent plan.now 0 (last_index plan.now + 1)) }
{
    for time in 0..plan.last() + 1 {
        add_visit(visits, grid, agent, plan, time)?;
    }
    Ok(())
}

/// The blocked visits of the agents, by agent, then time.
pub fn blocked_visits(alloc: Global, grid: &Grid, plans: &Plans) -> Result<List<Visit>, OutOfMemory>
    ensures { IfOk result (AreVisits grid.now plans.now.rows) }
{
    let mut visits = Vec::new(alloc);
    for rank in 0..plans.count() {
        let entry = plans.entry_at(rank);
        add_visits(&mut visits, grid, entry.0, &entry.1.plan)?;
    }
    Ok(List::new(visits))
}
