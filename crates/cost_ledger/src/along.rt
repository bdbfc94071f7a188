ghost use Rattle.std.specs.Prelude.{◌≡◌, ◌+◌, ◌≤◌, true, false, IfOk, OnOk, Contains};
ghost use Rattle.plan_table.specs.Path.{last_index};
ghost use Rattle.cost_ledger.specs.Sets.{GainsEach, LosesEach};
ghost use Rattle.cost_ledger.specs.Through.{IsThrough};
ghost use Rattle.mapf_rules.specs.VisitSearch.{IsVisitIn};

use grid_cells::{Agent, Cell, Grid, List, OutOfMemory, Step};
use mapf_rules::{Visit, is_closed};
use plan_table::Plan;
use std::alloc::Global;
use std::collections::BTreeSet;

/// Adds the agent's visits to closed cells from one time on.
pub(crate) fn block(
    blocked: &mut BTreeSet<Visit>,
    grid: &Grid,
    agent: Agent,
    plan: &Plan,
    from: u32,
) -> Result<(), OutOfMemory>
    requires { from ≤ last_index plan.now + 1 }
    ensures { OnOk result (GainsEach blocked.old.keys blocked.new.keys (IsVisitIn grid.now agent plan.now from (last_index plan.now + 1))) }
{
    for time in from..plan.last() + 1 {
        block_at(blocked, grid, agent, plan, time)?;
    }
    Ok(())
}

// Adds the agent's visit at that time, if its cell is closed.
fn block_at(
    blocked: &mut BTreeSet<Visit>,
    grid: &Grid,
    agent: Agent,
    plan: &Plan,
    time: u32,
) -> Result<(), OutOfMemory>
    requires { time ≤ last_index plan.now }
    ensures { OnOk result (GainsEach blocked.old.keys blocked.new.keys (IsVisitIn grid.now agent plan.now time (time + 1))) }
{
    let cell = plan.at(Step::new(time));
    if is_closed(grid, cell) {
        blocked.insert(Visit {
            agent,
            time: Step::new(time),
            cell,
        })?;
    }
    Ok(())
}

/// Takes the agent's visits from one time on out, wherever on its path they are.
pub(crate) fn unblock(blocked: &mut BTreeSet<Visit>, agent: Agent, plan: &Plan, from: u32)
    requires { from ≤ last_index plan.now + 1 }
    ensures { LosesEach blocked.old.keys blocked.new.keys (IsThrough agent plan.now from (last_index plan.now + 1)) }
{
    for time in from..plan.last() + 1 {
        blocked.remove(&Visit {
            agent,
            time: Step::new(time),
            cell: plan.at(Step::new(time)),
        });
    }
}

/// Adds the agent's visits to the cell.
pub(crate) fn add_through(
    found: &mut Vec<Visit>,
    agent: Agent,
    plan: &Plan,
    cell: Cell,
) -> Result<(), OutOfMemory>
    ensures { OnOk result
        (GainsEach found.old.items found.new.items (λ visit. (visit.cell ≡ cell) × IsThrough agent plan.now 0 (last_index plan.now + 1) visit)) }
{
    for time in 0..plan.last() + 1 {
        add_if_there(found, agent, plan, cell, time)?;
    }
    Ok(())
}

// Adds the agent's visit at that time, if it is to the cell.
fn add_if_there(
    found: &mut Vec<Visit>,
    agent: Agent,
    plan: &Plan,
    cell: Cell,
    time: u32,
) -> Result<(), OutOfMemory>
    requires { time ≤ last_index plan.now }
    ensures { OnOk result (GainsEach found.old.items found.new.items (λ visit. (visit.cell ≡ cell) × IsThrough agent plan.now time (time + 1) visit)) }
{
    if plan.at(Step::new(time)) == cell {
        found.push(Visit {
            agent,
            time: Step::new(time),
            cell,
        })?;
    }
    Ok(())
}

/// Adds the visits where their cell is closed, and takes them out otherwise.
pub(crate) fn set_blocked(
    blocked: &mut BTreeSet<Visit>,
    visits: &[Visit],
    closed: bool,
) -> Result<(), OutOfMemory>
    ensures adds { OnOk result (closed ≡ true → GainsEach blocked.old.keys blocked.new.keys (Contains visits.now)) }
    ensures takes { OnOk result (closed ≡ false → LosesEach blocked.old.keys blocked.new.keys (Contains visits.now)) }
{
    if closed {
        block_all(blocked, visits)
    } else {
        unblock_all(blocked, visits);
        Ok(())
    }
}

// Adds the visits.
fn block_all(blocked: &mut BTreeSet<Visit>, visits: &[Visit]) -> Result<(), OutOfMemory>
    ensures { OnOk result (GainsEach blocked.old.keys blocked.new.keys (Contains visits.now)) }
{
    for visit in visits {
        blocked.insert(*visit)?;
    }
    Ok(())
}

// Takes the visits out.
fn unblock_all(blocked: &mut BTreeSet<Visit>, visits: &[Visit])
    ensures { LosesEach blocked.old.keys blocked.new.keys (Contains visits.now) }
{
    for visit in visits {
        blocked.remove(visit);
    }
}

/// The visits, in their order.
pub(crate) fn listed(alloc: Global, blocked: &BTreeSet<Visit>) -> Result<List<Visit>, OutOfMemory>
    ensures { IfOk result (λ list. list ≡ blocked.now.keys) }
{
    let mut list = Vec::new(alloc);
    for visit in blocked {
        list.push(*visit)?;
    }
    Ok(List::new(list))
}
