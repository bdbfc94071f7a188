//! Changes of fleets by chance, and what is kept follows.
use super::fleets::Fleet;
use super::kept::{Kept, turned};
use super::rows::{new_row, other_row};
use super::walks::any_cell;
use cost_ledger::CostLedger;
use grid_cells::{Agent, Cell};
use plan_table::Row;
use std::alloc::Global;
use std::process::Abort;
use test_support::Chain;

// The row of an agent that comes, or another one for an agent that has one, or none where it goes.
fn next_row(
    rt: &impl Abort,
    alloc: Global,
    old: Option<&Row>,
    fleet: &Fleet,
    agent: Agent,
    chain: &mut Chain,
) -> Option<Row> {
    let Some(old) = old else {
        return Some(new_row(rt, alloc, chain, fleet, agent));
    };
    if chain.roll(4) == 0 {
        return None;
    }
    Some(other_row(rt, alloc, old, chain, fleet, agent))
}

/// An agent comes that isn't there; one that is goes, or gets another row.
pub fn change(
    rt: &impl Abort,
    alloc: Global,
    kept: Kept,
    fleet: &mut Fleet,
    agent: Agent,
    chain: &mut Chain,
) -> Kept {
    let old = fleet.plans.remove(agent);
    let new = next_row(rt, alloc, old.as_ref(), fleet, agent, chain);
    let (before, after) = (old.as_ref(), new.as_ref());
    let kept = turned(rt, kept, agent, before, after, fleet.mode, &fleet.grid);
    drop(old);
    if let Some(row) = new {
        fleet.set(rt, agent, row);
    }
    kept
}

// The cell gets the state that it has on the fleet's map: the ledger looks for the visits to it, or is
// told them in every other cell.
fn priced_anew(
    rt: &impl Abort,
    alloc: Global,
    costs: CostLedger,
    cell: Cell,
    fleet: &Fleet,
) -> CostLedger {
    if cell.x() % 2 == cell.y() % 2 {
        return costs.flip(cell, &fleet.grid).expect(rt, "memory");
    }
    let visits = fleet.visits(rt, alloc, cell);
    costs
        .flip_at(cell, &fleet.grid, &visits)
        .expect(rt, "memory")
}

/// A cell by chance opens or closes on the fleet's map, in every third draw. Answers which one, and how
/// many agents come through it, where that changes it.
pub fn flip(rt: &impl Abort, fleet: &mut Fleet, chain: &mut Chain) -> Option<(Cell, usize)> {
    let cell = any_cell(rt, chain, fleet.grid.size());
    if chain.roll(3) > 0 || !fleet.grid.size().holds(cell) {
        return None;
    }
    let (was, is) = (fleet.grid.is_open(cell), chain.roll(2) == 0);
    fleet.grid.set(cell, is);
    let visitors = if was == is { 0 } else { fleet.visitors(cell) };
    Some((cell, visitors))
}

/// What is kept, where a cell has the state that it has on the fleet's map.
pub fn flipped(rt: &impl Abort, alloc: Global, kept: Kept, cell: Cell, fleet: &Fleet) -> Kept {
    let Kept {
        index,
        ledger,
        costs,
    } = kept;
    let costs = priced_anew(rt, alloc, costs, cell, fleet);
    Kept {
        index,
        ledger,
        costs,
    }
}
