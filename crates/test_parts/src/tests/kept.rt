//! What is kept of a fleet, and how it follows an agent that comes, goes, or gets another row.
use super::records::check_touched;
use conflict_ledger::ConflictLedger;
use cost_ledger::CostLedger;
use grid_cells::{Agent, Grid, OutOfMemory};
use plan_table::{Mode, Row, Track};
use std::alloc::Global;
use std::process::Abort;
use test_support::since;
use where_index::WhereIndex;

#[derive(Drop)]
pub struct Kept {
    pub index: WhereIndex,
    pub ledger: ConflictLedger,
    pub costs: CostLedger,
}

impl Kept {
    pub fn new(alloc: Global) -> Kept {
        Kept {
            index: WhereIndex::new(alloc),
            ledger: ConflictLedger::new(alloc),
            costs: CostLedger::new(alloc),
        }
    }
}

/// The index, where an agent that had the one track has the other.
pub fn placed(
    index: WhereIndex,
    agent: Agent,
    old: Option<Track>,
    new: Option<Track>,
) -> Result<WhereIndex, OutOfMemory> {
    match (old, new) {
        (None, None) => Ok(index),
        (None, Some(new)) => index.put(agent, new),
        (Some(old), None) => Ok(index.take(agent, old)),
        (Some(old), Some(new)) => index.swap(agent, old, new, since(old, new)),
    }
}

/// The ledger of conflicts, where an agent of the index that had the one track has the other.
pub fn entered(
    ledger: ConflictLedger,
    index: &WhereIndex,
    agent: Agent,
    old: Option<Track>,
    new: Option<Track>,
) -> Result<ConflictLedger, OutOfMemory> {
    match (old, new) {
        (None, None) => Ok(ledger),
        (None, Some(new)) => ledger.admit(agent, new, index),
        (Some(old), None) => ledger.retract(agent, old, index),
        (Some(old), Some(new)) => ledger.revise(agent, old, new, since(old, new), index),
    }
}

// The ledger of costs, where an agent that had a row or none has the other.
fn priced(
    mut costs: CostLedger,
    agent: Agent,
    had: bool,
    new: Option<&Row>,
    grid: &Grid,
) -> Result<CostLedger, OutOfMemory> {
    let Some(row) = new else {
        costs.take(agent);
        return Ok(costs);
    };
    if had {
        costs.aim(agent, row.goal);
        return costs.set_plan(agent, &row.plan, grid);
    }
    costs.take(agent);
    costs.put(agent, row.goal, &row.plan, grid)
}

// The track of the row, if there is one.
fn track_of(row: Option<&Row>, mode: Mode) -> Option<Track<'_>> {
    match row {
        Some(row) => Some(row.track(mode)),
        None => None,
    }
}

/// What is kept, where an agent that had the one row has the other.
pub fn turned(
    rt: &impl Abort,
    kept: Kept,
    agent: Agent,
    old: Option<&Row>,
    new: Option<&Row>,
    mode: Mode,
    grid: &Grid,
) -> Kept {
    let Kept {
        index,
        ledger,
        costs,
    } = kept;
    let (was, is, touched) = (track_of(old, mode), track_of(new, mode), index.touched());
    let index = placed(index, agent, was, is).expect(rt, "memory");
    check_touched(rt, &index, touched, was, is);
    let ledger = entered(ledger, &index, agent, was, is).expect(rt, "memory");
    let costs = priced(costs, agent, old.is_some(), new, grid).expect(rt, "memory");
    Kept {
        index,
        ledger,
        costs,
    }
}
