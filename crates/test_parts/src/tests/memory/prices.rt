//! The ledger of costs of agent 0, call by call.
use super::trials::{Memory, Trial};
use crate::tests::build::{at, plan};
use crate::tests::fields::build::set_one;
use cost_ledger::CostLedger;
use grid_cells::{Agent, Cell, Grid, OutOfMemory};
use plan_table::Plan;
use std::alloc::Global;
use std::process::Abort;
use test_support::open_grid;

/// A call: the agent comes, gets another goal or path, or goes; or a cell closes.
#[derive(Clone, Copy)]
pub enum Call {
    Put,
    Aim,
    Plan,
    Take,
    Close,
}

/// What is told of the agent: its settle time, whether it is finished, the sum, the makespan, and how
/// many aren't finished.
pub type Told = (Option<u32>, bool, Option<u64>, Option<u32>, u32);

/// The times of its blocked visits, all in one cell, and the memory that the call finds.
pub type Visits = (Memory, &'static [u32], (u32, u32));

/// A call with a cell or the line of a path, and the memory that it finds; and what is told then.
pub type Turn = (Call, (u32, u32), &'static str, Memory, Told, Visits);

// Makes the call; the agent isn't in the ledger where it comes.
fn called(
    mut ledger: CostLedger,
    call: Call,
    cell: Cell,
    plan: Option<&Plan>,
    grid: &Grid,
) -> Result<CostLedger, OutOfMemory> {
    match (call, plan) {
        (Call::Put, Some(plan)) => {
            ledger.take(Agent::LEAST);
            ledger.put(Agent::LEAST, cell, plan, grid)
        }
        (Call::Plan, Some(plan)) => ledger.set_plan(Agent::LEAST, plan, grid),
        (Call::Close, _) => ledger.flip(cell, grid),
        (Call::Aim, _) => {
            ledger.aim(Agent::LEAST, cell);
            Ok(ledger)
        }
        _ => {
            ledger.take(Agent::LEAST);
            Ok(ledger)
        }
    }
}

fn one_turn(
    rt: &impl Abort,
    alloc: Global,
    trial: &mut Trial,
    ledger: CostLedger,
    (call, (x, y), line, memory, _, _): Turn,
    grid: &mut Grid,
) -> Option<CostLedger> {
    let (cell, plan) = (at(rt, x, y), plan(rt, alloc, line));
    if matches!(call, Call::Close) {
        set_one(grid, cell, false);
    }
    trial.leave(rt, memory);
    let ledger = called(ledger, call, cell, plan.as_ref(), grid);
    trial.met(rt, ledger)
}

// Whether that is told of agent 0.
fn is_told(ledger: &CostLedger, (settle, finished, sum, makespan, unfinished): Told) -> bool {
    ledger.settle(Agent::LEAST) == settle
        && ledger.finished(Agent::LEAST) == finished
        && ledger.sum() == sum
        && ledger.makespan() == makespan
        && ledger.unfinished() == unfinished
}

// The blocked visits are those of agent 0 at those times in the cell.
fn are_visits(
    rt: &impl Abort,
    trial: &mut Trial,
    ledger: &CostLedger,
    (memory, times, (x, y)): Visits,
) {
    trial.leave(rt, memory);
    let told = ledger.blocked_visits();
    let told = match trial.met(rt, told) {
        Some(told) => told,
        None => ledger.blocked_visits().expect(rt, "memory"),
    };
    assert!(rt; told.items().len() == times.len());
    let mut place = 0usize;
    for visit in told.items() {
        assert!(rt; visit.agent == Agent::LEAST && visit.cell == at(rt, x, y));
        assert!(rt; times.get(place) == Some(&visit.time.number()));
        place = place.saturating_add(1);
    }
}

/// Makes the calls one after the other, on an open map of 3 x 1 cells; none for want of memory.
pub fn run(rt: &impl Abort, alloc: Global, trial: &mut Trial, turns: &[Turn]) -> Option<()> {
    let mut grid = open_grid(alloc, 3, 1).expect(rt, "a map");
    let mut ledger = CostLedger::new(alloc);
    for turn in turns {
        let Some(next) = one_turn(rt, alloc, trial, ledger, *turn, &mut grid) else {
            return None;
        };
        ledger = next;
        assert!(rt; is_told(&ledger, turn.4));
        are_visits(rt, trial, &ledger, turn.5);
    }
    drop(ledger);
    drop(grid);
    Some(())
}

const NOWHERE: Told = (None, false, Some(0), Some(0), 0);

const ELSEWHERE: Told = (Some(5), false, None, None, 1);

const NONE: Visits = (Memory::Ample, &[], (0, 0));

/// Agent 0 gets a goal elsewhere, the cell (1,0) closes, and it gets a path that waits there once and
/// goes on to its goal (2,0).
pub const AIMED_AND_CLOSED: &[Turn] = &[
    (
        Call::Put,
        (1, 0),
        "path 0 0,0 1,0 1,0 1,0 2,0 1,0",
        Memory::Little,
        (Some(5), true, Some(5), Some(5), 0),
        NONE,
    ),
    (Call::Aim, (2, 0), "", Memory::No, ELSEWHERE, NONE),
    (
        Call::Close,
        (1, 0),
        "",
        Memory::Little,
        ELSEWHERE,
        (Memory::Little, &[1, 2, 3, 5], (1, 0)),
    ),
    (
        Call::Plan,
        (0, 0),
        "path 0 0,0 1,0 1,0 2,0",
        Memory::Little,
        (Some(3), true, Some(3), Some(3), 0),
        (Memory::Little, &[1, 2], (1, 0)),
    ),
    (Call::Take, (0, 0), "", Memory::No, NOWHERE, NONE),
];

/// Agent 0 comes, and goes into its goal (2,0), which is closed.
pub const GOAL_CLOSED: &[Turn] = &[
    (Call::Close, (2, 0), "", Memory::Ample, NOWHERE, NONE),
    (
        Call::Put,
        (2, 0),
        "path 0 0,0 1,0 2,0",
        Memory::Little,
        (Some(2), true, Some(2), Some(2), 0),
        (Memory::Little, &[2], (2, 0)),
    ),
];
