//! Calls of a desk, written short, and their answers.
use super::build::{agent, cell, commit, planner};
use desk_core::{Answer, AskFault, Call, EditFault, Reading, Refusal, Snapshot, Thing};
use grid_cells::Grid;
use plan_table::Mode;
use std::alloc::Global;
use std::process::Abort;

/// A call: a commit of that planner on that base, with the lines of its watches and edits, a reading,
/// the distance of an agent from a cell, or a snapshot.
pub enum Ask {
    Commit(u32, u64, &'static [&'static str]),
    Read,
    Distance(u32, (u32, u32)),
    Snapshot,
}

/// What a commit is about.
#[derive(Clone, Copy, PartialEq, Eq)]
pub enum About {
    Agent(u32),
    Cell(u32, u32),
    Map,
}

/// An answer, in short.
#[derive(Clone, Copy, PartialEq, Eq)]
pub enum Told {
    Done(u64),
    Full(u32),
    Ahead(u64),
    NoEdits,
    /// The version, the thing, and the entry that names it.
    Stale(u64, About, u64),
    Faulty(usize, EditFault),
    /// The version, the sum of bounds and the number of conflicts.
    Shown(u64, Option<u64>, usize),
    Far(Option<u32>),
    UnknownAgent,
    OutOfMap,
    /// The version, whether cell (1,0) is open, the number of agents, and the first one's goal and
    /// last index.
    Copied(u64, bool, u32, (u32, u32), u32),
    OutOfMemory,
    /// The call wasn't made.
    Unasked,
}

/// The call.
pub fn call(rt: &impl Abort, alloc: Global, ask: &Ask) -> Call {
    match ask {
        Ask::Commit(number, base, lines) => {
            let planner = planner(rt, *number);
            Call::Commit(commit(rt, alloc, planner, *base, lines))
        }
        Ask::Read => Call::Read,
        Ask::Distance(number, (x, y)) => Call::Distance(agent(rt, *number), cell(rt, *x, *y)),
        Ask::Snapshot => Call::Snapshot,
    }
}

fn told_of_thing(thing: Thing) -> About {
    match thing {
        Thing::Agent(agent) => About::Agent(agent.number()),
        Thing::Cell(cell) => About::Cell(cell.x(), cell.y()),
        Thing::Map => About::Map,
    }
}

fn told_of_refusal(refusal: Refusal) -> Told {
    match refusal {
        Refusal::JournalFull { limit } => Told::Full(limit),
        Refusal::Ahead { now } => Told::Ahead(now),
        Refusal::NoEdits => Told::NoEdits,
        Refusal::Stale { now, thing, at } => Told::Stale(now, told_of_thing(thing), at),
        Refusal::Faulty { index, why } => Told::Faulty(index, why),
        Refusal::OutOfMemory => Told::OutOfMemory,
    }
}

fn told_of_fault(fault: AskFault) -> Told {
    match fault {
        AskFault::UnknownAgent => Told::UnknownAgent,
        AskFault::OutOfMap => Told::OutOfMap,
        AskFault::OutOfMemory => Told::OutOfMemory,
    }
}

fn told_of_reading(reading: &Reading) -> Told {
    let report = &reading.report;
    let conflicts = report.conflicts.items().len();
    Told::Shown(reading.version, report.bounds, conflicts)
}

// Whether the cell of the upper row is open.
fn is_open(rt: &impl Abort, grid: &Grid, x: u32) -> bool {
    let at = cell(rt, x, 0);
    assert!(rt; grid.size().holds(at));
    grid.is_open(at)
}

// The copy has the map's three cells, of which the first and the last are open, and mode Stay.
fn told_of_copy(rt: &impl Abort, copy: &Snapshot) -> Told {
    let grid = copy.scene.grid();
    assert!(rt; grid.size().width() == 3 && grid.size().height() == 1);
    assert!(rt; copy.scene.mode() == Mode::Stay);
    assert!(rt; is_open(rt, grid, 0) && is_open(rt, grid, 2));
    let plans = copy.scene.plans();
    let first = plans.agent_at(0).expect(rt, "an agent");
    let row = plans.row(first).expect(rt, "its row");
    let goal = (row.goal.x(), row.goal.y());
    let open = is_open(rt, grid, 1);
    Told::Copied(copy.version, open, plans.count(), goal, row.plan.last())
}

/// What an answer of a row of calls tells.
pub fn told_of_answer(rt: &impl Abort, answer: &Answer) -> Told {
    match answer {
        Answer::Done(version) => Told::Done(*version),
        Answer::Refused(why, _) => told_of_refusal(*why),
        Answer::Shown(reading) => told_of_reading(reading),
        Answer::Far(steps) => Told::Far(*steps),
        Answer::AskRefused(fault) => told_of_fault(*fault),
        Answer::Copied(copy) => told_of_copy(rt, copy),
        Answer::NoMemory => Told::OutOfMemory,
    }
}
