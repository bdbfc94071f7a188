//! How long many changes take of 4,096 agents, each with a path of 65 cells, in the index and both
//! ledgers, and what a record of the index takes. The times are printed.
use super::build::{agent, at};
use super::fields::build::set_one;
use super::kept::{Kept, turned};
use super::walks::plan_of;
use cost_ledger::CostLedger;
use grid_cells::{Agent, Cell, Grid, Step};
use mapf_rules::Visit;
use plan_table::{Mode, Row};
use std::alloc::Global;
use std::fs;
use std::process::Abort;
use std::rt::{Clock, Files};
use std::time::Instant;
use test_support::open_grid;
use where_index::WhereIndex;

fn now(rt: &(impl Abort + Clock)) -> Instant {
    Instant::now(rt).expect(rt, "the clock")
}

// Prints how long it took, which is less than 30 seconds.
fn tell(rt: &(impl Abort + Clock + Print), what: &str, began: Instant) {
    let took = began.elapsed(rt).expect(rt, "the clock");
    println!(rt; "{what}: {took:?}").expect(rt, "print");
    assert!(rt; took.as_secs() < 30, "{what}");
}

// The row of an agent that ends at its goal by a path of 65 cells, each a move from the one before: to
// the right in a row of its own, and downwards after `turn` steps.
fn lane(rt: &impl Abort, alloc: Global, number: u32, turn: u32) -> Row {
    let (left, top) = (number / 64 % 64 * 7, number % 64);
    let mut cells = Vec::new(alloc);
    for step in 0..65u32 {
        let (x, y) = (left + step.min(turn), top + step.saturating_sub(turn));
        cells.push(at(rt, x, y)).expect(rt, "memory");
    }
    let plan = plan_of(rt, cells);
    Row {
        goal: plan.at(Step::new(64)),
        plan,
    }
}

// The pages that the process has in memory: the second number of Linux's statm.
fn pages(rt: &(impl Abort + Alloc + Files)) -> u64 {
    let text = fs::read_to_string(rt, "/proc/self/statm").expect(rt, "statm");
    let word = text.as_str().split_whitespace().nth(1).expect(rt, "a word");
    word.parse::<u64>().expect(rt, "a number")
}

// What is kept of all agents.
fn filled(rt: &impl Abort, alloc: Global, grid: &Grid) -> Kept {
    let mut kept = Kept::new(alloc);
    for number in 0..4_096u32 {
        let row = lane(rt, alloc, number, 64);
        kept = turned(
            rt,
            kept,
            agent(rt, number),
            None,
            Some(&row),
            Mode::Stay,
            grid,
        );
    }
    kept
}

// Agent 0 gets the new row in place of the old one, and back, so often. A row that isn't there is that of
// an agent that goes.
fn turned_often(
    rt: &impl Abort,
    mut kept: Kept,
    old: &Row,
    new: Option<&Row>,
    rounds: u32,
    grid: &Grid,
) -> Kept {
    let agent = Agent::LEAST;
    for _ in 0..rounds {
        kept = turned(rt, kept, agent, Some(old), new, Mode::Stay, grid);
        kept = turned(rt, kept, agent, new, Some(old), Mode::Stay, grid);
    }
    kept
}

// How many bytes of memory a record takes, of which there are 64 Stand, one Tail and 64 Move of each agent.
fn bytes_of_a_record(rt: &(impl Abort + Alloc + Files), index: &WhereIndex, before: u64) -> u64 {
    assert!(rt; index.touched() == 528_384);
    pages(rt).saturating_sub(before).saturating_mul(4_096) / 528_384
}

// The visits to the cell (10,0), which two of the lanes have.
fn visits(rt: &impl Abort, alloc: Global, cell: Cell) -> Vec<Visit> {
    let mut visits = Vec::new(alloc);
    for (number, time) in [(0, 10), (64, 3)] {
        let visit = Visit {
            agent: agent(rt, number),
            time: Step::new(time),
            cell,
        };
        visits.push(visit).expect(rt, "memory");
    }
    visits
}

// Closes and opens the cell in turn, where the visits to it are known.
fn flip_often(
    rt: &impl Abort,
    alloc: Global,
    mut costs: CostLedger,
    cell: Cell,
    grid: &mut Grid,
) -> CostLedger {
    let visits = visits(rt, alloc, cell);
    for turn in 0..10_000u32 {
        set_one(grid, cell, turn % 2 == 1);
        costs = costs.flip_at(cell, grid, &visits).expect(rt, "memory");
    }
    costs
}

// Closes the cell, for which the ledger goes along all plans.
fn flip_once(rt: &impl Abort, costs: CostLedger, cell: Cell, grid: &mut Grid) -> CostLedger {
    set_one(grid, cell, false);
    costs.flip(cell, grid).expect(rt, "memory")
}

// Four Stand, one Tail and five Move of either track are touched by each swap.
fn turns(
    rt: &(impl Abort + Clock + Print),
    mut kept: Kept,
    straight: &Row,
    bent: &Row,
    grid: &Grid,
) -> Kept {
    let began = now(rt);
    kept = turned_often(rt, kept, straight, Some(bent), 5_000, grid);
    tell(rt, "10,000 swaps and revises", began);
    assert!(rt; kept.index.touched() == 728_384);
    let began = now(rt);
    kept = turned_often(rt, kept, straight, None, 10_000, grid);
    tell(rt, "10,000 takes and puts", began);
    assert!(rt; kept.costs.sum() == Some(262_144) && kept.costs.unfinished() == 0);
    kept
}

// Cell (10,0) closes and opens often, and closes at last.
fn flips(rt: &(impl Abort + Clock + Print), alloc: Global, mut costs: CostLedger, grid: &mut Grid) {
    let cell = at(rt, 10, 0);
    let began = now(rt);
    costs = flip_often(rt, alloc, costs, cell, grid);
    tell(rt, "10,000 flips where the visits are known", began);
    assert!(rt; costs.sum() == Some(262_144) && costs.unfinished() == 0);
    let began = now(rt);
    costs = flip_once(rt, costs, cell, grid);
    tell(rt, "a flip along all plans", began);
    assert!(rt; costs.visits() == 2);
    drop(costs);
}

// All agents come; agent 0 changes its path often, and goes and comes; and a cell changes.
#[test]
fn many_changes_in_little_time(rt: HostRuntime) {
    let mut grid = open_grid(rt.alloc(), 512, 64).expect(&rt, "a map");
    let (before, began) = (pages(&rt), now(&rt));
    let kept = filled(&rt, rt.alloc(), &grid);
    tell(&rt, "4,096 puts and admits", began);
    let each = bytes_of_a_record(&rt, &kept.index, before);
    println!(rt; "{each} bytes a record").expect(&rt, "print");
    assert!(rt; each < 64);
    let straight = lane(&rt, rt.alloc(), 0, 64);
    let bent = lane(&rt, rt.alloc(), 0, 59);
    let Kept {
        index,
        ledger,
        costs,
    } = turns(&rt, kept, &straight, &bent, &grid);
    drop(index);
    drop(ledger);
    flips(&rt, rt.alloc(), costs, &mut grid);
    drop(grid);
}
