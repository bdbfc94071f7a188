//! Rows by chance for the agents of a fleet, and what becomes of a plan.
use super::fleets::Fleet;
use super::lanes::new_plan;
use super::walks::{any_cell, plan_of, walk_on};
use grid_cells::{Agent, Cell, Size, Step};
use plan_table::{Plan, Row};
use std::alloc::Global;
use std::process::Abort;
use test_support::Chain;

// The cells of the plan up to that time.
fn front(rt: &impl Abort, alloc: Global, plan: &Plan, until: u32) -> Vec<Cell> {
    let mut cells = Vec::new(alloc);
    for time in 0..=until.min(plan.last()) {
        cells.push(plan.at(Step::new(time))).expect(rt, "memory");
    }
    cells
}

// What becomes of an agent's plan: a new one; or its front, up to any time or almost its end, and then
// the rest after one wait more, nothing, or any other cells; or its way back.
fn other_plan(
    rt: &impl Abort,
    alloc: Global,
    old: &Plan,
    chain: &mut Chain,
    fleet: &Fleet,
    agent: Agent,
) -> Plan {
    let any = chain.roll(old.last() as usize + 1) as u32;
    let late = old.last().saturating_sub(chain.roll(3) as u32);
    let turn = chain.roll(8);
    if turn == 3 {
        return new_plan(rt, alloc, chain, fleet, agent);
    }
    let until = match turn {
        0 | 2 | 4 => any,
        1 => old.last(),
        _ => late,
    };
    let mut cells = front(rt, alloc, old, until);
    match turn {
        0 => {
            for time in until..=old.last() {
                cells.push(old.at(Step::new(time))).expect(rt, "memory");
            }
        }
        1 => cells.reverse(),
        2 => {}
        _ => {
            let here = old.at(Step::new(until));
            return walk_on(rt, cells, here, chain, fleet.grid.size());
        }
    }
    plan_of(rt, cells)
}

// A row for the plan: its goal is the plan's end in every second draw.
fn row(rt: &impl Abort, plan: Plan, chain: &mut Chain, size: Size) -> Row {
    let goal = if chain.roll(2) == 0 {
        plan.at(Step::new(plan.last()))
    } else {
        any_cell(rt, chain, size)
    };
    Row { goal, plan }
}

/// A row for an agent that comes.
pub fn new_row(
    rt: &impl Abort,
    alloc: Global,
    chain: &mut Chain,
    fleet: &Fleet,
    agent: Agent,
) -> Row {
    let plan = new_plan(rt, alloc, chain, fleet, agent);
    row(rt, plan, chain, fleet.grid.size())
}

/// Another row for an agent that has this one: of another goal, of another path, or of both.
pub fn other_row(
    rt: &impl Abort,
    alloc: Global,
    old: &Row,
    chain: &mut Chain,
    fleet: &Fleet,
    agent: Agent,
) -> Row {
    let size = fleet.grid.size();
    if chain.roll(3) == 0 {
        let plan = old.plan.copy().expect(rt, "memory");
        return Row {
            goal: any_cell(rt, chain, size),
            plan,
        };
    }
    let plan = other_plan(rt, alloc, &old.plan, chain, fleet, agent);
    row(rt, plan, chain, size)
}
