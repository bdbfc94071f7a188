//! Plans of agents that come, each in the manner of its fleet.
use super::fleets::{Fleet, Manner};
use super::walks::{any_cell, next_to, plan_of, walk};
use grid_cells::{Agent, Cell, Size};
use plan_table::Plan;
use std::alloc::Global;
use std::process::Abort;
use test_support::Chain;

// How many steps an agent at least goes to and fro.
const LONG: usize = 200;

// The cell at that place of a lane that goes along the first row and back along the second, or along
// the first where there is no other.
fn lane_cell(size: Size, place: u32) -> Option<Cell> {
    let width = size.width();
    let place = place % (2 * width);
    if place < width {
        return size.cell(place, 0);
    }
    let column = 2 * width - 1 - place;
    size.cell(column, 1).or(size.cell(column, 0))
}

// A plan along the lane, from that place on.
fn lane(rt: &impl Abort, alloc: Global, size: Size, place: u32) -> Plan {
    let mut cells = Vec::new(alloc);
    for step in 0..=size.width() {
        let cell = lane_cell(size, place.saturating_add(step));
        cells.push(cell.expect(rt, "a cell")).expect(rt, "memory");
    }
    plan_of(rt, cells)
}

// A plan that goes back to the cell before in most steps, and to any that is near in others.
fn to_and_fro(rt: &impl Abort, alloc: Global, chain: &mut Chain, size: Size) -> Plan {
    let mut here = any_cell(rt, chain, size);
    let mut before = next_to(size, here, chain.roll(4));
    let mut cells = Vec::new(alloc);
    cells.push(here).expect(rt, "memory");
    for _ in 0..LONG.saturating_add(chain.roll(9)) {
        let turn = chain.roll(60);
        let next = if turn < 5 {
            next_to(size, here, turn)
        } else {
            before
        };
        (before, here) = (here, next);
        cells.push(here).expect(rt, "memory");
    }
    plan_of(rt, cells)
}

/// A plan for that agent of the fleet.
pub fn new_plan(
    rt: &impl Abort,
    alloc: Global,
    chain: &mut Chain,
    fleet: &Fleet,
    agent: Agent,
) -> Plan {
    let size = fleet.grid.size();
    match fleet.manner {
        Manner::Wandering => walk(rt, alloc, chain, size),
        Manner::InConvoy => lane(rt, alloc, size, agent.number()),
        Manner::ToAndFro => to_and_fro(rt, alloc, chain, size),
    }
}
