//! Copies of grids and plans, and room in a table of plans.
use super::maps::is_map;
use super::trials::{Memory, Trial};
use crate::tests::build::{at, plan, size_of};
use crate::tests::fields::build::set_one;
use grid_cells::Grid;
use plan_table::Plans;
use std::alloc::Global;
use std::process::Abort;
use test_support::are_at;

const PARTED: &[u8] = b"type octile\nheight 1\nwidth 3\nmap\n.@.\n";

fn copy_of_a_grid(rt: &impl Abort, alloc: Global, trial: &mut Trial) {
    trial.leave(rt, Memory::Little);
    let made = Grid::all_open(alloc, size_of(rt, 3, 1));
    let Some(mut grid) = trial.met(rt, made) else {
        return;
    };
    set_one(&mut grid, at(rt, 1, 0), false);
    trial.leave(rt, Memory::Little);
    let made = grid.copy();
    let copy = match trial.met(rt, made) {
        Some(copy) => copy,
        None => grid.copy().expect(rt, "memory"),
    };
    assert!(rt; is_map(rt, alloc, &copy, PARTED) && is_map(rt, alloc, &grid, PARTED));
    drop(copy);
    drop(grid);
}

fn copy_of_a_plan(rt: &impl Abort, alloc: Global, trial: &mut Trial) {
    let plan = plan(rt, alloc, "path 0 0,0 1,0 1,0").expect(rt, "a plan");
    trial.leave(rt, Memory::Little);
    let made = plan.copy();
    let copy = match trial.met(rt, made) {
        Some(copy) => copy,
        None => plan.copy().expect(rt, "memory"),
    };
    assert!(rt; are_at(plan.cells(), &[(0, 0), (1, 0)]));
    assert!(rt; are_at(copy.cells(), &[(0, 0), (1, 0)]));
}

fn room_of_plans(rt: &impl Abort, alloc: Global, trial: &mut Trial) {
    let mut plans = Plans::new(alloc);
    trial.leave(rt, Memory::Little);
    let made = plans.make_room();
    if trial.met(rt, made).is_none() {
        assert!(rt; plans.count() == 0);
        assert!(rt; plans.make_room().is_ok());
    }
    assert!(rt; plans.count() == 0);
}

pub fn copies(rt: &impl Abort, alloc: Global, trial: &mut Trial) {
    copy_of_a_grid(rt, alloc, trial);
    copy_of_a_plan(rt, alloc, trial);
    room_of_plans(rt, alloc, trial);
}
