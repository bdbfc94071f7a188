//! Scenes, compared whole.
use super::build::cell;
use grid_cells::{Cell, Grid};
use plan_table::Plans;
use scene_edits::Scene;
use std::alloc::Global;
use std::process::Abort;
use test_support::scene;

fn is_open(grid: &Grid, cell: Cell) -> bool {
    grid.size().holds(cell) && grid.is_open(cell)
}

fn are_same_maps(rt: &impl Abort, one: &Grid, other: &Grid) -> bool {
    let size = one.size();
    let mut same = size == other.size();
    for y in 0..size.height() {
        for x in 0..size.width() {
            let cell = cell(rt, x, y);
            same = same && is_open(one, cell) == is_open(other, cell);
        }
    }
    same
}

fn are_same_plans(one: &Plans, other: &Plans) -> bool {
    let mut same = one.count() == other.count();
    for rank in 0..one.count() {
        let (agent, row) = one.entry_at(rank);
        let is_there = match other.row(agent) {
            Some(its) => row.goal == its.goal && row.plan.cells() == its.plan.cells(),
            None => false,
        };
        same = same && is_there;
    }
    same
}

/// Whether the scenes are equal: their modes, each cell of their maps, and each agent's goal and path.
pub fn are_same(rt: &impl Abort, one: &Scene, other: &Scene) -> bool {
    one.mode() == other.mode()
        && are_same_maps(rt, one.grid(), other.grid())
        && are_same_plans(one.plans(), other.plans())
}

/// Whether the scene is that of an open map of 3 x 1 cells after the edits of the lines, in mode Stay.
pub fn is_scene(rt: &impl Abort, alloc: Global, copy: &Scene, lines: &[&str]) -> bool {
    let wanted = scene(alloc, 3, 1, lines).expect(rt, "a scene");
    let same = are_same(rt, copy, &wanted);
    drop(wanted);
    same
}
