//! Edits and commits that look like chance.
use super::build::{agent, cell, planner};
use desk_core::{Commit, Desk, Edit};
use grid_cells::{Agent, Cell, List, Step};
use scene_edits::Scene;
use std::alloc::Global;
use std::process::Abort;
use test_support::Chain;

/// How many columns and rows the maps have.
pub const WIDTH: usize = 4;

fn some_cell(rt: &impl Abort, chance: &mut Chain) -> Cell {
    let x = chance.roll(WIDTH) as u32;
    let y = chance.roll(WIDTH) as u32;
    cell(rt, x, y)
}

// A step from the cell, or a wait.
fn some_step(rt: &impl Abort, chance: &mut Chain, from: Cell) -> Cell {
    let (x, y) = (from.x(), from.y());
    let (x, y) = match chance.roll(5) {
        0 => (x.saturating_sub(1), y),
        1 => (x.saturating_add(1).min(3), y),
        2 => (x, y.saturating_sub(1)),
        3 => (x, y.saturating_add(1).min(3)),
        _ => (x, y),
    };
    cell(rt, x, y)
}

// A few steps from the cell on, which is the first of them where it is to be.
fn some_walk(
    rt: &impl Abort,
    alloc: Global,
    chance: &mut Chain,
    from: Cell,
    with_first: bool,
) -> List<Cell> {
    let mut cells = Vec::new(alloc);
    if with_first {
        cells.push(from).expect(rt, "memory");
    }
    let mut last = from;
    for _ in 0..chance.roll(6) {
        last = some_step(rt, chance, last);
        cells.push(last).expect(rt, "memory");
    }
    List::new(cells)
}

// Where the agent is at that time, if it is live.
fn place(rt: &impl Abort, scene: &Scene, agent: Agent, time: Step) -> Cell {
    match scene.plans().row(agent) {
        Some(row) => row.plan.at(time),
        None => cell(rt, 0, 0),
    }
}

fn some_edit(rt: &impl Abort, alloc: Global, chance: &mut Chain, scene: &Scene) -> Edit {
    let agent = agent(rt, chance.roll(6) as u32);
    let cell = some_cell(rt, chance);
    match chance.roll(10) {
        0 | 1 => {
            let goal = some_cell(rt, chance);
            Edit::Add {
                agent,
                start: cell,
                goal,
            }
        }
        2 => Edit::Drop { agent },
        3 => Edit::Goal { agent, goal: cell },
        4 | 5 => {
            let start = place(rt, scene, agent, Step::new(0));
            let cells = some_walk(rt, alloc, chance, start, true);
            Edit::Path { agent, cells }
        }
        6 | 7 => {
            let from = Step::new(chance.roll(3) as u32);
            let front = place(rt, scene, agent, from);
            let cells = some_walk(rt, alloc, chance, front, false);
            Edit::Tail { agent, from, cells }
        }
        8 => Edit::Open { cell },
        _ => Edit::Close { cell },
    }
}

/// A commit on the desk's version of a few edits, of which most are allowed.
pub fn some_commit(rt: &impl Abort, alloc: Global, chance: &mut Chain, desk: &Desk) -> Commit {
    let mut scene = desk.scene().copy().expect(rt, "memory");
    let mut edits = Vec::new(alloc);
    for _ in 0..chance.roll(8) {
        let edit = some_edit(rt, alloc, chance, &scene);
        if scene.apply(&edit).is_ok() || chance.roll(20) == 0 {
            edits.push(edit).expect(rt, "memory");
        }
    }
    drop(scene);
    Commit::new(planner(rt, 0), desk.version(), Vec::new(alloc), edits)
        .ok()
        .expect(rt, "a commit")
}
