//! The scene of a scenario's tasks.
use super::trials::{Memory, Trial};
use crate::tests::build::{at, size_of};
use bench_reader::{Task, one_map_answer, one_scen_answer};
use grid_cells::{Agent, Grid, OutOfMemory};
use scene_edits::{Scene, TaskFault};
use std::alloc::Global;
use std::process::Abort;
use test_support::{are_at, open_grid};

// Agent 0 rests at (0,0) and is to go to (2,1), on a map of 3 x 2 cells.
fn is_one_agent(rt: &impl Abort, scene: &Scene) -> bool {
    let row = scene.plans().row(Agent::LEAST).expect(rt, "agent 0");
    scene.plans().count() == 1
        && scene.grid().size() == size_of(rt, 3, 2)
        && row.goal == at(rt, 2, 1)
        && are_at(row.plan.cells(), &[(0, 0)])
}

// The tasks make the scene of agent 0, or have that fault; or memory is wanting, and the map is answered.
// It comes back in either case.
fn made(
    rt: &impl Abort,
    alloc: Global,
    grid: Grid,
    tasks: &[Task],
    many: u32,
    wanted: Option<TaskFault>,
) -> Result<(), Grid> {
    let size = grid.size();
    match Scene::with_tasks(alloc, grid, tasks, many) {
        Ok(scene) => {
            assert!(rt; wanted.is_none() && is_one_agent(rt, &scene));
            drop(scene);
            Ok(())
        }
        Err((TaskFault::OutOfMemory, grid)) => {
            assert!(rt; grid.size() == size);
            Err(grid)
        }
        Err((fault, grid)) => {
            assert!(rt; grid.size() == size && wanted == Some(fault));
            Ok(())
        }
    }
}

/// Makes the scene of the first task. Where the first try finds no memory, the map comes back, and the
/// second makes it.
pub fn scene_of(rt: &impl Abort, alloc: Global, trial: &mut Trial, tasks: &[Task]) {
    let grid = open_grid(alloc, 3, 2).expect(rt, "a map");
    trial.leave(rt, Memory::Little);
    match made(rt, alloc, grid, tasks, 1, None) {
        Ok(()) => {
            let _ = trial.met(rt, Ok(()));
        }
        Err(grid) => {
            let none: Option<()> = trial.met(rt, Err(OutOfMemory));
            assert!(rt; none.is_none());
            assert!(rt; made(rt, alloc, grid, tasks, 1, None).is_ok());
        }
    }
}

#[test]
fn faults_of_tasks(rt: HostRuntime) {
    let alloc = rt.alloc();
    let task = Task {
        bucket: 0,
        start: at(&rt, 0, 0),
        goal: at(&rt, 2, 1),
    };
    let tasks = vec![in alloc; task; 8_193].expect(&rt, "memory");
    for (height, have, many, fault) in [
        (2, 1, 2, TaskFault::TooFewTasks { have: 1 }),
        (2, 1, 8_193, TaskFault::TooFewTasks { have: 1 }),
        (2, 8_193, 8_193, TaskFault::TooManyAgents),
        (1, 1, 1, TaskFault::OutOfMap { task: 0 }),
    ] {
        let grid = open_grid(alloc, 3, height).expect(&rt, "a map");
        let tasks = tasks.get(..have).expect(&rt, "tasks");
        assert!(rt; made(&rt, alloc, grid, tasks, many, Some(fault)).is_ok());
    }
}

#[test]
fn one_answer_a_text(_rt: HostRuntime) {
    one_map_answer();
    one_scen_answer();
}
