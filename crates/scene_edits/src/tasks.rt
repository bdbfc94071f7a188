ghost use Rattle.std.specs.Prelude.{◌≡◌, ◌≤◌, All, IfOk, IfSome, IfNone, IsTrue, ◌↔◌, length};
ghost use Rattle.scene_edits.specs.Tasks.{rows_from, IsTaskOn, IsFirstOutside, TasksAnswered};

use crate::agent_edits::resting_at;
use crate::boards::Board;
use crate::rows::append_row;
use crate::scenes::{MOST_AGENTS, Scene};
use bench_reader::Task;
use grid_cells::{Agent, Grid, OutOfMemory, Size};
use plan_table::{Mode, Plans, Row};
use std::alloc::Global;
use thiserror::Error;

/// Why tasks make no scene.
#[derive(Clone, Copy, Debug, PartialEq, Eq, Error)]
pub enum TaskFault {
    /// There are only so many tasks.
    #[error("too few tasks, {have}")]
    TooFewTasks { have: u32 },
    /// More than MOST_AGENTS agents are asked for.
    #[error("too many agents")]
    TooManyAgents,
    /// The start or the goal of that task isn't on the map. It is the first such task, counted
    /// from 0.
    #[error("task {task} out of map")]
    OutOfMap { task: u32 },
    #[error("out of memory")]
    OutOfMemory,
}

impl Scene {
    /// The map with agents 0 to `many` - 1, in mode Stay: agent i has the start and the goal of
    /// task i, and rests at the start.
    ///
    /// # Errors
    /// The first fault, with the map: too few tasks, too many agents, a task that isn't on the
    /// map, or want of memory.
    pub fn with_tasks(
        alloc: Global,
        grid: Grid,
        tasks: &[Task],
        many: u32,
    ) -> Result<Scene, (TaskFault, Grid)>
        ensures { TasksAnswered grid tasks.now many result }
    {
        if tasks.len() < many as usize {
            let have = tasks.len() as u32;
            return Err((TaskFault::TooFewTasks { have }, grid));
        }
        if many > MOST_AGENTS {
            return Err((TaskFault::TooManyAgents, grid));
        }
        let tasks = &tasks[..many as usize];
        if let Some(task) = first_outside(grid.size(), tasks) {
            return Err((TaskFault::OutOfMap { task }, grid));
        }
        match rows_of(alloc, tasks) {
            Err(OutOfMemory) => Err((TaskFault::OutOfMemory, grid)),
            Ok(plans) => Ok(Scene::of(Board {
                alloc,
                grid,
                plans,
                mode: Mode::Stay,
            })),
        }
    }
}

// The index of the first task with a cell that isn't on the map.
fn first_outside(size: Size, tasks: &[Task]) -> Option<u32>
    requires { length tasks.now ≤ MOST_AGENTS }
    ensures first { IfSome result (IsFirstOutside size tasks.now) }
    ensures none { IfNone result (All (IsTaskOn size) tasks.now) }
{
    for index in 0..tasks.len() {
        let task = tasks[index];
        if !is_on(size, task) {
            return Some(index as u32);
        }
    }
    None
}

// Whether the map has the task's cells.
fn is_on(size: Size, task: Task) -> bool
    ensures { IsTrue result ↔ IsTaskOn size task }
{
    size.holds(task.start) && size.holds(task.goal)
}

// An agent for each task, from 0 on.
fn rows_of(alloc: Global, tasks: &[Task]) -> Result<Plans, OutOfMemory>
    requires { length tasks.now ≤ MOST_AGENTS }
    ensures { IfOk result (λ plans. plans.rows ≡ rows_from 0 tasks.now) }
{
    let mut plans = Plans::new(alloc);
    for index in 0..tasks.len() {
        let Some(agent) = Agent::new(index as u32) else {
            unreachable!()
        };
        let task = tasks[index];
        let row = Row {
            goal: task.goal,
            plan: resting_at(alloc, task.start)?,
        };
        append_row(&mut plans, agent, row)?;
    }
    Ok(plans)
}
