//! Paths that aren't any.
ghost use Rattle.std.specs.Prelude.{◌≡◌, ◌<◌, ◌≤◌, length, IfOk};
ghost use Rattle.scene_edits.specs.Scene.{start_of};
ghost use Rattle.scene_edits.specs.declared.scenes.TheConstants.{MOST_AGENTS};
ghost use Rattle.solver_check.specs.Wrongs.{due_start, goal_fault, is_same, is_step, path_fault, wrong_at, wrong_from, wrong_of, wrongs_of};

use crate::checks::edits::{agent_of, goal_in, start_in};
use crate::checks::times::is_off;
use grid_cells::{Agent, Cell, OutOfMemory, Size};
use path_files::SolverPaths;
use plan_table::MOST_LAST_INDEX;
use scene_edits::Scene;
use std::alloc::Global;

/// An agent whose path isn't one, by the first cell at fault and its time in steps.
#[derive(Clone, Copy)]
pub(crate) enum Wrong {
    /// The cell stands behind the last one that a path may have.
    TooLong {
        agent: Agent,
        time: usize,
        cell: Cell,
    },
    /// The cell isn't on the map.
    OutOfMap {
        agent: Agent,
        time: usize,
        cell: Cell,
    },
    /// The path begins in that cell, and the agent starts elsewhere.
    NotFromStart {
        agent: Agent,
        start: Cell,
        cell: Cell,
    },
    /// The cell is no step from the one before.
    NotAStep {
        agent: Agent,
        time: usize,
        before: Cell,
        cell: Cell,
    },
}

/// Whether the cells are one.
pub(crate) fn is_same(cell: Cell, other: Cell) -> bool
    ensures { result ≡ is_same cell other }
{
    cell == other
}

// Whether a step leads from the one cell to the other.
fn is_step(before: Cell, cell: Cell) -> bool
    ensures { result ≡ is_step before cell }
{
    before.is_step_to(cell)
}

// What is wrong with the cell at that time behind the one before, which at time 0 is the agent's start.
fn wrong_at(size: Size, agent: Agent, time: usize, before: Cell, cell: Cell) -> Option<Wrong>
    ensures { result ≡ wrong_at size agent time before cell }
{
    if time > MOST_LAST_INDEX as usize {
        Some(Wrong::TooLong { agent, time, cell })
    } else if is_off(size, cell) {
        Some(Wrong::OutOfMap { agent, time, cell })
    } else if time == 0 {
        if is_same(before, cell) {
            None
        } else {
            Some(Wrong::NotFromStart {
                agent,
                start: before,
                cell,
            })
        }
    } else if is_step(before, cell) {
        None
    } else {
        Some(Wrong::NotAStep {
            agent,
            time,
            before,
            cell,
        })
    }
}

// The first fault of the agent's path from that start.
fn wrong_from(size: Size, agent: Agent, start: Cell, path: &[Cell]) -> Option<Wrong>
    ensures { result ≡ wrong_from size agent 0 start path.now }
{
    let mut before = start;
    for (time, cell) in path.iter().enumerate() {
        let wrong = wrong_at(size, agent, time, before, *cell);
        if wrong.is_some() {
            return wrong;
        }
        before = *cell;
    }
    None
}

// Where the agent is to start.
fn due_start(
    scene: &Scene,
    spelled: &SolverPaths,
    bare: bool,
    agent: Agent,
    path: &[Cell],
) -> Option<Cell>
    ensures { result ≡ due_start bare scene.now spelled.now agent path.now }
{
    if bare {
        start_in(spelled, agent.number() as usize, path)
    } else {
        start_of(scene, agent)
    }
}

/// Where the agent's plan begins.
pub(crate) fn start_of(scene: &Scene, agent: Agent) -> Option<Cell>
    ensures { result ≡ start_of scene.now agent }
{
    scene.plans().row(agent)?.plan.cells().first().copied()
}

// The fault of the agent's path, where there is a start for it.
fn path_fault(size: Size, agent: Agent, start: Option<Cell>, path: &[Cell]) -> Option<Wrong>
    ensures { result ≡ path_fault size agent start path.now }
{
    wrong_from(size, agent, start?, path)
}

// The fault of a goal that isn't on the map.
fn goal_fault(size: Size, agent: Agent, goal: Option<Cell>) -> Option<Wrong>
    ensures { result ≡ goal_fault size agent goal }
{
    let cell = goal?;
    if is_off(size, cell) {
        Some(Wrong::OutOfMap {
            agent,
            time: 0,
            cell,
        })
    } else {
        None
    }
}

// What is wrong with the agent's path or, where the text of paths tells it, with its goal.
fn wrong_of(
    scene: &Scene,
    spelled: &SolverPaths,
    bare: bool,
    agent: Agent,
    path: &[Cell],
) -> Option<Wrong>
    ensures { result ≡ wrong_of bare scene.now spelled.now agent path.now }
{
    let size = scene.grid().size();
    let start = due_start(scene, spelled, bare, agent, path);
    match path_fault(size, agent, start, path) {
        Some(wrong) => Some(wrong),
        None if bare => goal_fault(size, agent, goal_in(spelled, agent.number() as usize, path)),
        None => None,
    }
}

/// The first fault of each agent whose path isn't one, by agent: of the paths of a text, on the
/// scene of the map and the tasks, or on a bare map.
///
/// # Errors
/// Want of memory.
pub(crate) fn wrongs_of(
    alloc: Global,
    scene: &Scene,
    spelled: &SolverPaths,
    bare: bool,
) -> Result<Vec<Wrong>, OutOfMemory>
    requires { length spelled.now.paths ≤ MOST_AGENTS }
    ensures { IfOk result (λ wrongs. wrongs.items ≡ wrongs_of bare scene.now spelled.now) }
{
    let mut wrongs = Vec::new(alloc);
    for (number, path) in spelled.paths.items().iter().enumerate() {
        if let Some(wrong) = wrong_of(scene, spelled, bare, agent_of(number), path.items()) {
            wrongs.push(wrong)?;
        }
    }
    Ok(wrongs)
}
