//! The edits that a text of paths asks for.
ghost use Rattle.std.specs.Prelude.{◌≡◌, ◌<◌, ◌≤◌, ◌++◌, length, slice_get, IfOk, OnOk};
ghost use Rattle.scene_edits.specs.declared.scenes.TheConstants.{MOST_AGENTS};
ghost use Rattle.solver_check.specs.CheckEdits.{adds_of, cell_given, edits_of, goal_in, paths_from, start_in};

use grid_cells::{Agent, Cell, List, OutOfMemory};
use path_files::SolverPaths;
use scene_edits::Edit;
use std::alloc::Global;

/// The agent of that number.
pub(crate) fn agent_of(number: usize) -> Agent
    requires { number < MOST_AGENTS }
    ensures { result ≡ number }
{
    match Agent::new(number as u32) {
        Some(agent) => agent,
        None => unreachable!(),
    }
}

// The agent's cell in a list of the text's, or else the cell of its path at that index.
fn cell_in(list: &Option<List<Cell>>, agent: usize, path: &[Cell], at: usize) -> Option<Cell>
    ensures { result ≡ cell_given list.now agent path.now at }
{
    let listed = match list {
        Some(cells) => cells.items().get(agent).copied(),
        None => None,
    };
    match listed {
        Some(cell) => Some(cell),
        None => path.get(at).copied(),
    }
}

/// Where the agent with that path starts: where the text says, or where its path begins.
pub(crate) fn start_in(spelled: &SolverPaths, agent: usize, path: &[Cell]) -> Option<Cell>
    ensures { result ≡ start_in spelled.now agent path.now }
{
    cell_in(&spelled.starts, agent, path, 0)
}

/// Its goal: what the text says, or where its path ends.
pub(crate) fn goal_in(spelled: &SolverPaths, agent: usize, path: &[Cell]) -> Option<Cell>
    ensures { result ≡ goal_in spelled.now agent path.now }
{
    cell_in(&spelled.goals, agent, path, path.len().saturating_sub(1))
}

// Adds the agents, each with its start and goal.
fn adds_of(alloc: Global, spelled: &SolverPaths) -> Result<Vec<Edit>, OutOfMemory>
    requires { length spelled.now.paths ≤ MOST_AGENTS }
    ensures { IfOk result (λ edits. edits.items ≡ adds_of spelled.now) }
{
    let mut edits = Vec::new(alloc);
    for (number, path) in spelled.paths.items().iter().enumerate() {
        let cells = path.items();
        let ends = (
            start_in(spelled, number, cells),
            goal_in(spelled, number, cells),
        );
        if let (Some(start), Some(goal)) = ends {
            let agent = agent_of(number);
            edits.push(Edit::Add { agent, start, goal })?;
        }
    }
    Ok(edits)
}

// Behind other edits, the paths of the agents from 0 on.
fn add_paths(edits: &mut Vec<Edit>, paths: Vec<List<Cell>>) -> Result<(), OutOfMemory>
    requires { length paths.items ≤ MOST_AGENTS }
    ensures { OnOk result (edits.new.items ≡ edits.old.items ++ paths_from 0 paths.items) }
{
    let mut number = 0;
    for cells in paths {
        let agent = agent_of(number);
        edits.push(Edit::Path { agent, cells })?;
        number += 1;
    }
    Ok(())
}

/// The edits that the paths ask for: the agents' paths, on a bare map after the agents.
///
/// # Errors
/// Want of memory.
pub(crate) fn edits_of(
    alloc: Global,
    spelled: SolverPaths,
    bare: bool,
) -> Result<List<Edit>, OutOfMemory>
    requires { length spelled.paths ≤ MOST_AGENTS }
    ensures { IfOk result (λ edits. edits ≡ edits_of bare spelled) }
{
    let mut edits = if bare {
        adds_of(alloc, &spelled)?
    } else {
        Vec::new(alloc)
    };
    add_paths(&mut edits, spelled.paths.into_items())?;
    Ok(List::new(edits))
}
