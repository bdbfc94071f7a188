//! Where a text of paths differs from the problem, or from itself.
ghost use Rattle.std.specs.Prelude.{◌≡◌, ◌++◌, ◌≤◌, IfOk, OnOk, length};
ghost use Rattle.std.specs.Option.{option_to_list};
ghost use Rattle.scene_edits.specs.declared.scenes.TheConstants.{MOST_AGENTS};
ghost use Rattle.solver_check.specs.Differences.{differences_of, ends_apart, goal_apart, goal_of, listed_for, start_apart};

use crate::checks::counts::add_counts;
use crate::checks::edits::agent_of;
use crate::checks::wrongs::{is_same, start_of};
use grid_cells::{Agent, Cell, List, OutOfMemory};
use path_files::SolverPaths;
use scene_edits::Scene;
use std::alloc::Global;

/// Where a text of paths differs from the problem, or from itself.
#[derive(Clone, Copy)]
pub(crate) enum Difference {
    /// There are more or fewer paths than agents.
    Paths {
        paths: usize,
        agents: usize,
    },
    /// The text tells another number of agents than there are.
    Agents {
        listed: u32,
        agents: usize,
    },
    /// It lists more or fewer starts than paths.
    Starts {
        listed: usize,
        paths: usize,
    },
    /// It lists more or fewer goals than paths.
    Goals {
        listed: usize,
        paths: usize,
    },
    /// The agent's start by the list of starts, and by the scenario.
    Start {
        agent: Agent,
        listed: Cell,
        due: Cell,
    },
    /// Its goal by the list of goals, and by the scenario.
    Goal {
        agent: Agent,
        listed: Cell,
        due: Cell,
    },
}

// The agent's cell in a list of the text's.
fn listed_for(list: &Option<List<Cell>>, agent: Agent) -> Option<Cell>
    ensures { result ≡ listed_for list.now agent }
{
    match list {
        Some(cells) => cells.items().get(agent.number() as usize).copied(),
        None => None,
    }
}

// The agent's goal.
fn goal_of(scene: &Scene, agent: Agent) -> Option<Cell>
    ensures { result ≡ goal_of scene.now agent }
{
    Some(scene.plans().row(agent)?.goal)
}

// The starts, where they aren't one.
fn start_apart(agent: Agent, listed: Option<Cell>, due: Option<Cell>) -> Option<Difference>
    ensures { result ≡ start_apart agent listed due }
{
    let (listed, due) = (listed?, due?);
    if is_same(listed, due) {
        None
    } else {
        Some(Difference::Start { agent, listed, due })
    }
}

// The goals, where they aren't one.
fn goal_apart(agent: Agent, listed: Option<Cell>, due: Option<Cell>) -> Option<Difference>
    ensures { result ≡ goal_apart agent listed due }
{
    let (listed, due) = (listed?, due?);
    if is_same(listed, due) {
        None
    } else {
        Some(Difference::Goal { agent, listed, due })
    }
}

/// Adds what there is.
///
/// # Errors
/// Want of memory.
pub(crate) fn add(
    found: &mut Vec<Difference>,
    difference: Option<Difference>,
) -> Result<(), OutOfMemory>
    ensures { OnOk result (found.new.items ≡ found.old.items ++ option_to_list difference) }
{
    match difference {
        Some(difference) => Ok(found.push(difference)?),
        None => Ok(()),
    }
}

// Adds where the agent's start and goal by the lists differ from those of the scene.
fn add_ends(
    found: &mut Vec<Difference>,
    scene: &Scene,
    spelled: &SolverPaths,
    agent: Agent,
) -> Result<(), OutOfMemory>
    ensures { OnOk result (found.new.items ≡ found.old.items ++ ends_apart scene.now spelled.now agent) }
{
    let (start, goal) = (
        listed_for(&spelled.starts, agent),
        listed_for(&spelled.goals, agent),
    );
    add(found, start_apart(agent, start, start_of(scene, agent)))?;
    add(found, goal_apart(agent, goal, goal_of(scene, agent)))
}

/// Where the text of paths differs from the scene of the map and the tasks: whether it has more or
/// fewer paths, tells another number of agents, or lists more or fewer starts or goals than paths;
/// and by agent each start and goal that it lists otherwise, which on a bare map it doesn't.
///
/// # Errors
/// Want of memory.
pub(crate) fn differences_of(
    alloc: Global,
    scene: &Scene,
    spelled: &SolverPaths,
    bare: bool,
) -> Result<Vec<Difference>, OutOfMemory>
    requires { length spelled.now.paths ≤ MOST_AGENTS }
    ensures { IfOk result (λ found. found.items ≡ differences_of bare scene.now spelled.now) }
{
    let mut found = Vec::new(alloc);
    add_counts(&mut found, scene, spelled, bare)?;
    for (number, _) in spelled.paths.items().iter().enumerate() {
        add_ends(&mut found, scene, spelled, agent_of(number))?;
    }
    Ok(found)
}
