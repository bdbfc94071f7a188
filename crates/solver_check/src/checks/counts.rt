//! Where a text of paths has other numbers than the problem, or than itself.
ghost use Rattle.std.specs.Prelude.{◌≡◌, ◌++◌, OnOk};
ghost use Rattle.solver_check.specs.Differences.{agents_apart, agents_due, counts_apart, goals_uneven, paths_apart, starts_uneven};

use crate::checks::differences::{Difference, add};
use grid_cells::{Cell, List, OutOfMemory};
use path_files::SolverPaths;
use scene_edits::Scene;

// How many agents there are: those of the tasks, or on a bare map one for each path.
fn agents_due(scene: &Scene, spelled: &SolverPaths, bare: bool) -> usize
    ensures { result ≡ agents_due bare scene.now spelled.now }
{
    if bare {
        spelled.paths.items().len()
    } else {
        scene.plans().count() as usize
    }
}

// How many paths and agents there are, where they aren't as many.
fn paths_apart(paths: usize, agents: usize) -> Option<Difference>
    ensures { result ≡ paths_apart paths agents }
{
    if paths == agents {
        None
    } else {
        Some(Difference::Paths { paths, agents })
    }
}

// The number of agents that is told, where it is another.
fn agents_apart(listed: Option<u32>, agents: usize) -> Option<Difference>
    ensures { result ≡ agents_apart listed agents }
{
    let listed = listed?;
    if listed as usize == agents {
        None
    } else {
        Some(Difference::Agents { listed, agents })
    }
}

// How many starts are listed, where there are not as many as paths.
fn starts_uneven(starts: &Option<List<Cell>>, paths: usize) -> Option<Difference>
    ensures { result ≡ starts_uneven starts.now paths }
{
    let listed = starts.as_ref()?.items().len();
    if listed == paths {
        None
    } else {
        Some(Difference::Starts { listed, paths })
    }
}

// How many goals are listed, where there are not as many as paths.
fn goals_uneven(goals: &Option<List<Cell>>, paths: usize) -> Option<Difference>
    ensures { result ≡ goals_uneven goals.now paths }
{
    let listed = goals.as_ref()?.items().len();
    if listed == paths {
        None
    } else {
        Some(Difference::Goals { listed, paths })
    }
}

/// Adds the numbers that differ: of paths, of agents, of starts and of goals.
///
/// # Errors
/// Want of memory.
pub(crate) fn add_counts(
    found: &mut Vec<Difference>,
    scene: &Scene,
    spelled: &SolverPaths,
    bare: bool,
) -> Result<(), OutOfMemory>
    ensures { OnOk result (found.new.items ≡ found.old.items ++ counts_apart bare scene.now spelled.now) }
{
    let paths = spelled.paths.items().len();
    let agents = agents_due(scene, spelled, bare);
    add(found, paths_apart(paths, agents))?;
    add(found, agents_apart(spelled.agents, agents))?;
    add(found, starts_uneven(&spelled.starts, paths))?;
    add(found, goals_uneven(&spelled.goals, paths))
}
