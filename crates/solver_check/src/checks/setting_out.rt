//! Paths of moves, which begin at their agents' starts.
ghost use Rattle.std.specs.Prelude.{◌≡◌, ◌≤◌, length, IfOk};
ghost use Rattle.scene_edits.specs.declared.scenes.TheConstants.{MOST_AGENTS};
ghost use Rattle.solver_check.specs.CheckEdits.{begun, begun_from, begun_path};

use crate::checks::edits::agent_of;
use crate::checks::wrongs::start_of;
use grid_cells::{Cell, List, OutOfMemory};
use path_files::{SolverPaths, is_relative, set_out};
use scene_edits::Scene;
use std::alloc::Global;

// A path of moves, set out from its agent's start, where there is one.
fn begun_path(
    alloc: Global,
    start: Option<Cell>,
    path: List<Cell>,
) -> Result<List<Cell>, OutOfMemory>
    ensures { IfOk result (λ cells. cells ≡ begun_path start path) }
{
    let Some(start) = start else {
        return Ok(path);
    };
    let cells = set_out(alloc, start, path.items());
    drop(path);
    cells
}

// The paths of moves, set out from their agents' starts.
fn begun_paths(
    alloc: Global,
    scene: &Scene,
    paths: List<List<Cell>>,
) -> Result<List<List<Cell>>, OutOfMemory>
    requires { length paths ≤ MOST_AGENTS }
    ensures is { IfOk result (λ begun. begun ≡ begun_from scene.now 0 paths) }
    ensures few { IfOk result (λ begun. length begun ≤ MOST_AGENTS) }
{
    let mut begun = Vec::new(alloc);
    let mut number = 0;
    for path in paths.into_items() {
        let start = start_of(scene, agent_of(number));
        begun.push(begun_path(alloc, start, path)?)?;
        number += 1;
    }
    Ok(List::new(begun))
}

/// What the text spells, where paths of moves begin at their agents' starts.
///
/// # Errors
/// Want of memory.
pub(crate) fn begun(
    alloc: Global,
    scene: &Scene,
    spelled: SolverPaths,
) -> Result<SolverPaths, OutOfMemory>
    requires { length spelled.paths ≤ MOST_AGENTS }
    ensures is { IfOk result (λ done. done ≡ begun scene.now spelled) }
    ensures few { IfOk result (λ done. length done.paths ≤ MOST_AGENTS) }
{
    if !is_relative(spelled.form) {
        return Ok(spelled);
    }
    let SolverPaths {
        form,
        starts,
        goals,
        agents,
        paths,
    } = spelled;
    let paths = begun_paths(alloc, scene, paths)?;
    Ok(SolverPaths {
        form,
        starts,
        goals,
        agents,
        paths,
    })
}
