ghost use Rattle.std.specs.Prelude.{IfOk, IfErr, unwrap_or};
ghost use Rattle.solver_check.specs.Opens.{Opens, IsOpenFault, bytes_of};

use crate::faults::RunFault;
use bench_reader::{read_map, read_scen};
use plan_table::Mode;
use scene_edits::Scene;
use std::alloc::Global;

/// What a scene is made of: a map, a scenario, how many agents have its first tasks, and a mode.
#[derive(Clone, Copy)]
pub struct Problem<'t> {
    pub map: &'t [u8],
    pub scen: Option<&'t [u8]>,
    /// Without a number there are as many as a solver's paths, or else none.
    pub agents: Option<u32>,
    pub mode: Mode,
}

/// The scene of a map in a mode, with the agents of the first tasks of a scenario.
///
/// # Errors
///
/// The first fault of the map, the scenario and the tasks, or want of memory.
pub fn scene_of(alloc: Global, problem: Problem<'_>) -> Result<Scene, RunFault>
    ensures opened { IfOk result (Opens problem.entry.map.now (bytes_of problem.entry.scen) (unwrap_or problem.entry.agents 0) problem.entry.mode) }
    ensures refused { IfErr result (IsOpenFault problem.entry.map.now (bytes_of problem.entry.scen) (unwrap_or problem.entry.agents 0)) }
{
    let Problem {
        map,
        scen,
        agents,
        mode,
    } = problem;
    let agents = agents.unwrap_or(0);
    let grid = match read_map(alloc, map) {
        Ok(grid) => grid,
        Err(fault) => return Err(RunFault::Map(fault).as_told()),
    };
    let Some(scen) = scen else {
        return Ok(Scene::bare(alloc, grid).with_mode(mode));
    };
    let tasks = match read_scen(alloc, scen, grid.size()) {
        Ok(tasks) => tasks,
        Err(fault) => {
            drop(grid);
            return Err(RunFault::Scen(fault).as_told());
        }
    };
    let made = Scene::with_tasks(alloc, grid, tasks.items(), agents);
    drop(tasks);
    match made {
        Ok(scene) => Ok(scene.with_mode(mode)),
        Err((fault, grid)) => {
            drop(grid);
            Err(RunFault::Tasks(fault).as_told())
        }
    }
}
