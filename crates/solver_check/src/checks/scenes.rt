//! The scene that a text of paths makes.
ghost use Rattle.std.specs.Prelude.{◌≡◌, ◌≤◌, length, is_none, IfOk, IfErr, OnOk};
ghost use Rattle.scene_edits.specs.InOrder.{edited_all, AreAllowed};
ghost use Rattle.scene_edits.specs.declared.scenes.TheConstants.{MOST_AGENTS};
ghost use Rattle.solver_check.specs.CheckEdits.{edits_of, edits_within, IsOfPaths, of_agents};
ghost use Rattle.solver_check.specs.CheckFaults.{IsPlanFault, IsRefused, IsUnopened, Spells, TellsFault};
ghost use Rattle.solver_check.specs.Checks.{IsPlanned};
ghost use Rattle.solver_check.specs.Opens.{bytes_of};

use crate::checks::edits::edits_of;
use crate::checks::faults::CheckFault;
use crate::checks::setting_out::begun;
use crate::checks::times::time_of;
use crate::scenes::{Problem, scene_of};
use grid_cells::{List, OutOfMemory, Size};
use path_files::{Form, PathsFault, SolverPaths, read_paths};
use scene_edits::{Edit, EditFault, EditsFault, Scene};
use std::alloc::Global;
use std::mem;

// The fault of an agent, or of a path.
fn refusal_of(size: Size, edit: &Edit, why: EditFault) -> CheckFault
    requires { IsOfPaths edit.now }
    ensures { TellsFault size edit.now why result }
{
    match edit {
        Edit::Add { agent, .. } => CheckFault::Agent { agent: *agent, why },
        Edit::Path { agent, cells } => CheckFault::Path {
            agent: *agent,
            time: time_of(size, cells.items(), why),
            why,
        },
        _ => unreachable!(),
    }
}

// Keeps what the text spells of the agents that there are: on a bare map all, else of the scene's.
fn keep_agents(alloc: Global, scene: &Scene, bare: bool, spelled: &mut SolverPaths)
    requires { length spelled.old.paths ≤ MOST_AGENTS }
    ensures is { spelled.new ≡ of_agents bare scene.now spelled.old }
    ensures few { length spelled.new.paths ≤ MOST_AGENTS }
{
    if !bare {
        let count = scene.plans().count() as usize;
        let mut paths = mem::replace(&mut spelled.paths, List::new(Vec::new(alloc))).into_items();
        paths.truncate(count);
        spelled.paths = List::new(paths);
    }
}

// Gives the scene the paths, and on a bare map the agents before them, unless it refuses one.
fn plan(
    alloc: Global,
    scene: &mut Scene,
    spelled: SolverPaths,
    bare: bool,
) -> Result<(), CheckFault>
    requires { length spelled.paths ≤ MOST_AGENTS }
    ensures ok { OnOk result (AreAllowed scene.old (edits_of bare spelled) × (scene.new ≡ edited_all scene.old (edits_of bare spelled))) }
    ensures err { IfErr result (IsRefused scene.old (edits_of bare spelled)) }
{
    let edits = match edits_of(alloc, spelled, bare) {
        Ok(edits) => edits,
        Err(OutOfMemory) => return Err(CheckFault::OutOfMemory),
    };
    let edits = edits.items();
    match scene.apply_all(edits) {
        Ok(_) => Ok(()),
        Err(EditsFault::OutOfMemory) => Err(CheckFault::OutOfMemory),
        Err(EditsFault::Faulty { index, why }) => {
            Err(refusal_of(scene.grid().size(), &edits[index], why))
        }
    }
}

/// Gives the scene the paths of the agents that there are, and on a bare map these before them.
///
/// # Errors
/// The first agent or path that the scene refuses, or want of memory.
pub(crate) fn plan_agents(
    alloc: Global,
    scene: &mut Scene,
    spelled: SolverPaths,
    bare: bool,
) -> Result<(), CheckFault>
    requires { length spelled.paths ≤ MOST_AGENTS }
    ensures ok { OnOk result (AreAllowed scene.old (edits_within bare scene.old spelled)
        × (scene.new ≡ edited_all scene.old (edits_within bare scene.old spelled))) }
    ensures err { IfErr result (IsRefused scene.old (edits_within bare scene.old spelled)) }
{
    let mut kept = spelled;
    keep_agents(alloc, scene, bare, &mut kept);
    plan(alloc, scene, kept, bare)
}

/// What a text of paths spells, and the scene that it is judged on.
#[derive(Drop)]
pub(crate) struct Opened {
    pub(crate) spelled: SolverPaths,
    pub(crate) scene: Scene,
}

// Whether there is no scenario.
fn is_bare(problem: Problem<'_>) -> bool
    ensures { result ≡ is_none (bytes_of problem.entry.scen) }
{
    match problem.scen {
        Some(_) => false,
        None => true,
    }
}

/// What a text of paths spells, and the scene of a problem, with as many agents as there are paths
/// unless their number is told.
///
/// # Errors
/// The first fault of the text of paths, the map, the scenario and the tasks, or want of memory.
pub(crate) fn open(
    alloc: Global,
    problem: Problem<'_>,
    paths: &[u8],
    form: Option<Form>,
) -> Result<Opened, CheckFault>
    ensures ok { IfOk result (λ opened. Spells problem.entry.map.now (bytes_of problem.entry.scen) problem.entry.agents problem.entry.mode
        paths.now form opened.spelled opened.scene) }
    ensures few { IfOk result (λ opened. length opened.spelled.paths ≤ MOST_AGENTS) }
    ensures err { IfErr result (IsUnopened problem.entry.map.now (bytes_of problem.entry.scen) problem.entry.agents paths.now form) }
{
    let spelled = match read_paths(alloc, paths, form, is_bare(problem)) {
        Ok(spelled) => spelled,
        Err(PathsFault::OutOfMemory) => return Err(CheckFault::OutOfMemory),
        Err(fault) => return Err(CheckFault::Paths(fault)),
    };
    let tasks = problem.agents.unwrap_or(spelled.paths.items().len() as u32);
    let counted = Problem {
        agents: Some(tasks),
        ..problem
    };
    let scene = match scene_of(alloc, counted) {
        Ok(scene) => scene,
        Err(fault) => {
            drop(spelled);
            return Err(CheckFault::from(fault));
        }
    };
    match begun(alloc, &scene, spelled) {
        Ok(spelled) => Ok(Opened { spelled, scene }),
        Err(OutOfMemory) => {
            drop(scene);
            Err(CheckFault::OutOfMemory)
        }
    }
}

/// The scene of a problem, with the paths of a text and, where there is no scenario, their agents.
///
/// # Errors
///
/// The first fault of the text of paths, the map, the scenario, the tasks, the agents and the paths,
/// or want of memory.
pub fn planned_scene(
    alloc: Global,
    problem: Problem<'_>,
    paths: &[u8],
    form: Option<Form>,
) -> Result<Scene, CheckFault>
    ensures ok { IfOk result (IsPlanned problem.entry.map.now (bytes_of problem.entry.scen) problem.entry.agents problem.entry.mode paths.now form) }
    ensures err { IfErr result (IsPlanFault problem.entry.map.now (bytes_of problem.entry.scen) problem.entry.agents problem.entry.mode paths.now form) }
{
    let Opened { spelled, mut scene } = match open(alloc, problem, paths, form) {
        Ok(opened) => opened,
        Err(fault) => return Err(fault),
    };
    match plan(alloc, &mut scene, spelled, problem.scen.is_none()) {
        Ok(()) => Ok(scene),
        Err(fault) => {
            drop(scene);
            Err(fault)
        }
    }
}
