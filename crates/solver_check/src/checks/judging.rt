//! What is said of a text of paths.
ghost use Rattle.std.specs.Prelude.{◌≡◌, ◌⊎◌, ◌≤◌, ◌↔◌, [], IfOk, IfErr, IsTrue, length};
ghost use Rattle.desk_report.specs.Solves.{Solves};
ghost use Rattle.scene_edits.specs.declared.scenes.TheConstants.{MOST_AGENTS};
ghost use Rattle.solver_check.specs.CheckEdits.{edits_within};
ghost use Rattle.solver_check.specs.CheckFaults.{IsRefused, IsUnjudged};
ghost use Rattle.solver_check.specs.Differences.{differences_of};
ghost use Rattle.solver_check.specs.Opens.{bytes_of};
ghost use Rattle.solver_check.specs.Verdicts.{IsJudged, IsOn, IsVerdict};
ghost use Rattle.solver_check.specs.Wrongs.{wrongs_of};

use crate::checks::differences::{Difference, differences_of};
use crate::checks::faults::CheckFault;
use crate::checks::scenes::{Opened, open, plan_agents};
use crate::checks::unread::{told_unread, verdict_by};
use crate::checks::wrongs::{Wrong, wrongs_of};
use crate::reporting::Auditor;
use crate::scenes::Problem;
use desk_report::{Kinds, Report};
use grid_cells::{List, OutOfMemory};
use path_files::{Form, SolverPaths};
use scene_edits::Scene;
use std::alloc::Global;

/// What is said of a text of paths.
#[derive(Drop)]
pub(crate) enum Verdict {
    /// It has no paths: the solver found none.
    NoPaths,
    /// That line lists starts, goals or a number of agents, as one before it does.
    Repeated {
        line: usize,
    },
    /// Some of its paths aren't any.
    Wrong {
        wrongs: List<Wrong>,
        differences: List<Difference>,
    },
    /// The report of the scene that its paths make, and whether they solve the problem.
    Judged {
        report: Report,
        differences: List<Difference>,
        solved: bool,
    },
}

// Whether the report, which differs nowhere from the problem, says that this is solved.
fn solves(report: &Report, differences: &[Difference], kinds: Kinds) -> bool
    ensures { IsTrue result ↔ (Solves report.now kinds × (differences.now ≡ [])) }
{
    if differences.is_empty() {
        report.solves(kinds)
    } else {
        false
    }
}

// The verdict on the paths of a scene that they make.
fn judge_scene<A: Auditor>(
    auditor: &A,
    alloc: Global,
    scene: &Scene,
    differences: Vec<Difference>,
    kinds: Kinds,
) -> Result<Verdict, CheckFault>
    ensures ok { IfOk result (IsJudged scene.now differences.items kinds) }
    ensures err { IfErr result (λ fault. fault ≡ CheckFault.OutOfMemory) }
{
    let report = match auditor.report(alloc, scene) {
        Ok(report) => report,
        Err(OutOfMemory) => {
            drop(differences);
            return Err(CheckFault::OutOfMemory);
        }
    };
    let solved = solves(&report, &differences, kinds);
    Ok(Verdict::Judged {
        report,
        differences: List::new(differences),
        solved,
    })
}

// The paths that aren't any, and where the text differs from the problem.
fn findings(
    alloc: Global,
    scene: &Scene,
    spelled: &SolverPaths,
    bare: bool,
) -> Result<(Vec<Wrong>, Vec<Difference>), OutOfMemory>
    requires { length spelled.now.paths ≤ MOST_AGENTS }
    ensures wrongs { IfOk result (λ found. found.0.items ≡ wrongs_of bare scene.now spelled.now) }
    ensures differences { IfOk result (λ found. found.1.items ≡ differences_of bare scene.now spelled.now) }
{
    let differences = differences_of(alloc, scene, spelled, bare)?;
    match wrongs_of(alloc, scene, spelled, bare) {
        Ok(wrongs) => Ok((wrongs, differences)),
        Err(OutOfMemory) => {
            drop(differences);
            Err(OutOfMemory)
        }
    }
}

/// The verdict on the paths of a text, by the kinds of conflicts that are named; the auditor makes the
/// report.
///
/// # Errors
///
/// The first fault of the text of paths, unless it has a verdict by that, the map, the scenario and
/// the tasks; a path that the scene refuses; or want of memory.
pub(crate) fn judge<A: Auditor>(
    auditor: &A,
    alloc: Global,
    problem: Problem<'_>,
    paths: &[u8],
    form: Option<Form>,
    kinds: Kinds,
) -> Result<Verdict, CheckFault>
    ensures ok { IfOk result (IsVerdict problem.entry.map.now (bytes_of problem.entry.scen) problem.entry.agents problem.entry.mode paths.now form kinds) }
    ensures err { IfErr result (IsUnjudged problem.entry.map.now (bytes_of problem.entry.scen) problem.entry.agents problem.entry.mode paths.now form) }
{
    let opened = match open(alloc, problem, paths, form) {
        Ok(opened) => opened,
        Err(fault) => {
            return match verdict_by(&fault) {
                Some(verdict) => told_unread(alloc, problem, verdict),
                None => Err(fault),
            };
        }
    };
    judge_opened(auditor, alloc, opened, problem.scen.is_none(), kinds)
}

// The verdict on paths, on the scene of the map and the tasks.
fn judge_opened<A: Auditor>(
    auditor: &A,
    alloc: Global,
    opened: Opened,
    bare: bool,
    kinds: Kinds,
) -> Result<Verdict, CheckFault>
    requires few { length opened.spelled.paths ≤ MOST_AGENTS }
    ensures ok { IfOk result (IsOn bare opened.spelled opened.scene kinds) }
    ensures err { IfErr result (λ fault. (fault ≡ CheckFault.OutOfMemory) ⊎ ((wrongs_of bare opened.scene opened.spelled ≡ [])
        × IsRefused opened.scene (edits_within bare opened.scene opened.spelled) fault)) }
{
    let Opened { spelled, mut scene } = opened;
    let (wrongs, differences) = match findings(alloc, &scene, &spelled, bare) {
        Ok(found) => found,
        Err(OutOfMemory) => {
            drop(spelled);
            drop(scene);
            return Err(CheckFault::OutOfMemory);
        }
    };
    if !wrongs.is_empty() {
        drop(spelled);
        drop(scene);
        return Ok(Verdict::Wrong {
            wrongs: List::new(wrongs),
            differences: List::new(differences),
        });
    }
    drop(wrongs);
    let judged = match plan_agents(alloc, &mut scene, spelled, bare) {
        Ok(()) => judge_scene(auditor, alloc, &scene, differences, kinds),
        Err(fault) => {
            drop(differences);
            Err(fault)
        }
    };
    drop(scene);
    judged
}
