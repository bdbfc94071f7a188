//! Texts of paths that aren't read to their end, and have a verdict.
ghost use Rattle.std.specs.Prelude.{◌≡◌, IfOk, IfErr, unwrap_or};
ghost use Rattle.scene_edits.specs.Scene.{SceneState};
ghost use Rattle.solver_check.specs.CheckFaults.{of_run};
ghost use Rattle.solver_check.specs.Opens.{Opens, IsOpenFault, bytes_of};
ghost use Rattle.solver_check.specs.Unread.{verdict_by, verdict_unread};

use crate::checks::faults::CheckFault;
use crate::checks::judging::Verdict;
use crate::faults::RunFault;
use crate::scenes::{Problem, scene_of};
use path_files::PathsFault;
use std::alloc::Global;

// The verdict on a text of that fault, where it has one.
fn verdict_unread(fault: PathsFault) -> Option<Verdict>
    ensures { result ≡ verdict_unread fault }
{
    match fault {
        PathsFault::NoPaths => Some(Verdict::NoPaths),
        PathsFault::RepeatedList { line } => Some(Verdict::Repeated { line }),
        _ => None,
    }
}

/// The verdict on a text of paths for that fault, where it has one.
pub(crate) fn verdict_by(fault: &CheckFault) -> Option<Verdict>
    ensures { result ≡ verdict_by fault.now }
{
    match fault {
        CheckFault::Paths(why) => verdict_unread(*why),
        _ => None,
    }
}

/// That verdict, where the map and the tasks make a scene.
///
/// # Errors
///
/// The first fault of the map, the scenario and the tasks, or want of memory.
pub(crate) fn told_unread(
    alloc: Global,
    problem: Problem<'_>,
    verdict: Verdict,
) -> Result<Verdict, CheckFault>
    ensures ok { IfOk result (λ told. (told ≡ verdict) × ((opened : SceneState) × Opens problem.entry.map.now (bytes_of problem.entry.scen)
        (unwrap_or problem.entry.agents 0) problem.entry.mode opened)) }
    ensures err { IfErr result (λ fault. (why : RunFault) × (fault ≡ of_run why) × IsOpenFault problem.entry.map.now (bytes_of problem.entry.scen)
        (unwrap_or problem.entry.agents 0) why) }
{
    match scene_of(alloc, problem) {
        Ok(scene) => {
            drop(scene);
            Ok(verdict)
        }
        Err(fault) => {
            drop(verdict);
            Err(CheckFault::from(fault))
        }
    }
}
