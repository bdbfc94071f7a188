ghost use Rattle.std.specs.Prelude.{IfOk, IfErr, unwrap_or};
ghost use Rattle.single_runs.specs.Opened.{OpensDesk, IsDeskFault, ReplaysAs};
ghost use Rattle.solver_check.specs.Opens.{bytes_of};

use desk_core::{Desk, Limit, replay};
use journal_text::read_journal;
use scene_edits::Scene;
use solver_check::{Problem, RunFault, scene_of};
use std::alloc::Global;

/// The desk that is opened on the scene of a problem, and commits a journal's entries. The limit is
/// of all its entries, the journal's among them.
///
/// # Errors
///
/// The first fault of the map, the scenario, the tasks and the journal, or want of memory.
pub fn open_desk(
    alloc: Global,
    problem: Problem<'_>,
    limit: Limit,
    journal: Option<&[u8]>,
) -> Result<Desk, RunFault>
    ensures opened { IfOk result (OpensDesk problem.entry.map.now (bytes_of problem.entry.scen) (unwrap_or problem.entry.agents 0) problem.entry.mode
        limit (bytes_of journal.entry)) }
    ensures refused { IfErr result (IsDeskFault problem.entry.map.now (bytes_of problem.entry.scen) (unwrap_or problem.entry.agents 0) problem.entry.mode
        limit (bytes_of journal.entry)) }
{
    match scene_of(alloc, problem) {
        Ok(scene) => replayed(alloc, scene, limit, journal),
        Err(fault) => Err(fault),
    }
}

/// The desk that `open_desk` opens, which from there on keeps so many changes of its report.
///
/// # Errors
///
/// As `open_desk`.
pub fn open_keeping(
    alloc: Global,
    problem: Problem<'_>,
    limit: Limit,
    journal: Option<&[u8]>,
    history: u32,
) -> Result<Desk, RunFault>
    ensures opened { IfOk result (OpensDesk problem.entry.map.now (bytes_of problem.entry.scen) (unwrap_or problem.entry.agents 0) problem.entry.mode
        limit (bytes_of journal.entry)) }
    ensures refused { IfErr result (IsDeskFault problem.entry.map.now (bytes_of problem.entry.scen) (unwrap_or problem.entry.agents 0) problem.entry.mode
        limit (bytes_of journal.entry)) }
{
    match open_desk(alloc, problem, limit, journal) {
        Ok(mut desk) => {
            desk.keep_history(history as usize);
            Ok(desk)
        }
        Err(fault) => Err(fault),
    }
}

// The desk that is opened on the scene and commits the entries of a journal's text.
fn replayed(
    alloc: Global,
    scene: Scene,
    limit: Limit,
    journal: Option<&[u8]>,
) -> Result<Desk, RunFault>
    ensures { ReplaysAs (bytes_of journal.entry) scene limit result }
{
    let Some(text) = journal else {
        return Ok(Desk::open(alloc, scene, limit));
    };
    let journal = match read_journal(alloc, text) {
        Ok(journal) => journal,
        Err(fault) => {
            drop(scene);
            return Err(RunFault::from(fault));
        }
    };
    match replay(alloc, scene, limit, journal) {
        Ok(desk) => Ok(desk),
        Err(fault) => Err(RunFault::Replay(fault).as_told()),
    }
}
