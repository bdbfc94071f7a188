ghost use Rattle.std.specs.Prelude.{◌≡◌, ◌≤◌, ◌||◌, length, unwrap_or, IfErr, IfOk};
ghost use Rattle.shared_runs.specs.DrillFaults.{FailsDrill, FailsUnwritten};
ghost use Rattle.shared_runs.specs.Drills.{ComesTo, Drills, inputs_of, texts_of};
ghost use Rattle.solver_check.specs.Faults.{is_run_write_fault};
ghost use Rattle.solver_check.specs.Opens.{bytes_of};

use crate::hearing::AtGate;
use crate::reporting::put_drill;
use crate::scripts::serve_scripts;
use crate::serving::{First, Serving, Spoken};
use crate::sharing::{end_sharing, last_report, share};
use desk_audit::Gate;
use desk_core::Reading;
use desk_report::{Report, Sink, WriteFailed};
use plan_table::Mode;
use session_protocol::LinesVersion;
use solver_check::{Hearing, Problem, RunFault, is_same, scene_of};
use std::alloc::Global;
use std::sync::Wait;
use std::thread::Threads;
use std::time::Clock;

/// The most scripts of a drill.
pub const MOST_SCRIPTS: usize = 255;

/// No changes are kept, since no line of version 1 asks for them.
const NO_HISTORY: u32 = 0;

/// Serves scripts of planners at once, each in a thread of its own, over one shared desk of the
/// scene of a map and the agents of the first tasks of a scenario. Writes the version and the
/// report of a last reading, and whether an audit of the closed desk, by so many threads, gives the
/// same report, which it answers. The scripts' answers aren't kept. Each script's thread begins at
/// the gate, with the script's number from 0.
///
/// # Errors
///
/// Too many scripts; the first fault of the map, the scenario and the tasks; the fault of the first
/// script that has one; the desk is lost; want of memory; or a fault of the writer.
pub fn run_drill<R: Threads + Wait + Sync, G: Gate, W: Sink>(
    rt: &R,
    alloc: Global,
    map: &[u8],
    scen: Option<&[u8]>,
    agents: u32,
    mode: Mode,
    workers: u32,
    scripts: Vec<Vec<u8>>,
    gate: &G,
    writer: &mut W,
) -> Result<bool, RunFault>
    requires workers { (1 ≤ workers) × (workers ≤ 64) }
    ensures drilled { IfOk result (Drills map.now (bytes_of scen.entry) agents mode (texts_of scripts.items) (W.held writer.old) (W.held writer.new)) }
    ensures refused { IfErr result (FailsDrill map.now (bytes_of scen.entry) agents mode (texts_of scripts.items) (W.held writer.old) (W.held writer.new)) }
    ensures broken { W.broken writer.new ≡ (W.broken writer.old || is_run_write_fault result) }
{
    let problem = Problem {
        map,
        scen,
        agents: Some(agents),
        mode,
    };
    drill(
        rt,
        alloc,
        problem,
        workers,
        NO_HISTORY,
        scripts,
        &AtGate { gate },
        &First,
        writer,
    )
}

/// Runs a drill as `run_drill` does, in that version of lines, over a desk that keeps so many changes of
/// its report, with someone who goes along: they are told when each script's thread begins, by its
/// number from 0, and hear the first word of each line that it is answered.
///
/// # Errors
///
/// As `run_drill`.
pub fn hear_drill<R: Threads + Wait + Clock + Sync, H: Hearing + Sync, W: Sink>(
    rt: &R,
    alloc: Global,
    problem: Problem<'_>,
    workers: u32,
    version: LinesVersion,
    history: u32,
    scripts: Vec<Vec<u8>>,
    hearing: &H,
    writer: &mut W,
) -> Result<bool, RunFault>
    requires workers { (1 ≤ workers) × (workers ≤ 64) }
    ensures drilled { IfOk result (Drills problem.entry.map.now (bytes_of problem.entry.scen) (unwrap_or problem.entry.agents 0) problem.entry.mode
        (inputs_of version scripts.items) (W.held writer.old) (W.held writer.new)) }
    ensures refused { IfErr result (FailsDrill problem.entry.map.now (bytes_of problem.entry.scen) (unwrap_or problem.entry.agents 0) problem.entry.mode
        (inputs_of version scripts.items) (W.held writer.old) (W.held writer.new)) }
    ensures broken { W.broken writer.new ≡ (W.broken writer.old || is_run_write_fault result) }
{
    let spoken = Spoken { version };
    drill(
        rt, alloc, problem, workers, history, scripts, hearing, &spoken, writer,
    )
}

// Runs a drill of scripts that are served so, with someone who goes along.
fn drill<R: Threads + Wait + Sync, H: Hearing + Sync, P: Serving<R>, W: Sink>(
    rt: &R,
    alloc: Global,
    problem: Problem<'_>,
    workers: u32,
    history: u32,
    scripts: Vec<Vec<u8>>,
    hearing: &H,
    serving: &P,
    writer: &mut W,
) -> Result<bool, RunFault>
    requires workers { (1 ≤ workers) × (workers ≤ 64) }
    ensures drilled { IfOk result (Drills problem.entry.map.now (bytes_of problem.entry.scen) (unwrap_or problem.entry.agents 0) problem.entry.mode
        (inputs_of (P.version serving.now) scripts.items) (W.held writer.old) (W.held writer.new)) }
    ensures refused { IfErr result (FailsDrill problem.entry.map.now (bytes_of problem.entry.scen) (unwrap_or problem.entry.agents 0) problem.entry.mode
        (inputs_of (P.version serving.now) scripts.items) (W.held writer.old) (W.held writer.new)) }
    ensures broken { W.broken writer.new ≡ (W.broken writer.old || is_run_write_fault result) }
{
    if scripts.len() > MOST_SCRIPTS {
        drop(scripts);
        return Err(RunFault::TooManyScripts);
    }
    let texts = scripts.as_slice();
    let ended = drilled(
        rt, alloc, problem, workers, history, texts, hearing, serving,
    );
    drop(scripts);
    let (reading, same) = match ended {
        Ok(end) => end,
        Err(fault) => return Err(fault),
    };
    let put = put_drill(writer, &reading, same);
    drop(reading);
    match put {
        Ok(()) => Ok(same),
        Err(WriteFailed) => Err(RunFault::WriteFailed),
    }
}

// Serves the scripts; gives the last reading, and whether the audit's report is the same.
fn drilled<R: Threads + Wait + Sync, H: Hearing + Sync, P: Serving<R>>(
    rt: &R,
    alloc: Global,
    problem: Problem<'_>,
    workers: u32,
    history: u32,
    scripts: &[Vec<u8>],
    hearing: &H,
    serving: &P,
) -> Result<(Reading, bool), RunFault>
    requires workers { (1 ≤ workers) × (workers ≤ 64) }
    requires few { length scripts.now ≤ MOST_SCRIPTS }
    ensures drilled { IfOk result (λ end. ComesTo problem.entry.map.now (bytes_of problem.entry.scen) (unwrap_or problem.entry.agents 0) problem.entry.mode
        (inputs_of (P.version serving.now) scripts.now) end.0 end.1) }
    ensures refused { IfErr result (FailsUnwritten problem.entry.map.now (bytes_of problem.entry.scen) (unwrap_or problem.entry.agents 0) problem.entry.mode
        (inputs_of (P.version serving.now) scripts.now)) }
{
    let scene = match scene_of(alloc, problem) {
        Ok(scene) => scene,
        Err(fault) => return Err(fault),
    };
    let (shared, first) = share(alloc, scene, scripts.len() as u32 + 1, history)?;
    let (first, ended) = serve_scripts(rt, alloc, &shared, first, scripts, hearing, serving);
    match ended {
        Ok(()) => {}
        Err(fault) => {
            drop(first);
            drop(shared);
            return Err(fault);
        }
    }
    let (reading, desk) = end_sharing(rt, shared, first)?;
    let Ok(audited) = last_report(rt, alloc, desk, workers) else {
        drop(reading);
        return Err(RunFault::OutOfMemory);
    };
    let same = is_same(&reading.report, &audited);
    drop(audited);
    Ok((reading, same))
}
