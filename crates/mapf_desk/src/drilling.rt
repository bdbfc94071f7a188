//! The word `drill`.
ghost use Rattle.std.specs.Prelude.{◌≡◌, [], Err, IfErr, IfOk, unwrap_or};
ghost use Rattle.shared_runs.specs.DrillFaults.{FailsDrill};
ghost use Rattle.shared_runs.specs.Drills.{Drills, inputs_of};
ghost use Rattle.solver_check.specs.Opens.{bytes_of};
ghost use Rattle.mapf_desk.specs.Drilled.{FailsDrillOver, HasDrilled, IsUndrilled, LacksDrillTasks, OfScripts};

use crate::serving::history_for;
use desk_cli::DrillWords;
use desk_io::{
    Folder, More, Noting, Tallies, Texts, all_bytes, finish, problem_of, read_from, tell_stage,
};
use desk_report::{Sink, Spout};
use shared_runs::{Fault, RunFault, hear_drill};
use std::alloc::Global;
use std::io;
use std::io::BufWriter;
use std::sync::Wait;
use std::thread::Threads;
use std::time::Clock;

/// Runs a drill as the words ask for, of the files of a folder, onto standard output, and answers
/// whether the audit's report is the same. Where it is wanted, its stages are told on standard error,
/// and more is known then of the scripts that were served.
///
/// # Errors
///
/// What the words lack, a file that can't be read, or the run's fault.
pub fn drill_files<R: AllocGlobal + Print + Eprint + Threads + Wait + Clock + Sync, F: Folder>(
    rt: &R,
    folder: &F,
    words: &DrillWords,
    stages: bool,
    more: &mut More,
    verbose: bool,
) -> Result<bool, Fault>
    ensures asked { LacksDrillTasks words.now → result ≡ Err Fault.AgentsWithoutScen }
    ensures drilled { IfOk result (λ same. OfScripts (F.holds folder.now) words.now (λ map scen scripts. HasDrilled words.now map scen scripts same)) }
    ensures refused { IfErr result (FailsDrillOver (F.holds folder.now) words.now) }
{
    if words.agents > 0 && words.scen.is_none() {
        return Err(Fault::AgentsWithoutScen);
    }
    tell_stage(rt, stages, "reading the files");
    let named = match read_from(folder, Some(words.map), words.scen, None, None, more) {
        Ok(named) => named,
        Err(fault) => return Err(fault),
    };
    let scripts = match all_bytes(rt.alloc(), folder, words.scripts.as_slice(), more) {
        Ok(scripts) => scripts,
        Err(fault) => {
            drop(named);
            return Err(fault);
        }
    };
    tell_stage(rt, stages, "serving the scripts, and auditing the desk");
    let ended = drill_counted(rt, named.texts(), scripts, words, more, verbose);
    drop(named);
    match ended {
        Ok(same) => Ok(same),
        Err(fault) => Err(Fault::Run(fault)),
    }
}

// Runs a drill of the texts onto standard output. Where it is wanted, what each script was answered
// is counted.
fn drill_counted<R: AllocGlobal + Print + Threads + Wait + Clock + Sync>(
    rt: &R,
    texts: Texts<'_>,
    scripts: Vec<Vec<u8>>,
    words: &DrillWords,
    more: &mut More,
    verbose: bool,
) -> Result<bool, RunFault>
    ensures drilled { IfOk result (HasDrilled words.now (bytes_of texts.entry.map) (bytes_of texts.entry.scen) scripts.items) }
    ensures refused { IfErr result (IsUndrilled words.now (bytes_of texts.entry.map) (bytes_of texts.entry.scen) scripts.items) }
{
    let alloc = rt.alloc();
    let Ok(buffered) = BufWriter::new(alloc, io::writer(rt)) else {
        drop(scripts);
        return Err(RunFault::OutOfMemory);
    };
    let counted = if verbose { scripts.len() } else { 0 };
    let Ok(tallies) = Tallies::new(alloc, counted) else {
        drop(scripts);
        return Err(RunFault::OutOfMemory);
    };
    let mut writer = Spout::new(Noting::new(buffered));
    let drilled = drill_onto(rt, alloc, texts, words, scripts, &tallies, &mut writer);
    let ended = finish(alloc, drilled, texts, writer, more);
    more.served(tallies.lines(alloc, words.scripts.as_slice()).ok());
    ended
}

// Runs a drill of the scripts over the scene of the texts and the words.
fn drill_onto<R: Threads + Wait + Clock + Sync, W: Sink>(
    rt: &R,
    alloc: Global,
    texts: Texts<'_>,
    words: &DrillWords,
    scripts: Vec<Vec<u8>>,
    tallies: &Tallies,
    writer: &mut W,
) -> Result<bool, RunFault>
    ensures drilled { IfOk result (Drills (unwrap_or (bytes_of texts.entry.map) []) (bytes_of texts.entry.scen) words.now.agents words.now.mode
        (inputs_of words.now.lines scripts.items) (W.held writer.old) (W.held writer.new)) }
    ensures refused { IfErr result (FailsDrill (unwrap_or (bytes_of texts.entry.map) []) (bytes_of texts.entry.scen) words.now.agents words.now.mode
        (inputs_of words.now.lines scripts.items) (W.held writer.old) (W.held writer.new)) }
{
    let problem = problem_of(texts, Some(words.agents), words.mode);
    let workers = words.workers.clamp(1, 64);
    hear_drill(
        rt,
        alloc,
        problem,
        workers,
        words.lines,
        history_for(words.lines, words.history),
        scripts,
        tallies,
        writer,
    )
}
