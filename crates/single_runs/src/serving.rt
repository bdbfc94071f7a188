ghost use Rattle.std.specs.Prelude.{◌≡◌, ◌||◌, unwrap_or};
ghost use Rattle.session_protocol.specs.Reads.{ReadsUntil};
ghost use Rattle.solver_check.specs.Faults.{is_run_read_fault, is_run_write_fault};
ghost use Rattle.single_runs.specs.Runs.{Runs};
ghost use Rattle.single_runs.specs.Sittings.{SitsOverFiles, SitsOver, sink_failed, source_failed};
ghost use Rattle.solver_check.specs.Opens.{bytes_of};

use crate::opening::open_keeping;
use desk_core::{Desk, Limit};
use desk_report::{Sink, Source};
use plan_table::Mode;
use session_protocol::{Bounds, LinesVersion, ServeFault, hear_map, serve_in};
use solver_check::{BOUNDS, MOST_BYTES, MOST_LINES, Problem, RunFault};
use std::alloc::Global;

/// Serves a session over the desk of a map and the agents of the first tasks of a scenario. Where no
/// map is handed in, its text comes first from the reader. Answers how many lines the session had.
///
/// # Errors
///
/// The first fault of the map, the scenario, the tasks and the session, or want of memory. Where
/// the session does not begin, nothing is written.
pub fn run_serve<R: Source, W: Sink>(
    alloc: Global,
    map: Option<&[u8]>,
    scen: Option<&[u8]>,
    agents: u32,
    limit: Limit,
    mode: Mode,
    reader: &mut R,
    writer: &mut W,
) -> Result<u32, RunFault>
    ensures runs { Runs (bytes_of map.entry) (bytes_of scen.entry) agents mode limit
        (R.left reader.old) (R.left reader.new) (W.held writer.old) (W.held writer.new) result }
    ensures reads { ReadsUntil R.gives reader.old reader.new (is_run_read_fault result) }
    ensures failed { R.failed reader.new ≡ (R.failed reader.old || is_run_read_fault result) }
    ensures broken { W.broken writer.new ≡ (W.broken writer.old || is_run_write_fault result) }
{
    match serve_desk(
        alloc,
        LinesVersion::One,
        map,
        scen,
        agents,
        limit,
        mode,
        None,
        0,
        reader,
        writer,
    ) {
        Ok((desk, ended)) => {
            drop(desk);
            match ended {
                Ok(lines) => Ok(lines),
                Err(fault) => Err(RunFault::from(fault)),
            }
        }
        Err(fault) => Err(fault),
    }
}

/// Serves a session in that version of lines as `run_serve` does, over a desk that first commits a journal's entries and
/// then keeps so many changes of its report, and hands back the desk as the session left it, beside how many lines the
/// session had, or its fault.
///
/// # Errors
///
/// The first fault of the map, the scenario, the tasks and the journal, or want of memory: there is
/// no desk then, and nothing is written.
pub fn serve_desk<R: Source, W: Sink>(
    alloc: Global,
    version: LinesVersion,
    map: Option<&[u8]>,
    scen: Option<&[u8]>,
    agents: u32,
    limit: Limit,
    mode: Mode,
    journal: Option<&[u8]>,
    history: u32,
    reader: &mut R,
    writer: &mut W,
) -> Result<(Desk, Result<u32, ServeFault>), RunFault>
    ensures sits { SitsOverFiles version (bytes_of map.entry) (bytes_of scen.entry) agents mode limit (bytes_of journal.entry)
        (R.left reader.old) (R.left reader.new) (W.held writer.old) (W.held writer.new) result }
    ensures reads { ReadsUntil R.gives reader.old reader.new (source_failed result) }
    ensures failed { R.failed reader.new ≡ (R.failed reader.old || source_failed result) }
    ensures broken { W.broken writer.new ≡ (W.broken writer.old || sink_failed result) }
{
    let agents = Some(agents);
    if let Some(map) = map {
        let problem = Problem {
            map,
            scen,
            agents,
            mode,
        };
        return serve_over(
            alloc, version, problem, limit, journal, history, reader, writer, BOUNDS,
        );
    }
    let text = match hear_map(alloc, reader, MOST_BYTES) {
        Ok(text) => text,
        Err(fault) => return Err(RunFault::from(fault)),
    };
    let rest = Bounds {
        lines: MOST_LINES,
        bytes: MOST_BYTES - text.len() as u64,
    };
    let problem = Problem {
        map: text.as_slice(),
        scen,
        agents,
        mode,
    };
    serve_over(
        alloc, version, problem, limit, journal, history, reader, writer, rest,
    )
}

// Opens the desk, and serves a session over it.
fn serve_over<R: Source, W: Sink>(
    alloc: Global,
    version: LinesVersion,
    problem: Problem<'_>,
    limit: Limit,
    journal: Option<&[u8]>,
    history: u32,
    reader: &mut R,
    writer: &mut W,
    bounds: Bounds,
) -> Result<(Desk, Result<u32, ServeFault>), RunFault>
    ensures sits { SitsOver version problem.entry.map.now (bytes_of problem.entry.scen) (unwrap_or problem.entry.agents 0) problem.entry.mode
        limit (bytes_of journal.entry) bounds (R.left reader.old) (R.left reader.new) (W.held writer.old) (W.held writer.new) result }
    ensures reads { ReadsUntil R.gives reader.old reader.new (source_failed result) }
    ensures failed { R.failed reader.new ≡ (R.failed reader.old || source_failed result) }
    ensures broken { W.broken writer.new ≡ (W.broken writer.old || sink_failed result) }
{
    match open_keeping(alloc, problem, limit, journal, history) {
        Ok(mut desk) => {
            let ended = serve_in(alloc, version, &mut desk, reader, writer, bounds);
            Ok((desk, ended))
        }
        Err(fault) => Err(fault),
    }
}
