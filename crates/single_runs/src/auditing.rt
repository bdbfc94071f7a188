ghost use Rattle.std.specs.Prelude.{◌≡◌, ◌≤◌, ◌||◌, IfErr, OnOk};
ghost use Rattle.single_runs.specs.Audits.{Audits, FailsAudit};
ghost use Rattle.solver_check.specs.Faults.{is_run_write_fault};
ghost use Rattle.solver_check.specs.Opens.{bytes_of};

use crate::opening::open_desk;
use desk_core::{Limit, MOST_ENTRIES};
use desk_report::{Sink, WriteFailed};
use grid_cells::OutOfMemory;
use plan_table::Mode;
use session_protocol::put_report;
use solver_check::{Problem, RunFault, report_of};
use std::alloc::Global;
use std::sync::Wait;
use std::thread::Threads;

/// Writes the version and the report of a desk that is opened on the scene of a map and the agents
/// of the first tasks of a scenario, and commits a journal's entries. The report is made from
/// scratch, by so many threads.
///
/// # Errors
///
/// The first fault of the map, the scenario, the tasks and the journal, want of memory, or a fault
/// of the writer.
pub fn run_audit<T: Threads + Wait, W: Sink>(
    rt: &T,
    alloc: Global,
    map: &[u8],
    scen: Option<&[u8]>,
    agents: u32,
    mode: Mode,
    journal: Option<&[u8]>,
    workers: u32,
    writer: &mut W,
) -> Result<(), RunFault>
    requires workers { (1 ≤ workers) × (workers ≤ 64) }
    ensures audited { OnOk result (Audits map.now (bytes_of scen.entry) agents mode (bytes_of journal.entry) (W.held writer.old) (W.held writer.new)) }
    ensures refused { IfErr result (FailsAudit map.now (bytes_of scen.entry) agents mode (bytes_of journal.entry) (W.held writer.old) (W.held writer.new)) }
    ensures broken { W.broken writer.new ≡ (W.broken writer.old || is_run_write_fault result) }
{
    let Some(limit) = Limit::new(MOST_ENTRIES) else {
        unreachable!()
    };
    let problem = Problem {
        map,
        scen,
        agents: Some(agents),
        mode,
    };
    let desk = match open_desk(alloc, problem, limit, journal) {
        Ok(desk) => desk,
        Err(fault) => return Err(fault),
    };
    let version = desk.version();
    let report = report_of(rt, alloc, desk.scene(), workers);
    drop(desk);
    let report = match report {
        Ok(report) => report,
        Err(OutOfMemory) => return Err(RunFault::OutOfMemory),
    };
    let put = put_report(writer, version, &report);
    drop(report);
    match put {
        Ok(()) => Ok(()),
        Err(WriteFailed) => Err(RunFault::WriteFailed),
    }
}
