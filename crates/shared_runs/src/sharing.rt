//! The shared desk of a drill: how it begins, and how it ends.
ghost use Rattle.std.specs.Prelude.{◌≡◌, ◌⊎◌, ◌≤◌, IfErr, IfOk};
ghost use Rattle.desk_commits.specs.State.{opening};
ghost use Rattle.desk_report.specs.Report.{IsReportOf};
ghost use Rattle.desk_shared.specs.Calls.{IsFirst};
ghost use Rattle.desk_shared.specs.Passes.{Owns};
ghost use Rattle.shared_runs.specs.Drills.{IsEnd};

use desk_core::{Desk, Limit, MOST_ENTRIES, Reading};
use desk_report::Report;
use desk_shared::{Pass, PassLost, SharedDesk};
use grid_cells::OutOfMemory;
use scene_edits::Scene;
use solver_check::{RunFault, report_of};
use std::alloc::Global;
use std::sync::Wait;
use std::thread::Threads;

/// The desk of the scene, which keeps so many changes of its report, shared by so many planners, and the
/// first pass.
pub(crate) fn share(
    alloc: Global,
    scene: Scene,
    planners: u32,
    history: u32,
) -> Result<(SharedDesk, Pass), RunFault>
    requires { (1 ≤ planners) × (planners ≤ 256) }
    ensures owned { IfOk result (λ shared. Owns shared.0 shared.1) }
    ensures first { IfOk result (λ shared. IsFirst (opening scene MOST_ENTRIES) planners shared.1.known) }
    ensures refused { IfErr result (λ fault. fault ≡ RunFault.OutOfMemory) }
{
    let Some(limit) = Limit::new(MOST_ENTRIES) else {
        unreachable!()
    };
    let mut desk = Desk::open(alloc, scene, limit);
    desk.keep_history(history as usize);
    match SharedDesk::share(alloc, desk, planners) {
        Ok(shared) => Ok(shared),
        Err(OutOfMemory) => Err(RunFault::OutOfMemory),
    }
}

/// A last reading by the first pass, and the desk, which is shared no more.
pub(crate) fn end_sharing<R: Wait>(
    rt: &R,
    shared: SharedDesk,
    mut first: Pass,
) -> Result<(Reading, Desk), RunFault>
    requires { Owns shared first }
    ensures ended { IfOk result (λ end. IsEnd first.known end.0 end.1) }
    ensures refused { IfErr result (λ fault. (fault ≡ RunFault.OutOfMemory) ⊎ (fault ≡ RunFault.PassLost)) }
{
    let reading = match shared.reading(rt, &mut first) {
        Ok(reading) => reading,
        Err(OutOfMemory) => return Err(RunFault::OutOfMemory),
    };
    match shared.close(first) {
        Ok(desk) => Ok((reading, desk)),
        Err(PassLost) => Err(RunFault::PassLost),
    }
}

/// The audit's report of the desk, which goes.
pub(crate) fn last_report<R: Threads + Wait>(
    rt: &R,
    alloc: Global,
    desk: Desk,
    workers: u32,
) -> Result<Report, OutOfMemory>
    requires workers { (1 ≤ workers) × (workers ≤ 64) }
    ensures { IfOk result (IsReportOf desk.scene.grid desk.scene.mode desk.scene.rows) }
{
    let report = report_of(rt, alloc, desk.scene(), workers);
    drop(desk);
    report
}
