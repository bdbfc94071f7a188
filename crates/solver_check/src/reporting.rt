//! Reports that are made from scratch, and compared.
ghost use Rattle.std.specs.Prelude.{◌≡◌, ◌↔◌, ◌≤◌, IfOk, IsTrue};
ghost use Rattle.desk_report.specs.Report.{IsReportOf};

use desk_audit::{AuditFault, NoGate, audit, audit_alone};
use desk_report::Report;
use grid_cells::OutOfMemory;
use scene_edits::Scene;
use std::alloc::Global;
use std::sync::Wait;
use std::thread::Threads;

/// The report of the scene, made from scratch by so many threads.
///
/// # Errors
///
/// Want of memory, or the start of a thread was refused.
pub fn report_of<T: Threads + Wait>(
    rt: &T,
    alloc: Global,
    scene: &Scene,
    workers: u32,
) -> Result<Report, OutOfMemory>
    requires workers { (1 ≤ workers) × (workers ≤ 64) }
    ensures { IfOk result (IsReportOf scene.now.grid scene.now.mode scene.now.rows) }
{
    match audit(rt, alloc, scene, workers, &NoGate) {
        Ok(report) => Ok(report),
        Err(AuditFault::BadWorkers) => unreachable!(),
        Err(AuditFault::OutOfMemory) => Err(OutOfMemory),
    }
}

/// Who makes reports from scratch.
pub trait Auditor {
    /// The report of the scene, made from scratch.
    ///
    /// # Errors
    ///
    /// Want of memory, or the start of a thread was refused.
    fn report(&self, alloc: Global, scene: &Scene) -> Result<Report, OutOfMemory>
        ensures { IfOk result (IsReportOf scene.now.grid scene.now.mode scene.now.rows) };
}

/// Makes reports with no thread.
#[derive(Clone, Copy)]
pub struct Alone;

impl Auditor for Alone {
    fn report(&self, alloc: Global, scene: &Scene) -> Result<Report, OutOfMemory> {
        audit_alone(alloc, scene)
    }
}

/// Makes each report by so many threads.
#[derive(Drop)]
pub struct InThreads<'r, T: Threads + Wait> {
    rt: &'r T,
    workers: u32,
    ghost few: { (1 ≤ workers) × (workers ≤ 64) },
}

impl<'r, T: Threads + Wait> InThreads<'r, T> {
    /// By 1 to 64 threads.
    pub fn new(rt: &'r T, workers: u32) -> InThreads<'r, T>
        requires workers { (1 ≤ workers) × (workers ≤ 64) }
    {
        InThreads { rt, workers }
    }
}

impl<'r, T: Threads + Wait> Auditor for InThreads<'r, T> {
    fn report(&self, alloc: Global, scene: &Scene) -> Result<Report, OutOfMemory> {
        report_of(self.rt, alloc, scene, self.workers)
    }
}

/// Whether the reports are equal.
pub fn is_same(report: &Report, other: &Report) -> bool
    ensures { IsTrue result ↔ (report.now ≡ other.now) }
{
    report == other
}
