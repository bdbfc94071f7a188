//! What a desk that was hosted is compared with.
ghost use Rattle.std.specs.Prelude.{◌≡◌, ◌≤◌, IfOk};
ghost use Rattle.shared_runs.specs.Hosts.{IsCompared};

use desk_core::Desk;
use grid_cells::OutOfMemory;
use solver_check::{is_same, report_of};
use std::alloc::Global;
use std::sync::Wait;
use std::thread::Threads;

/// Whether an audit of the desk, by so many threads, gives its report.
///
/// # Errors
///
/// Want of memory, or the start of a thread was refused.
pub(crate) fn compare<R: Threads + Wait>(
    rt: &R,
    alloc: Global,
    desk: &mut Desk,
    workers: u32,
) -> Result<bool, OutOfMemory>
    requires { (1 ≤ workers) × (workers ≤ 64) }
    ensures same { desk.new ≡ desk.old }
    ensures compared { IfOk result (IsCompared desk.old) }
{
    let reading = desk.reading()?;
    let audited = report_of(rt, alloc, desk.scene(), workers)?;
    Ok(is_same(&reading.report, &audited))
}
