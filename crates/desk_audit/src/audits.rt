ghost use Rattle.std.specs.Prelude.{◌≡◌, ◌<◌, ◌≤◌, ◌↔◌, ◌⊎◌, IfOk, IfSome, IsErrOf, Contains, length};
ghost use Rattle.plan_table.specs.Order.{ListsAll};
ghost use Rattle.plan_table.specs.Route.{tracks_of};
ghost use Rattle.mapf_rules.specs.ConflictList.{listing_key};
ghost use Rattle.desk_report.specs.Report.{IsReportOf};
ghost use Rattle.desk_audit.specs.Index.{IsIndexOf};
ghost use Rattle.desk_audit.specs.Parts.{IsPart};

use crate::faults::AuditFault;
use crate::gates::{Gate, NoGate};
use crate::indexing::index_of;
use crate::parts::Part;
use crate::sightings::{Share, Sightings};
use crate::threads::{in_scope, part_of};
use desk_report::{Report, with_totals};
use grid_cells::{List, OutOfMemory};
use mapf_rules::Conflict;
use scene_edits::Scene;
use std::alloc::Global;
use std::sync::Wait;
use std::thread;
use std::thread::Threads;

/// The most threads of an audit.
pub(crate) const MOST_WORKERS: u32 = 64;

/// The most shares of an index: each is asked who passes a cell in which an agent rests.
pub(crate) const MOST_SHARES: u32 = 8;

// The entries of all pieces in the order in which they are listed, each once. Those of a piece are in
// that order, and this sort merges what is in order.
fn merged(mut entries: Vec<Conflict>) -> Result<List<Conflict>, OutOfMemory>
    ensures { IfOk result (ListsAll listing_key (Contains entries.items)) }
{
    let Ok(()) = entries.sort() else {
        drop(entries);
        return Err(OutOfMemory);
    };
    entries.dedup();
    Ok(List::new(entries))
}

// The report of the scene, whose part of all agents that is.
fn report_of(alloc: Global, scene: &Scene, whole: Part) -> Result<Report, OutOfMemory>
    requires { IsPart scene.now.grid scene.now.mode scene.now.rows 0 (length scene.now.rows) whole }
    ensures { IfOk result (IsReportOf scene.now.grid scene.now.mode scene.now.rows) }
{
    let plans = scene.plans();
    let _agents = plans.count();
    let Part {
        conflicts,
        visits,
        lines,
    } = whole;
    let Ok(conflicts) = merged(conflicts) else {
        drop(visits);
        drop(lines);
        return Err(OutOfMemory);
    };
    let report = with_totals(alloc, plans, conflicts, List::new(visits), List::new(lines))?;
    Ok(report)
}

// The part of all agents, made by threads over the index; none where that was refused.
fn whole_of<G: Gate, R: Threads + Wait>(
    rt: &R,
    alloc: Global,
    scene: &Scene,
    index: &[Sightings],
    workers: u32,
    gate: &G,
) -> Option<Part>
    requires some { 0 < workers }
    requires index { IsIndexOf (tracks_of scene.now.mode scene.now.rows) index.now }
    ensures { IfSome result (IsPart scene.now.grid scene.now.mode scene.now.rows 0 (length scene.now.rows)) }
{
    thread::scope(
        thread::scope_env(),
        rt,
        |scope| -> Option<Part>
            requires some { 0 < workers }
            requires index { IsIndexOf (tracks_of scene.now.mode scene.now.rows) index.now }
            ensures { IfSome result (IsPart scene.entry.now.grid scene.entry.now.mode scene.entry.now.rows 0 (length scene.entry.now.rows)) }
        { in_scope(rt, alloc, scope, scene, index, workers, gate) },
    )
}

// The report of the scene, made over an index of its own.
fn told<G: Gate, R: Threads + Wait>(
    rt: &R,
    alloc: Global,
    scene: &Scene,
    workers: u32,
    gate: &G,
) -> Result<Report, OutOfMemory>
    requires { 0 < workers }
    ensures { IfOk result (IsReportOf scene.now.grid scene.now.mode scene.now.rows) }
{
    let Some(index) = index_of(rt, alloc, scene, shares_for(workers)) else {
        return Err(OutOfMemory);
    };
    let found = whole_of(rt, alloc, scene, &index, workers, gate);
    drop(index);
    match found {
        Some(whole) => report_of(alloc, scene, whole),
        None => Err(OutOfMemory),
    }
}

// How many shares the index of so many workers has.
fn shares_for(workers: u32) -> u32
    requires { 0 < workers }
    ensures { 0 < result }
{
    if workers < MOST_SHARES {
        workers
    } else {
        MOST_SHARES
    }
}

// The index of the scene, in one share.
fn index_alone(alloc: Global, scene: &Scene) -> Result<Vec<Sightings>, OutOfMemory>
    ensures { IfOk result (λ index. IsIndexOf (tracks_of scene.now.mode scene.now.rows) index.items) }
{
    let share = Share { many: 1, number: 0 };
    let sightings = Sightings::new(alloc, scene.mode(), scene.plans(), share)?;
    let mut index = Vec::new(alloc);
    index.push(sightings)?;
    Ok(index)
}

/// The report of the scene, made from scratch with no thread, over an index of its own.
///
/// # Errors
/// Want of memory.
pub fn audit_alone(alloc: Global, scene: &Scene) -> Result<Report, OutOfMemory>
    ensures { IfOk result (IsReportOf scene.now.grid scene.now.mode scene.now.rows) }
{
    let index = index_alone(alloc, scene)?;
    let agents = scene.plans().count();
    let found = part_of(alloc, scene, &index, 0, agents, 0, &NoGate);
    drop(index);
    report_of(alloc, scene, found?)
}

/// The report of the scene, made from scratch by that many threads. It uses no state but the
/// scene's: it makes an index of its own, of which each piece tells its agents' part, and joins the
/// parts.
///
/// # Errors
/// BadWorkers where the number of workers is not 1 to MOST_WORKERS, before any growth. OutOfMemory
/// where a growth or the start of a thread was refused; no thread is left.
pub fn audit<G: Gate, R: Threads + Wait>(
    rt: &R,
    alloc: Global,
    scene: &Scene,
    workers: u32,
    gate: &G,
) -> Result<Report, AuditFault>
    ensures bad_workers { IsErrOf result AuditFault.BadWorkers ↔ ((workers ≡ 0) ⊎ (64 < workers)) }
    ensures report { IfOk result (IsReportOf scene.now.grid scene.now.mode scene.now.rows) }
{
    if workers == 0 || workers > MOST_WORKERS {
        return Err(AuditFault::BadWorkers);
    }
    match told(rt, alloc, scene, workers, gate) {
        Ok(report) => Ok(report),
        Err(_) => Err(AuditFault::OutOfMemory),
    }
}
