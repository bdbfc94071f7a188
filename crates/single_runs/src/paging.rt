ghost use Rattle.std.specs.Prelude.{◌≡◌, ◌≢◌, ◌⊎◌, ◌≤◌, ◌||◌, IfErr, OnOk};
ghost use Rattle.solver_check.specs.CheckFaults.{has_write_failed};
ghost use Rattle.solver_check.specs.Opens.{bytes_of};
ghost use Rattle.single_runs.specs.Draws.{FailsDraw};
ghost use Rattle.single_runs.specs.PageRuns.{IsPageOf, IsPageFront, Pages, PagesFront};

use crate::courses::Courses;
use crate::opening::open_desk;
use bench_reader::write_map;
use desk_core::{Limit, MOST_ENTRIES};
use desk_pages::{Page, write_page};
use desk_report::{Sink, WriteFailed};
use grid_cells::OutOfMemory;
use scene_edits::Scene;
use solver_check::{CheckFault, Problem, planned_scene, report_of};
use std::alloc::Global;
use std::sync::Wait;
use std::thread::Threads;

// Writes the page of the scene, whose report is made from scratch by so many threads.
fn page_scene<T: Threads + Wait, W: Sink>(
    rt: &T,
    alloc: Global,
    scene: &Scene,
    page: &Page,
    workers: u32,
    writer: &mut W,
) -> Result<(), CheckFault>
    requires workers { (1 ≤ workers) × (workers ≤ 64) }
    ensures ok { OnOk result (IsPageOf page.now scene.now (W.held writer.old) (W.held writer.new)) }
    ensures err { IfErr result (λ fault. (fault ≡ CheckFault.OutOfMemory) ⊎ (fault ≡ CheckFault.WriteFailed)) }
    ensures front { IfErr result (λ fault. fault ≡ CheckFault.WriteFailed → IsPageFront page.now scene.now (W.held writer.old) (W.held writer.new)) }
    ensures broken { W.broken writer.new ≡ (W.broken writer.old || has_write_failed result) }
    ensures silent { IfErr result (λ fault. fault ≢ CheckFault.WriteFailed → W.held writer.new ≡ W.held writer.old) }
{
    let map = match write_map(alloc, scene.grid()) {
        Ok(map) => map,
        Err(OutOfMemory) => return Err(CheckFault::OutOfMemory),
    };
    let report = match report_of(rt, alloc, scene, workers) {
        Ok(report) => report,
        Err(OutOfMemory) => return Err(CheckFault::OutOfMemory),
    };
    let put = write_page(writer, page, &map, scene, &report);
    drop(report);
    match put {
        Ok(()) => Ok(()),
        Err(WriteFailed) => Err(CheckFault::WriteFailed),
    }
}

/// Writes the page of a scene and its report, which is made from scratch by so many threads. The
/// scene is that of a map in a mode, with the agents of the first tasks of a scenario. A journal's
/// entries are committed on it, and no number of agents is none of them; or it has the paths that a
/// solver wrote, as `run_check` takes them.
///
/// # Errors
///
/// The first fault of the texts, in the order of `open_desk` or of `run_check`, want of memory, or a
/// fault of the writer. But for the last, nothing is written; then a prefix of the page was.
pub fn run_page<T: Threads + Wait, W: Sink>(
    rt: &T,
    alloc: Global,
    problem: Problem<'_>,
    courses: Courses<'_>,
    page: &Page,
    workers: u32,
    writer: &mut W,
) -> Result<(), CheckFault>
    requires workers { (1 ≤ workers) × (workers ≤ 64) }
    ensures ok { OnOk result (Pages problem.entry.map.now (bytes_of problem.entry.scen) problem.entry.agents problem.entry.mode
        courses.entry page.now (W.held writer.old) (W.held writer.new)) }
    ensures err { IfErr result (FailsDraw problem.entry.map.now (bytes_of problem.entry.scen) problem.entry.agents problem.entry.mode courses.entry) }
    ensures front { IfErr result (λ fault. fault ≡ CheckFault.WriteFailed → PagesFront problem.entry.map.now (bytes_of problem.entry.scen)
        problem.entry.agents problem.entry.mode courses.entry page.now (W.held writer.old) (W.held writer.new)) }
    ensures broken { W.broken writer.new ≡ (W.broken writer.old || has_write_failed result) }
    ensures silent { IfErr result (λ fault. fault ≢ CheckFault.WriteFailed → W.held writer.new ≡ W.held writer.old) }
{
    let Some(limit) = Limit::new(MOST_ENTRIES) else {
        unreachable!()
    };
    match courses {
        Courses::Journal(journal) => match open_desk(alloc, problem, limit, journal) {
            Ok(desk) => {
                let paged = page_scene(rt, alloc, desk.scene(), page, workers, writer);
                drop(desk);
                paged
            }
            Err(fault) => Err(CheckFault::from(fault)),
        },
        Courses::Solver(paths) => match planned_scene(alloc, problem, paths, None) {
            Ok(scene) => {
                let paged = page_scene(rt, alloc, &scene, page, workers, writer);
                drop(scene);
                paged
            }
            Err(fault) => Err(fault),
        },
    }
}
