//! A desk that is hosted to its end, for planners and an operator.
ghost use Rattle.std.specs.Prelude.{◌≡◌, ◌+◌, ◌≤◌, ◌++◌, ℕ, List, false, is_some, IfErr, IfOk, IfSome};
ghost use Rattle.desk_commits.specs.Entries.{Entry};
ghost use Rattle.desk_log.specs.Keeping.{IsLogged};
ghost use Rattle.shared_runs.specs.Hosts.{Hosts, IsHostFault};
ghost use Rattle.shared_runs.specs.Logged.{IsKept, IsKeptAtEnd, IsKeptIn, passes_of};

use crate::hosts::comparing::compare;
use crate::hosts::threads::host_threads;
use commit_log::Log;
use desk_core::Desk;
use desk_log::LogKeeper;
use desk_shared::SharedDesk;
use grid_cells::OutOfMemory;
use solver_check::{HostFault, Outcome, SeatFault, Seats};
use std::alloc::Global;
use std::sync::Wait;
use std::thread::Threads;
use std::time::Clock;

/// The most planners beside the operator.
pub const MOST_HOSTED: u32 = 255;

/// What came of a desk that was hosted.
#[derive(Drop)]
pub struct HostEnd {
    /// The desk as it was closed.
    pub desk: Desk,
    /// How the operator's session ended.
    pub operator: Outcome,
    /// How each planner's session ended, in their order.
    pub planners: Vec<Outcome>,
    /// Whether an audit of the desk gives its report, where there was memory to compare them.
    pub same: Result<bool, OutOfMemory>,
}

/// Hosts so many planners and the operator over one shared desk, which begins with the desk: the
/// planners are numbered from 1, the operator is planner 0, and each has a thread with a stack of its
/// own size. The calling thread's stack holds some kilobytes for each planner. Where there is a log, it is
/// written in the calling thread, and nobody is shown a commit that it hasn't: one sync serves all who wait.
/// When all have ended, the desk is closed, and its report is compared with an audit's, by so many
/// threads.
///
/// # Errors
///
/// Too many planners; want of memory to share the desk, before anyone is let in; or the desk is lost.
pub fn host_planners<R: Threads + Wait + Clock + Sync, S: Seats, L: Log + Drop>(
    rt: &R,
    alloc: Global,
    desk: Desk,
    log: Option<LogKeeper<L>>,
    seats: &S,
    planners: u32,
    workers: u32,
) -> Result<(HostEnd, Option<LogKeeper<L>>), HostFault>
    requires workers { (1 ≤ workers) × (workers ≤ 64) }
    requires sound { IfSome log (λ keeper. keeper.has_failed ≡ false) }
    ensures logged { IfOk result (λ end. is_some end.1 ≡ is_some log) }
    ensures kept { IfSome log (λ keeper. (head : List ℕ)
        → IsLogged head (L.text keeper.writer.log) (L.kept keeper.writer.log) keeper.writer.count keeper.writer.check desk.journal
        → IfOk result (λ end. IfSome end.1 (λ last. IsKeptAtEnd last.has_failed head (L.text last.writer.log) (L.kept last.writer.log)
        last.writer.count last.writer.check end.0.desk.journal))) }
    ensures hosted { IfOk result (λ end. Hosts (S.inputs seats.now) desk planners end.0) }
    ensures refused { IfErr result (IsHostFault (planners + passes_of log)) }
{
    let passes = passes_of(&log);
    if planners > MOST_HOSTED - passes {
        drop(log);
        drop(desk);
        return Err(HostFault::TooManyPlanners);
    }
    let none = Err(SeatFault::NoThread);
    let seated: Result<Vec<Outcome>, _> = vec![in alloc; none; planners as usize];
    let Ok(outcomes) = seated else {
        drop(log);
        drop(desk);
        return Err(HostFault::OutOfMemory);
    };
    let version = desk.version();
    let Ok((shared, first)) = SharedDesk::share(alloc, desk, planners + 1 + passes) else {
        drop(log);
        drop(outcomes);
        return Err(HostFault::OutOfMemory);
    };
    let (first, operator, outcomes, log) = host_threads(
        rt, alloc, &shared, version, first, seats, outcomes, log,
    );
    let Ok(mut desk) = shared.close(first) else {
        drop(log);
        drop(outcomes);
        return Err(HostFault::PassLost);
    };
    let same = compare(rt, alloc, &mut desk, workers);
    let log = keep_last(log, &desk);
    let end = HostEnd {
        desk,
        operator,
        planners: outcomes,
        same,
    };
    Ok((end, log))
}

// How many passes of its own a log has.
fn passes_of<L: Log>(log: &Option<LogKeeper<L>>) -> u32
    ensures is { result ≡ passes_of log.now }
    ensures few { result ≤ 1 }
{
    match log {
        None => 0,
        Some(_) => 1,
    }
}

// Puts into the log, where there is one, what the closed desk has and it has not.
fn keep_last<L: Log + Drop>(log: Option<LogKeeper<L>>, desk: &Desk) -> Option<LogKeeper<L>>
    ensures logged { is_some result ≡ is_some log }
    ensures kept { IfSome log (λ keeper. (head : List ℕ) (start made : List Entry) → desk.now.journal ≡ start ++ made
        → IsKeptIn keeper.has_failed head (L.text keeper.writer.log) (L.kept keeper.writer.log) keeper.writer.count keeper.writer.check start made
        → IfSome result (λ last. IsKept last.has_failed head (L.text last.writer.log) (L.kept last.writer.log)
        last.writer.count last.writer.check start made)) }
{
    match log {
        None => None,
        Some(mut keeper) => {
            keep_closed(&mut keeper, desk);
            Some(keeper)
        }
    }
}

// Puts into the log what the closed desk has and it has not, where it hasn't failed.
fn keep_closed<L: Log>(keeper: &mut LogKeeper<L>, desk: &Desk)
    ensures { (head : List ℕ) (start made : List Entry) → desk.now.journal ≡ start ++ made
        → IsKeptIn keeper.old.has_failed head (L.text keeper.old.writer.log) (L.kept keeper.old.writer.log) keeper.old.writer.count
        keeper.old.writer.check start made
        → IsKept keeper.new.has_failed head (L.text keeper.new.writer.log) (L.kept keeper.new.writer.log) keeper.new.writer.count
        keeper.new.writer.check start made }
{
    if keeper.has_failed() {
        return;
    }
    let _kept = keeper.keep_rest(desk.journal());
}
