//! Planners hosted at the seats of their pipes.
ghost use Rattle.std.specs.Prelude.{◌≡◌, false, is_some, length, IfOk, IfSome, List, ℕ};
ghost use Rattle.desk_log.specs.Keeping.{IsLogged};
ghost use Rattle.shared_runs.specs.Hosts.{Hosts};
ghost use Rattle.shared_runs.specs.Logged.{IsKeptAtEnd};
ghost use Rattle.solver_check.specs.Inputs.{untold_input};

use crate::faults::ProgramFault;
use crate::hosted::{fault_of, out_of_memory};
use commit_log::Log;
use desk_cli::{HostWords, SESSION_PROMPT};
use desk_core::Desk;
use desk_io::Pipes;
use desk_log::LogKeeper;
use shared_runs::{HostEnd, HostFault, MOST_HOSTED, host_planners};
use solver_check::Seats;
use std::alloc::Global;
use std::sync::Wait;
use std::thread;
use std::thread::{Scope, Threads};
use std::time::Clock;

// (a trait, since a clause of a scope's closure can't be over pipes, which borrow)
/// Seats whose planners come to pipes.
pub(crate) trait AtPipes: Seats {
    /// The pipes.
    fn pipes(&self) -> &Pipes<'_>;
}

impl<'a> AtPipes for Pipes<'a> {
    fn pipes(&self) -> &Pipes<'_> {
        self
    }
}

/// Hosts the planners on the desk until all have ended, who may take as long to come as the words say:
/// threads see to those who haven't come yet.
///
/// # Errors
///
/// Want of memory, a planner's file that is in use, or why they weren't hosted to their end.
pub(crate) fn host_seated<R: Threads + Wait + Clock + Sync, S: AtPipes, L: Log + Drop>(
    rt: &R,
    alloc: Global,
    desk: Desk,
    log: Option<LogKeeper<L>>,
    seats: &S,
    planners: u32,
    words: &HostWords,
) -> Result<(HostEnd, Option<LogKeeper<L>>), ProgramFault>
    requires sound { IfSome log (λ keeper. keeper.has_failed ≡ false) }
    ensures hosted { IfOk result (λ end. Hosts (S.inputs seats.now) desk planners end.0) }
    ensures logged { IfOk result (λ end. is_some end.1 ≡ is_some log) }
    ensures kept { IfSome log (λ keeper. (head : List ℕ)
        → IsLogged head (L.text keeper.writer.log) (L.kept keeper.writer.log) keeper.writer.count keeper.writer.check desk.journal
        → IfOk result (λ end. IfSome end.1 (λ last. IsKeptAtEnd last.has_failed head (L.text last.writer.log) (L.kept last.writer.log)
        last.writer.count last.writer.check end.0.desk.journal))) }
{
    thread::scope(
        thread::scope_env(),
        rt,
        move |scope| -> Result<(HostEnd, Option<LogKeeper<L>>), ProgramFault>
            requires sound { IfSome log (λ keeper. keeper.has_failed ≡ false) }
            ensures hosted { IfOk result (λ end. Hosts (S.inputs seats.entry.now) desk planners end.0) }
            ensures logged { IfOk result (λ end. is_some end.1 ≡ is_some log) }
            ensures kept { IfSome log (λ keeper. (head : List ℕ) → IsLogged head (L.text keeper.writer.log) (L.kept keeper.writer.log) keeper.writer.count
                keeper.writer.check desk.journal → IfOk result (λ end. IfSome end.1 (λ last. IsKeptAtEnd last.has_failed head
                (L.text last.writer.log) (L.kept last.writer.log) last.writer.count last.writer.check end.0.desk.journal))) }
        { host_in(rt, alloc, scope, desk, log, seats, planners, words) },
    )
}

// Hosts them, in a scope of threads that see to those who haven't come yet.
fn host_in<'s, E: 's, R: Threads + Wait + Clock + Sync, S: AtPipes, L: Log + Drop>(
    rt: &'s R,
    alloc: Global,
    scope: &'s Scope<'s, E>,
    desk: Desk,
    log: Option<LogKeeper<L>>,
    seats: &'s S,
    planners: u32,
    words: &HostWords,
) -> Result<(HostEnd, Option<LogKeeper<L>>), ProgramFault>
    requires sound { IfSome log (λ keeper. keeper.has_failed ≡ false) }
    ensures hosted { IfOk result (λ end. Hosts (S.inputs seats.now) desk planners end.0) }
    ensures logged { IfOk result (λ end. is_some end.1 ≡ is_some log) }
    ensures kept { IfSome log (λ keeper. (head : List ℕ)
        → IsLogged head (L.text keeper.writer.log) (L.kept keeper.writer.log) keeper.writer.count keeper.writer.check desk.journal
        → IfOk result (λ end. IfSome end.1 (λ last. IsKeptAtEnd last.has_failed head (L.text last.writer.log) (L.kept last.writer.log)
        last.writer.count last.writer.check end.0.desk.journal))) }
{
    let pipes = seats.pipes();
    let Some(keeper) = pipes.keep(rt, scope, words.wait) else {
        drop(log);
        drop(desk);
        return Err(out_of_memory());
    };
    pipes.watch(rt, scope);
    if let Err(fault) = pipes.open(rt, alloc) {
        drop(log);
        drop(desk);
        pipes.close(rt);
        keeper.join(rt);
        return Err(fault_of(fault));
    }
    let workers = words.workers.clamp(1, 64);
    let ended = host_planners(rt, alloc, desk, log, seats, planners, workers);
    pipes.close(rt);
    keeper.join(rt);
    match ended {
        Ok(end) => Ok(end),
        Err(fault) => Err(ProgramFault::Host(fault)),
    }
}

/// Hosts the planners of the words and the operator on the desk until all have ended, with that log where
/// there is one.
///
/// # Errors
///
/// Too many planners, a planner's file that is in use, want of memory, or why they weren't hosted to their
/// end.
pub(crate) fn host_at<R: Threads + Wait + Clock + Sync, L: Log + Drop>(
    rt: &R,
    host: &HostRuntime,
    desk: Desk,
    log: Option<LogKeeper<L>>,
    words: &HostWords,
    stages: bool,
) -> Result<(HostEnd, Option<LogKeeper<L>>), ProgramFault>
    requires sound { IfSome log (λ keeper. keeper.has_failed ≡ false) }
    ensures hosted { IfOk result (λ end. Hosts (λ _. untold_input words.now.desk.lines) desk (length words.now.names.items) end.0) }
    ensures logged { IfOk result (λ end. is_some end.1 ≡ is_some log) }
    ensures kept { IfSome log (λ keeper. (head : List ℕ)
        → IsLogged head (L.text keeper.writer.log) (L.kept keeper.writer.log) keeper.writer.count keeper.writer.check desk.journal
        → IfOk result (λ end. IfSome end.1 (λ last. IsKeptAtEnd last.has_failed head (L.text last.writer.log) (L.kept last.writer.log)
        last.writer.count last.writer.check end.0.desk.journal))) }
{
    let alloc = host.alloc();
    let planners = match planners_of(words) {
        Ok(planners) => planners,
        Err(fault) => {
            drop(log);
            drop(desk);
            return Err(fault);
        }
    };
    let (names, version) = (words.names.as_slice(), words.desk.lines);
    let pipes = match Pipes::new(alloc, host, names, version, stages, SESSION_PROMPT) {
        Ok(pipes) => pipes,
        Err(fault) => {
            drop(log);
            drop(desk);
            return Err(fault_of(fault));
        }
    };
    host_seated(rt, alloc, desk, log, &pipes, planners, words)
}

// How many planners the words name.
fn planners_of(words: &HostWords) -> Result<u32, ProgramFault>
    ensures { IfOk result (λ planners. planners ≡ length words.now.names.items) }
{
    let most = match words.desk.log {
        None => MOST_HOSTED,
        Some(_) => MOST_HOSTED - 1,
    };
    match u32::try_from(words.names.len()) {
        Ok(planners) if planners <= most => Ok(planners),
        _ => Err(ProgramFault::Host(HostFault::TooManyPlanners)),
    }
}
