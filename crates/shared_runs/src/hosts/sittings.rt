//! A planner's session in a thread of its own, or what stands for it where no thread starts.
ghost use Rattle.std.specs.Prelude.{◌≡◌, IfErr, IfOk};
ghost use Rattle.desk_shared.specs.Passes.{Owns};
ghost use Rattle.shared_runs.specs.Hosts.{IsEnded};
ghost use Rattle.shared_runs.specs.Logged.{HasSeenTo};

use crate::hosts::dated::Dated;
use crate::hosts::gates::Gate;
use crate::hosts::waiting::AtGate;
use core::thread::Stack;
use desk_shared::{Pass, SharedDesk};
use solver_check::{Outcome, SeatFault, Seats};
use std::alloc::Global;
use std::snapshot::Snapshot;
use std::sync::atomic::{AtomicU32, Ordering};
use std::sync::{Mutex, Wait};
use std::thread::{Promise, PromisedHandle, Scope, Threads};
use std::time::Clock;

/// What comes of a planner's session: the pass, and how the session ended.
pub(crate) type Ended = (Pass, Outcome);

/// The seat that a thread is to serve, and the pass that it is given.
#[derive(Drop)]
pub(crate) struct Seat<'a, S: Seats> {
    pub desk: &'a SharedDesk,
    pub seats: &'a S,
    pub number: u32,
    pub before: Snapshot<Pass>,
}

impl<'a, S: Seats> Promise<Ended> for Seat<'a, S> {
    ghost kept_by = { λ p r. IsEnded p.desk.now (S.inputs p.seats.now p.number) p.before.value r.0 r.1 };
}

/// A planner's session under way, or what stands for it where its thread did not start.
pub(crate) type Sitting<'a, S> = Result<PromisedHandle<Ended, Seat<'a, S>>, Ended>;

/// The bytes of stack of a session's thread, whatever the system's limit of stacks is.
const SESSION_STACK: usize = 1_048_576;

// No planner's number.
const NOBODY: u32 = u32::MAX;

/// How sessions begin: together, once each has its thread. So their stacks are there before the first of
/// them takes memory, of which an allocator may set much aside for each thread.
#[derive(Drop)]
pub(crate) struct Start {
    // The planner whose thread did not start.
    unstarted: AtomicU32,
    /// Held until all have their threads.
    pub gate: Mutex<()>,
    /// Where answers wait for a log, if there is one.
    pub log: Option<Gate>,
    /// The version at which the desk was shared.
    pub version: u64,
}

impl Start {
    pub fn new(log: Option<Gate>, version: u64) -> Start
        ensures version { result.version ≡ version }
        ensures log { result.log ≡ log }
    {
        Start {
            unstarted: AtomicU32::new(NOBODY),
            gate: Mutex::new(()),
            log,
            version,
        }
    }

    // The session of a planner has ended.
    fn leave<R: Wait>(&self, rt: &R) {
        if let Some(gate) = &self.log {
            gate.leave(rt);
        }
    }
}

/// Serves the planner of that number at its seat once all have their threads, unless its own did not
/// start: then the seat is told so.
pub(crate) fn sit<R: Wait + Clock, S: Seats>(
    rt: &R,
    alloc: Global,
    desk: &SharedDesk,
    pass: Pass,
    seats: &S,
    number: u32,
    start: &Start,
) -> Ended
    requires owned { Owns desk.now pass }
    requires seen { HasSeenTo start.now.version pass.known }
    ensures { IsEnded desk.now (S.inputs seats.now number) pass result.0 result.1 }
{
    if start.unstarted.load(Ordering::SeqCst) == number {
        seats.miss(rt, number);
        start.leave(rt);
        return (pass, Err(SeatFault::NoThread));
    }
    drop(start.gate.lock(rt));
    let mut window = Dated::new(rt, desk, pass, start.version);
    let mut waiting = AtGate::new(rt, start.log.as_ref(), start.version);
    let ended = seats.seat(rt, alloc, number, &mut window, &mut waiting);
    start.leave(rt);
    (window.into_pass(), ended)
}

/// Begins the planner's session in a thread of its own. Where that does not start, the closure comes
/// back and is called here, with word that the planner isn't seated: so its pass isn't lost.
pub(crate) fn begin<'s, E: 's, R: Wait + Clock + Sync, S: Seats>(
    rt: &'s R,
    alloc: Global,
    scope: &'s Scope<'s, E>,
    desk: &'s SharedDesk,
    pass: Pass,
    seats: &'s S,
    number: u32,
    start: &'s Start,
) -> Sitting<'s, S>
    requires owned { Owns desk.now pass }
    requires seen { HasSeenTo start.now.version pass.known }
    ensures begun { IfOk result (λ child. child.promise.desk.now ≡ desk.now) }
    ensures seated { IfOk result (λ child. (child.promise.seats.now ≡ seats.now) × (child.promise.number ≡ number)) }
    ensures before { IfOk result (λ child. child.promise.before.value ≡ pass) }
    ensures missed { IfErr result (λ r. IsEnded desk.now (S.inputs seats.now number) pass r.0 r.1) }
{
    let promise = Seat {
        desk,
        seats,
        number,
        before: Snapshot::of(&pass),
    };
    let started = Stack::new().stack_size(SESSION_STACK).spawn_scoped_with(
        scope,
        promise,
        move || -> Ended
            requires owned { Owns desk.now pass }
            requires seen { HasSeenTo start.now.version pass.known }
            ensures { IsEnded desk.entry.now (S.inputs seats.entry.now number) pass result.0 result.1 }
        { sit(rt, alloc, desk, pass, seats, number, start) },
    );
    match started {
        Ok(child) => Ok(child),
        Err(refused) => {
            start.unstarted.store(number, Ordering::SeqCst);
            let unseated = refused.value;
            Err(unseated())
        }
    }
}
