//! Planners and the operator served at once, each in a thread of its own.
ghost use Rattle.std.specs.Prelude.{◌≡◌, ◌+◌, false, length, is_some, IfSome, List, ℕ};
ghost use Rattle.desk_log.specs.Keeping.{IsLogged};
ghost use Rattle.desk_shared.specs.Passes.{Owns};
ghost use Rattle.shared_runs.specs.Drills.{MaySplit};
ghost use Rattle.shared_runs.specs.Hosts.{HasHosted};
ghost use Rattle.shared_runs.specs.Logged.{HasSeenTo, IsJoinedUnused, IsKeptIn, passes_of};

use crate::hosts::gates::Gate;
use crate::hosts::operating::{operate, operate_logged};
use crate::hosts::sittings::{Start, begin};
use commit_log::Log;
use desk_log::LogKeeper;
use desk_shared::{Pass, SharedDesk};
use solver_check::{Outcome, Seats};
use std::alloc::Global;
use std::sync::{MutexGuard, Wait};
use std::thread;
use std::thread::{Scope, Threads};
use std::time::Clock;

// Serves the planners, so many as there are outcomes, the first of them as planner number + 1, and the
// operator through the first pass, each in a thread that is joined before this returns; none begins
// before all have their threads. Their passes are joined into the first one. Answers how the operator's
// session ended. Where there is a log, nobody is shown what isn't in it.
fn host_all<'s, E: 's, R: Threads + Wait + Clock + Sync, S: Seats, L: Log + Drop>(
    rt: &'s R,
    alloc: Global,
    scope: &'s Scope<'s, E>,
    desk: &'s SharedDesk,
    mut first: Pass,
    seats: &'s S,
    start: &'s Start,
    gate: MutexGuard<'s, ()>,
    number: u32,
    outcomes: &mut [Outcome],
    log: Option<LogKeeper<L>>,
) -> (Pass, Outcome, Option<LogKeeper<L>>)
    requires first { MaySplit desk.now first number (length outcomes.old + passes_of log) }
    requires seen { HasSeenTo start.now.version first.known }
    requires operator { first.known.planner ≡ 0 }
    requires gated { is_some start.now.log ≡ is_some log }
    requires sound { IfSome log (λ keeper. keeper.has_failed ≡ false) }
    ensures owned { Owns desk.now result.0 }
    ensures as_many { length outcomes.new ≡ length outcomes.old }
    ensures hosted { HasHosted desk.now (S.inputs seats.now) first.known result.0.known (number + 1) outcomes.new result.1 }
    ensures unused { IfSome log (λ _. IsJoinedUnused (number + length outcomes.old + 1) result.0.known.past) }
    ensures logged { is_some result.2 ≡ is_some log }
    ensures kept { IfSome log (λ keeper. (head : List ℕ)
        → IsLogged head (L.text keeper.writer.log) (L.kept keeper.writer.log) keeper.writer.count keeper.writer.check
        first.known.start.journal → IfSome result.2 (λ last. IsKeptIn last.has_failed head (L.text last.writer.log) (L.kept last.writer.log)
        last.writer.count last.writer.check first.known.start.journal result.0.known.made)) }
{
    let Some((outcome, later)) = outcomes.split_first_mut() else {
        return match log {
            None => {
                let (pass, ended) = operate(rt, alloc, scope, desk, first, seats, start, gate);
                (pass, ended, None)
            }
            Some(keeper) => {
                let (pass, ended, keeper) = operate_logged(
                    rt, alloc, scope, desk, first, seats, start, gate, number, keeper,
                );
                (pass, ended, Some(keeper))
            }
        };
    };
    let Ok(pass) = desk.split(&mut first) else {
        unreachable!()
    };
    let number = number + 1;
    let sitting = begin(rt, alloc, scope, desk, pass, seats, number, start);
    let (mut first, operator, log) = host_all(
        rt, alloc, scope, desk, first, seats, start, gate, number, later, log,
    );
    let (pass, ended) = match sitting {
        Ok(child) => child.join(rt),
        Err(missed) => missed,
    };
    desk.join(&mut first, pass);
    *outcome = ended;
    (first, operator, log)
}

// The gate of a log, for so many sessions.
fn gate_of<L: Log>(log: &Option<LogKeeper<L>>, seated: u32) -> Option<Gate>
    ensures { is_some result ≡ is_some log.now }
{
    match log {
        None => None,
        Some(keeper) => Some(Gate::new(keeper, seated)),
    }
}

// Serves the planners and the operator, as `host_all` does, in a scope of threads.
pub(crate) fn host_threads<R: Threads + Wait + Clock + Sync, S: Seats, L: Log + Drop>(
    rt: &R,
    alloc: Global,
    desk: &SharedDesk,
    version: u64,
    first: Pass,
    seats: &S,
    outcomes: Vec<Outcome>,
    log: Option<LogKeeper<L>>,
) -> (Pass, Outcome, Vec<Outcome>, Option<LogKeeper<L>>)
    requires first { MaySplit desk.now first 0 (length outcomes.items + passes_of log) }
    requires seen { HasSeenTo version first.known }
    requires operator { first.known.planner ≡ 0 }
    requires sound { IfSome log (λ keeper. keeper.has_failed ≡ false) }
    ensures owned { Owns desk.now result.0 }
    ensures as_many { length result.2.items ≡ length outcomes.items }
    ensures hosted { HasHosted desk.now (S.inputs seats.now) first.known result.0.known 1 result.2.items result.1 }
    ensures unused { IfSome log (λ _. IsJoinedUnused (length outcomes.items + 1) result.0.known.past) }
    ensures logged { is_some result.3 ≡ is_some log }
    ensures kept { IfSome log (λ keeper. (head : List ℕ)
        → IsLogged head (L.text keeper.writer.log) (L.kept keeper.writer.log) keeper.writer.count keeper.writer.check
        first.known.start.journal → IfSome result.3 (λ last. IsKeptIn last.has_failed head (L.text last.writer.log) (L.kept last.writer.log)
        last.writer.count last.writer.check first.known.start.journal result.0.known.made)) }
{
    let gate = gate_of(&log, outcomes.len() as u32 + 1);
    let start = &Start::new(gate, version);
    thread::scope(
        thread::scope_env(),
        rt,
        move |scope| -> (Pass, Outcome, Vec<Outcome>, Option<LogKeeper<L>>)
            requires first { MaySplit desk.now first 0 (length outcomes.items + passes_of log) }
            requires seen { HasSeenTo start.now.version first.known }
            requires operator { first.known.planner ≡ 0 }
            requires gated { is_some start.now.log ≡ is_some log }
            requires sound { IfSome log (λ keeper. keeper.has_failed ≡ false) }
            ensures owned { Owns desk.entry.now result.0 }
            ensures as_many { length result.2.items ≡ length outcomes.items }
            ensures hosted { HasHosted desk.entry.now (S.inputs seats.entry.now) first.known result.0.known 1 result.2.items result.1 }
            ensures unused { IfSome log (λ _. IsJoinedUnused (length outcomes.items + 1) result.0.known.past) }
            ensures logged { is_some result.3 ≡ is_some log }
            ensures kept { IfSome log (λ keeper. (head : List ℕ)
                → IsLogged head (L.text keeper.writer.log) (L.kept keeper.writer.log) keeper.writer.count keeper.writer.check
                first.known.start.journal → IfSome result.3 (λ last. IsKeptIn last.has_failed head (L.text last.writer.log) (L.kept last.writer.log)
                last.writer.count last.writer.check first.known.start.journal result.0.known.made)) }
        {
            let mut outcomes = outcomes;
            let seated = outcomes.as_mut_slice();
            let gate = start.gate.lock(rt);
            let (first, operator, log) = host_all(
                rt, alloc, scope, desk, first, seats, start, gate, 0, seated, log,
            );
            (first, operator, outcomes, log)
        },
    )
}
