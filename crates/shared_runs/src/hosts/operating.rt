//! The operator served, while the log is written.
ghost use Rattle.std.specs.Prelude.{◌≡◌, ◌+◌, ℕ, List, [], false};
ghost use Rattle.desk_log.specs.Keeping.{IsLogged};
ghost use Rattle.desk_shared.specs.Passes.{Owns};
ghost use Rattle.shared_runs.specs.Drills.{MaySplit};
ghost use Rattle.shared_runs.specs.Hosts.{HasHosted, IsEnded};
ghost use Rattle.shared_runs.specs.Logged.{HasSeenTo, IsJoinedUnused, IsKeptIn};

use crate::hosts::scribes::attend;
use crate::hosts::sittings::{Ended, Start, begin};
use commit_log::Log;
use desk_log::LogKeeper;
use desk_shared::{Pass, SharedDesk};
use solver_check::{Outcome, Seats};
use std::alloc::Global;
use std::sync::{MutexGuard, Wait};
use std::thread::{Scope, Threads};
use std::time::Clock;

/// Serves the operator in a thread of its own, through the first pass, and lets all sessions begin.
pub(crate) fn operate<'s, E: 's, R: Threads + Wait + Clock + Sync, S: Seats>(
    rt: &'s R,
    alloc: Global,
    scope: &'s Scope<'s, E>,
    desk: &'s SharedDesk,
    first: Pass,
    seats: &'s S,
    start: &'s Start,
    gate: MutexGuard<'s, ()>,
) -> Ended
    requires owned { Owns desk.now first }
    requires seen { HasSeenTo start.now.version first.known }
    ensures { IsEnded desk.now (S.inputs seats.now 0) first result.0 result.1 }
{
    let sitting = begin(rt, alloc, scope, desk, first, seats, 0, start);
    drop(gate);
    let (pass, ended) = match sitting {
        Ok(child) => child.join(rt),
        Err(missed) => missed,
    };
    (pass, ended)
}

/// Serves the operator as `operate` does. Meanwhile, until all sessions have ended, the log is written here,
/// through a pass that is split off last.
pub(crate) fn operate_logged<'s, E: 's, R: Threads + Wait + Clock + Sync, S: Seats, L: Log + Drop>(
    rt: &'s R,
    alloc: Global,
    scope: &'s Scope<'s, E>,
    desk: &'s SharedDesk,
    mut first: Pass,
    seats: &'s S,
    start: &'s Start,
    gate: MutexGuard<'s, ()>,
    number: u32,
    mut keeper: LogKeeper<L>,
) -> (Pass, Outcome, LogKeeper<L>)
    requires first { MaySplit desk.now first number 1 }
    requires seen { HasSeenTo start.now.version first.known }
    requires operator { first.known.planner ≡ 0 }
    requires sound { keeper.has_failed ≡ false }
    ensures owned { Owns desk.now result.0 }
    ensures hosted { HasHosted desk.now (S.inputs seats.now) first.known result.0.known (number + 1) [] result.1 }
    ensures unused { IsJoinedUnused (number + 1) result.0.known.past }
    ensures kept { (head : List ℕ)
        → IsLogged head (L.text keeper.writer.log) (L.kept keeper.writer.log) keeper.writer.count keeper.writer.check first.known.start.journal
        → IsKeptIn result.2.has_failed head (L.text result.2.writer.log) (L.kept result.2.writer.log) result.2.writer.count result.2.writer.check
        first.known.start.journal result.0.known.made }
{
    let Ok(mut other) = desk.split(&mut first) else {
        unreachable!()
    };
    let operator = begin(rt, alloc, scope, desk, first, seats, 0, start);
    drop(gate);
    attend(rt, alloc, desk, start.log.as_ref(), &mut other, &mut keeper);
    let (mut pass, ended) = match operator {
        Ok(child) => child.join(rt),
        Err(missed) => missed,
    };
    desk.join(&mut pass, other);
    (pass, ended, keeper)
}
