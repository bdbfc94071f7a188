//! How a pass waits for a commit, without the turn.
ghost use Rattle.std.specs.Prelude.{◌≡◌, ◌<◌, ◌≤◌, true, false};
ghost use Rattle.desk_shared.specs.Passes.{Owns};
ghost use Rattle.desk_shared.specs.Calls.{IsFront};

use super::SharedDesk;
use crate::passes::Pass;
use std::sync::Wait;
use std::time::{Clock, Duration, Instant};

impl SharedDesk {
    /// The version of the desk, as soon as it is above `seen` or `most` has gone, and whether it was
    /// the time that ended the wait. It holds nobody up: it needs no turn, and the thread sleeps. No
    /// later answer to the pass is of a lesser version. Where the clock can't be read, no time is left.
    pub fn wait_above<R: Wait + Clock>(
        &self,
        rt: &R,
        pass: &mut Pass,
        seen: u64,
        most: Duration,
    ) -> (u64, bool)
        requires owned { Owns self.now pass.old }
        ensures owned { Owns self.now pass.new }
        ensures answer { IsFront pass.old.known result.0 pass.new.known }
        ensures above { result.1 ≡ false → seen < result.0 }
        ensures over { result.1 ≡ true → result.0 ≤ seen }
    {
        let start = Instant::now(rt).ok();
        for _ in rt.forever() {
            let version = self.front(pass);
            if version > seen {
                return (version, false);
            }
            let Some(left) = left_of(rt, start, most) else {
                return (version, true);
            };
            let low = (version % (1 << 32)) as u32;
            self.table.shared.park_timeout(rt, 0, low, left);
        }
        unreachable!()
    }
}

// What is left of the time, if any is; none where the clock can't be read.
fn left_of<R: Clock>(rt: &R, start: Option<Instant>, most: Duration) -> Option<Duration> {
    let spent = start?.elapsed(rt).ok()?;
    let left = most.checked_sub(spent)?;
    if left.is_zero() { None } else { Some(left) }
}
