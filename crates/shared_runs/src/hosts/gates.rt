//! Where answers wait until a log keeps the commits that they show.
ghost use Rattle.std.specs.Prelude.{◌≤◌, IfSome};

use crate::hosts::standings::{Fate, KeptTo, Standing, Writing};
use commit_log::Log;
use desk_log::LogKeeper;
use std::sync::{Condvar, Mutex, Wait};

/// A gate between the sessions of a shared desk and whoever writes its log.
pub(crate) struct Gate {
    standing: Mutex<Standing>,
    // Something is asked for, or the last session has ended.
    asked: Condvar,
    // The log keeps more, or has failed.
    moved: Condvar,
}

impl Drop for Gate {
    fn drop(self) {
        let Gate {
            standing,
            asked: _,
            moved: _,
        } = self;
        drop(standing);
    }
}

impl Gate {
    /// A gate for so many sessions, of a desk whose log that is.
    pub fn new<L: Log>(keeper: &LogKeeper<L>, seated: u32) -> Gate {
        Gate {
            standing: Mutex::new(Standing::new(keeper, seated)),
            asked: Condvar::new(),
            moved: Condvar::new(),
        }
    }

    /// Waits until the log keeps the commits up to that version, and says up to which it keeps them; None
    /// where it has failed.
    pub fn pass<R: Wait>(&self, rt: &R, version: u64) -> Option<KeptTo>
        ensures { IfSome result (λ kept. version ≤ kept.version) }
    {
        let mut standing = self.standing.lock(rt);
        for _ in rt.forever() {
            match standing.fate_of(version) {
                Fate::GoesOut(kept) => return Some(kept),
                Fate::IsLost => return None,
                Fate::Waits => {}
            }
            if standing.ask(version) {
                self.asked.notify_one();
            }
            standing = self.moved.wait(rt, standing);
        }
        unreachable!()
    }

    /// A session has ended.
    pub fn leave<R: Wait>(&self, rt: &R) {
        let mut standing = self.standing.lock(rt);
        standing.leave();
        self.asked.notify_one();
    }

    /// Waits until an answer waits for more than the log keeps, and says so; false once all sessions have
    /// ended.
    pub fn next<R: Wait>(&self, rt: &R) -> bool {
        let mut standing = self.standing.lock(rt);
        for _ in rt.forever() {
            match standing.writing() {
                Writing::Due => return true,
                Writing::Over => return false,
                Writing::NotDue => {}
            }
            standing = self.asked.wait(rt, standing);
        }
        unreachable!()
    }

    /// Lets those pass who wait for what the log keeps now; none any more where it has failed.
    pub fn move_to<R: Wait, L: Log>(&self, rt: &R, keeper: &LogKeeper<L>) {
        let mut standing = self.standing.lock(rt);
        standing.follow(keeper);
        self.moved.notify_all();
    }
}
