//! How long planners are waited for.
use crate::doors::Stage;
use crate::opening::{DoorsFault, PipesFault};
use crate::seats::Pipes;
use std::alloc::Global;
use std::sync::Wait;
use std::thread;
use std::thread::{Builder, JoinHandle, Scope};
use std::time::Duration;

/// The bytes of stack of a thread that waits for who reads a planner's answers, or sees how long one is
/// waited for.
const WATCH_STACK: usize = 131_072;

/// How many times in a second it is looked whether a planner has come.
const LOOKS: u32 = 100;

impl Pipes<'_> {
    /// Tells who hasn't come yet, where that is wanted: who is still waited for a second later.
    pub(crate) fn tell_awaited<R: Wait>(&self, rt: &R) {
        if !self.stages {
            return;
        }
        for _ in 0..LOOKS {
            if self.have_come(rt) {
                return;
            }
            self.pause();
        }
        for doors in &self.doors {
            if doors.stage(rt) == Stage::Awaited && !doors.is_silent(rt) {
                let _told = eprintln!(self.errors(); "mapf_desk: {}: hasn't come yet", doors.name);
            }
        }
    }

    /// Waits for who reads the planners' answers, each at a pipe in a thread of its own.
    pub fn watch<'s, E: 's, R: Wait + Sync>(&'s self, rt: &'s R, scope: &'s Scope<'s, E>) {
        let host = self.host;
        for doors in &self.doors {
            if doors.watched.is_some() {
                let watching = Builder::new().stack_size(WATCH_STACK);
                if watching
                    .spawn_scoped(scope, move || doors.watch(rt, host))
                    .is_err()
                {
                    doors.miss_watch(rt);
                }
            }
        }
    }

    /// Opens all inputs, once it is waited for who reads the answers: so a planner that opens its input
    /// first isn't overlooked where it closes its answers at once.
    ///
    /// # Errors
    ///
    /// Want of memory; or a file of a planner, the first such one, is in use.
    pub fn open<R: Wait>(&self, rt: &R, alloc: Global) -> Result<(), PipesFault> {
        if self.doors.iter().any(|doors| doors.watched.is_some()) {
            for _ in rt.forever() {
                self.pause();
                if self.doors.iter().all(|doors| doors.is_watched(rt)) {
                    break;
                }
            }
        }
        for (doors, name) in self.doors.iter().zip(self.names) {
            match doors.open(self.host, rt, alloc) {
                Ok(()) => {}
                Err(DoorsFault::InUse) => return Err(PipesFault::InUse { name }),
                Err(_) => return Err(PipesFault::OutOfMemory),
            }
        }
        Ok(())
    }

    /// Begins to see how long the planners are waited for, in a thread of its own, as `wait` does; none,
    /// where it doesn't start.
    pub fn keep<'s, E: 's, R: Wait + Sync>(
        &'s self,
        rt: &'s R,
        scope: &'s Scope<'s, E>,
        seconds: Option<u32>,
    ) -> Option<JoinHandle<()>> {
        let waiting = Builder::new().stack_size(WATCH_STACK);
        waiting
            .spawn_scoped(scope, move || self.wait(rt, seconds))
            .ok()
    }

    /// Waits until each planner has come; so many seconds where that is said, and for those who haven't
    /// no longer.
    fn wait<R: Wait>(&self, rt: &R, seconds: Option<u32>) {
        let seconds = seconds.unwrap_or(u32::MAX);
        for _ in 0..seconds {
            for look in 0..LOOKS {
                if self.have_come(rt) {
                    return;
                }
                self.pause();
                if look == 0 {
                    self.nudge(rt);
                }
            }
        }
        self.dismiss(rt);
    }

    // Has the planners looked for that came and went.
    fn nudge<R: Wait>(&self, rt: &R) {
        for doors in &self.doors {
            doors.nudge(rt, self.host);
        }
    }

    fn have_come<R: Wait>(&self, rt: &R) -> bool {
        for doors in &self.doors {
            if doors.stage(rt) != Stage::Past {
                return false;
            }
        }
        true
    }

    fn pause(&self) {
        let _slept = thread::sleep(self.host, Duration::from_millis(10));
    }

    // Waits for planners no longer, until no thread waits for one. Nobody opens a file then but who
    // lets threads go on, and for that there is a spare.
    fn dismiss<R: Wait>(&self, rt: &R) {
        for _ in rt.forever() {
            for doors in &self.doors {
                doors.dismiss(rt);
            }
            drop(self.spare.lock(rt).take());
            for doors in &self.doors {
                doors.release(rt, self.host);
            }
            if self.have_come(rt) {
                return;
            }
            self.pause();
        }
    }

    /// Closes the files of planners who weren't seated.
    pub fn close<R: Wait>(&self, rt: &R) {
        for doors in &self.doors {
            doors.shut(rt, self.host);
        }
    }
}
