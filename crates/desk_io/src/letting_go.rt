//! How threads that wait at a planner's pipes are let go.
use crate::doors::{Doors, Opened, Reader, Stage};
use crate::meeting::pause;
use crate::pipes::both_ends;
use std::io::Write;
use std::sync::atomic::Ordering;
use std::sync::{Mutex, Wait};

// Opens both ends of a pipe, as long as the desk's end is open, so that who waits to open it goes on, and
// with a byte who reads.
fn free<R: Wait>(rt: &R, host: &HostRuntime, pipe: &Mutex<Option<String>>, bytes: &[u8]) {
    if let Some(anchor) = &*pipe.lock(rt) {
        if let Ok(mut both) = both_ends().open(host, anchor.as_str()) {
            if !bytes.is_empty() {
                let _written = both.write(bytes);
            }
        }
    }
}

impl Doors {
    /// The planner isn't waited for: its files are closed, and nobody waits at them any more.
    pub fn shut<R: Wait>(&self, rt: &R, host: &HostRuntime) {
        self.settle(rt, host);
        *self.opened.lock(rt) = Opened::Taken;
        *self.output.lock(rt) = None;
    }

    /// Lets who waits at the pipes go on, and closes the way to them.
    pub fn settle<R: Wait>(&self, rt: &R, host: &HostRuntime) {
        let _missed = self.go(rt, Stage::Awaited, Stage::Missed);
        for _ in rt.forever() {
            if !matches!(self.reader(rt), Reader::Awaited) {
                break;
            }
            free(rt, host, &self.outward, b"");
            pause(host);
        }
        *self.inward.lock(rt) = None;
        *self.outward.lock(rt) = None;
        self.pass(rt);
    }

    /// Has the thread that waits for who writes look at the input: so what somebody left who came and
    /// went before it waited isn't overlooked.
    pub fn nudge<R: Wait>(&self, rt: &R, host: &HostRuntime) {
        if self.awaits.load(Ordering::SeqCst) && self.stage(rt) == Stage::Awaited {
            self.is_nudged.store(true, Ordering::SeqCst);
            free(rt, host, &self.inward, b"");
        }
    }

    /// Whether the planner is there, though it isn't met yet: it reads, and is silent.
    pub fn is_silent<R: Wait>(&self, rt: &R) -> bool {
        self.reads.load(Ordering::SeqCst) && matches!(self.reader(rt), Reader::Here)
    }

    /// Waits for the planner no longer, unless it is there.
    pub fn dismiss<R: Wait>(&self, rt: &R) {
        if !self.is_silent(rt) {
            let _missed = self.go(rt, Stage::Awaited, Stage::Missed);
        }
    }

    /// Lets the thread go on that waits for who writes, where the planner isn't awaited: one step of that.
    pub fn release<R: Wait>(&self, rt: &R, host: &HostRuntime) {
        if self.stage(rt) == Stage::Missed {
            let bytes: &[u8] = if self.reads.load(Ordering::SeqCst) {
                b"\n"
            } else {
                b""
            };
            free(rt, host, &self.inward, bytes);
        }
    }
}
