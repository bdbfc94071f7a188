//! How a session waits for a version above one that was seen.
use desk_core::{Awaits, Counter};
use std::time::Duration;

/// Whether a session waits, and how long.
pub(crate) trait Waiting<C: Counter> {
    /// The counter's version, once it is above that one or so many seconds have gone.
    fn version_above(&self, counter: &mut C, seen: u64, seconds: u32) -> u64
        ensures { C.counting.versions counter.old result counter.new };
}

/// It doesn't wait. No line of version 1 asks for it.
#[derive(Clone, Copy)]
pub(crate) struct AtOnce;

impl<C: Counter> Waiting<C> for AtOnce {
    fn version_above(&self, counter: &mut C, _seen: u64, _seconds: u32) -> u64 {
        counter.version()
    }
}

/// It waits as long as the counter does.
#[derive(Clone, Copy)]
pub(crate) struct AsLong;

impl<C: Awaits> Waiting<C> for AsLong {
    fn version_above(&self, counter: &mut C, seen: u64, seconds: u32) -> u64 {
        let (version, _over) = counter.wait_above(seen, Duration::from_secs(u64::from(seconds)));
        version
    }
}
