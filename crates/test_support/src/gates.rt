//! Gates that count, and that hold what passes them.
use desk_audit::Gate;
use std::sync::atomic::{AtomicBool, AtomicU64, Ordering};
use std::thread;

/// Counts what begins.
#[derive(Drop)]
pub struct Turnstile {
    begun: AtomicU64,
}

impl Turnstile {
    /// Nothing has begun.
    pub fn new() -> Turnstile {
        Turnstile {
            begun: AtomicU64::new(0),
        }
    }

    /// How many have begun.
    pub fn begun(&self) -> u64 {
        self.begun.load(Ordering::SeqCst)
    }
}

impl Gate for Turnstile {
    fn begins(&self, _number: u32) {
        self.begun.fetch_add(1, Ordering::SeqCst);
    }
}

/// Holds each of two until the other has begun, and tells where one waited in vain.
#[derive(Drop)]
pub struct Meeting {
    begun: [AtomicBool; 2],
    missed: AtomicBool,
}

// How often each looks whether the other has begun.
const MOST_TURNS: u32 = 10_000_000;

impl Meeting {
    /// Neither has begun.
    pub fn new() -> Meeting {
        Meeting {
            begun: [AtomicBool::new(false), AtomicBool::new(false)],
            missed: AtomicBool::new(false),
        }
    }

    /// Whether both have begun, and each found the other.
    pub fn is_met(&self) -> bool {
        self.begun[0].load(Ordering::SeqCst)
            && self.begun[1].load(Ordering::SeqCst)
            && !self.missed.load(Ordering::SeqCst)
    }
}

impl Gate for Meeting {
    fn begins(&self, number: u32) {
        let mine = if number == 0 { 0 } else { 1 };
        self.begun[mine].store(true, Ordering::SeqCst);
        for _ in 0..MOST_TURNS {
            if self.begun[1 - mine].load(Ordering::SeqCst) {
                return;
            }
            thread::yield_now();
        }
        self.missed.store(true, Ordering::SeqCst);
    }
}
