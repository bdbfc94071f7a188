//! A log in memory, of which what a crash leaves is told.
ghost use Rattle.std.specs.Prelude.{◌≡◌, ◌++◌, [], Some};

use crate::logs::{Log, LogFailed};
use std::alloc::Global;

/// A log in memory: a crash leaves what was synced, and any front of the rest.
#[derive(Drop)]
pub struct MemoryLog {
    synced: Vec<u8>,
    waiting: Vec<u8>,
}

impl MemoryLog {
    /// A log that has those bytes, synced.
    pub fn new(alloc: Global, synced: Vec<u8>) -> MemoryLog
        ensures synced { result.synced.items ≡ synced.items }
        ensures waiting { result.waiting.items ≡ [] }
    {
        MemoryLog {
            synced,
            waiting: Vec::new(alloc),
        }
    }

    /// The bytes that a crash leaves at least.
    pub fn synced(&self) -> &[u8]
        ensures { result.now ≡ self.now.synced.items }
    {
        self.synced.as_slice()
    }

    /// The bytes behind those, of which a crash leaves any front.
    pub fn waiting(&self) -> &[u8]
        ensures { result.now ≡ self.now.waiting.items }
    {
        self.waiting.as_slice()
    }
}

impl Log for MemoryLog {
    ghost text = { λ log. Some (log.synced.items ++ log.waiting.items) };

    ghost kept = { λ log. Some log.synced.items };

    fn append(&mut self, bytes: &[u8]) -> Result<(), LogFailed> {
        match self.waiting.extend_from_slice(bytes) {
            Ok(()) => Ok(()),
            Err(_) => Err(LogFailed),
        }
    }

    fn sync(&mut self) -> Result<(), LogFailed> {
        match self.synced.extend_from_slice(self.waiting.as_slice()) {
            Ok(()) => {
                self.waiting.clear();
                Ok(())
            }
            Err(_) => Err(LogFailed),
        }
    }
}
