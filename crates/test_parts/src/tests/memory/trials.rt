//! Runs of a script, in each of which little memory is left to one call.
ghost use Rattle.std.specs.Prelude.{◌≡◌};
ghost use Rattle.std.specs.Result.{result_ok};

use grid_cells::OutOfMemory;
use std::alloc::Global;
use std::process::Abort;
use test_support::Drought;

/// The most calls of a script that find little memory.
const MOST_CALLS: usize = 8;

/// What memory a call finds.
#[derive(Clone, Copy)]
pub enum Memory {
    /// Enough.
    Ample,
    /// Enough, but for the runs in which this call is the tried one.
    Little,
    /// None, and it takes none.
    No,
    /// None, and it may be refused for that.
    Wanting,
}

/// A script is run over and over. In each run one call, the tried one, finds so many bytes of memory
/// and no more, and all others find enough. First that is no byte for the first call, then 16 bytes
/// more each time, until it isn't refused; then the next call is the tried one.
///
/// So each growth of a call is the first refused one in some run, but for those that fit into what
/// the call has given back: such a growth finds room wherever those before it did.
#[derive(Drop)]
pub struct Trial {
    drought: Drought,
    // The tried call, and the bytes that are left to it.
    tried: usize,
    bytes: usize,
    // How many calls with little memory this run has made, and whether the tried one was refused.
    made: usize,
    refused: bool,
    // Whether the last call may be refused.
    may_fail: bool,
    // How often each call was refused, in all runs.
    counts: [u32; MOST_CALLS],
}

impl Trial {
    pub fn begin(rt: &impl Abort, alloc: Global) -> Trial {
        Trial {
            drought: Drought::begin(alloc).expect(rt, "memory"),
            tried: 0,
            bytes: 0,
            made: 0,
            refused: false,
            may_fail: false,
            counts: [0; MOST_CALLS],
        }
    }

    /// To be called before each call of the script, with the memory that it finds.
    pub fn leave(&mut self, rt: &impl Abort, memory: Memory) {
        let tried = matches!(memory, Memory::Little) && self.made == self.tried;
        self.may_fail = tried || matches!(memory, Memory::Wanting);
        let bytes = if tried { self.bytes } else { 0 };
        if tried || matches!(memory, Memory::No | Memory::Wanting) {
            self.drought.leave(bytes).expect(rt, "so much memory");
        }
        self.made = self
            .made
            .saturating_add(usize::from(matches!(memory, Memory::Little)));
    }

    /// To be handed the answer of each call, or none for want of memory. All memory is back then.
    pub fn met<T>(&mut self, rt: &impl Abort, answer: Result<T, OutOfMemory>) -> Option<T>
        ensures { result ≡ result_ok answer }
    {
        self.drought.relieve();
        if answer.is_err() {
            assert!(rt; self.may_fail, "there was memory");
            self.refused = true;
            if self.tried < MOST_CALLS {
                self.counts[self.tried] = self.counts[self.tried].saturating_add(1);
            }
        }
        answer.ok()
    }

    /// To be called after each run of a script of so many calls: whether there is another run. Each
    /// call has to have been refused at least once.
    pub fn goes_on(&mut self, rt: &impl Abort, calls: usize) -> bool {
        self.made = 0;
        if self.refused {
            self.refused = false;
            self.bytes = self.bytes.saturating_add(16);
            return true;
        }
        assert!(rt; self.tried < MOST_CALLS);
        assert!(rt; self.counts[self.tried] > 0, "a call is never refused");
        self.tried += 1;
        self.bytes = 0;
        self.tried < calls
    }

    /// To be called at the end, when each call has been tried: how often each was refused. What comes
    /// next is another script.
    pub fn over(&mut self, rt: &impl Abort, calls: usize) -> [u32; MOST_CALLS] {
        assert!(rt; self.tried == calls && self.made == 0);
        let counts = self.counts;
        self.tried = 0;
        self.bytes = 0;
        self.counts = [0; MOST_CALLS];
        counts
    }
}
