//! What is known at a gate of a log and of those who wait for it, and so who goes on.
ghost use Rattle.std.specs.Prelude.{◌≡◌, ◌↔◌, ◌-◌, ◌<◌, ◌||◌, IsTrue, false, max};
ghost use Rattle.shared_runs.specs.Gates.{IsFate, IsKeptTo, IsWriting};

use commit_log::Log;
use desk_log::LogKeeper;

/// Up to which version a log keeps a desk's entries: made here alone, from what a log has.
#[derive(Clone, Copy)]
pub(crate) struct KeptTo {
    version: u64,
}

impl KeptTo {
    /// That version.
    pub fn version(self) -> u64
        ensures { result ≡ self.version }
    {
        self.version
    }
}

/// What becomes of an answer.
#[derive(Clone, Copy)]
pub(crate) enum Fate {
    GoesOut(KeptTo),
    Waits,
    /// The log has failed.
    IsLost,
}

/// What whoever writes the log does next.
#[derive(Clone, Copy)]
pub(crate) enum Writing {
    Due,
    NotDue,
    Over,
}

/// What lies under a gate's lock.
#[derive(Drop)]
pub(crate) struct Standing {
    // The version up to which the log keeps the desk's entries.
    kept: u64,
    // The greatest version that an answer waits for.
    asked: u64,
    // How many sessions have not ended.
    seated: u32,
    has_failed: bool,
}

impl Standing {
    /// That of so many sessions, at the log's beginning.
    pub fn new<L: Log>(keeper: &LogKeeper<L>, seated: u32) -> Standing
        ensures kept { IsKeptTo (L.text keeper.now.writer.log) (L.kept keeper.now.writer.log) keeper.now.writer.count keeper.now.writer.check result.kept }
        ensures asked { result.asked ≡ result.kept }
        ensures seated { result.seated ≡ seated }
        ensures failed { result.has_failed ≡ keeper.now.has_failed }
    {
        let kept = keeper.count();
        Standing {
            kept,
            asked: kept,
            seated,
            has_failed: keeper.has_failed(),
        }
    }

    /// What becomes of an answer that shows the entries up to that version.
    pub fn fate_of(&self, version: u64) -> Fate
        ensures { IsFate self.now version result }
    {
        if self.has_failed {
            return Fate::IsLost;
        }
        if version <= self.kept {
            return Fate::GoesOut(KeptTo { version: self.kept });
        }
        Fate::Waits
    }

    /// An answer waits for that version: whether none has waited for as much before.
    pub fn ask(&mut self, version: u64) -> bool
        ensures told { IsTrue result ↔ (self.old.asked < version) }
        ensures asked { self.new.asked ≡ max self.old.asked version }
        ensures same { (self.new.kept ≡ self.old.kept) × (self.new.has_failed ≡ self.old.has_failed) × (self.new.seated ≡ self.old.seated) }
    {
        if version <= self.asked {
            return false;
        }
        self.asked = version;
        true
    }

    /// A session has ended.
    pub fn leave(&mut self)
        ensures seated { self.new.seated ≡ self.old.seated - 1 }
        ensures same { (self.new.kept ≡ self.old.kept) × (self.new.has_failed ≡ self.old.has_failed) × (self.new.asked ≡ self.old.asked) }
    {
        self.seated = self.seated.saturating_sub(1);
    }

    /// What whoever writes the log does next.
    pub fn writing(&self) -> Writing
        ensures { IsWriting self.now result }
    {
        if self.seated == 0 {
            return Writing::Over;
        }
        if self.has_failed || self.asked <= self.kept {
            return Writing::NotDue;
        }
        Writing::Due
    }

    /// The log has gone on, or has failed.
    pub fn follow<L: Log>(&mut self, keeper: &LogKeeper<L>)
        ensures failed { self.new.has_failed ≡ (self.old.has_failed || keeper.now.has_failed) }
        ensures kept { self.new.has_failed ≡ false
            → IsKeptTo (L.text keeper.now.writer.log) (L.kept keeper.now.writer.log) keeper.now.writer.count keeper.now.writer.check self.new.kept }
        ensures same { (self.new.asked ≡ self.old.asked) × (self.new.seated ≡ self.old.seated) }
    {
        if keeper.has_failed() {
            self.has_failed = true;
            return;
        }
        self.kept = keeper.count();
    }
}
