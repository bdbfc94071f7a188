//! What grows at its end, and of which a crash leaves a front.
ghost use Rattle.std.specs.Prelude.{◌≡◌, ℕ, List, Option, OnOk, OnErr};
ghost use Rattle.std.specs.Io.KnownBytes.{Appends};
ghost use Rattle.commit_log.specs.Crashes.{AppendsSome};

use thiserror::Error;

/// A log could not be written or synced.
#[derive(Clone, Copy, Debug, PartialEq, Eq, Error)]
#[error("log failed")]
pub struct LogFailed;

/// Bytes that grow at their end.
pub trait Log {
    /// The bytes that a read would give, where they are told.
    ghost text: { Self → Option (List ℕ) };

    /// Those of them that a crash leaves at least, where they are told.
    ghost kept: { Self → Option (List ℕ) };

    /// Puts the bytes behind those that are there.
    ///
    /// # Errors
    ///
    /// The log failed: a front of the bytes may stand there.
    fn append(&mut self, bytes: &[u8]) -> Result<(), LogFailed>
        ensures done { OnOk result (Appends (text self.old) (text self.new) bytes.now) }
        ensures some { OnErr result (AppendsSome (text self.old) (text self.new) bytes.now) }
        ensures kept { kept self.new ≡ kept self.old };

    /// After it, a crash leaves all that a read gives.
    ///
    /// # Errors
    ///
    /// The log failed: nothing is said of what a crash leaves beyond what it left before.
    fn sync(&mut self) -> Result<(), LogFailed>
        ensures same { text self.new ≡ text self.old }
        ensures done { OnOk result (kept self.new ≡ text self.new) }
        ensures failed { OnErr result (kept self.new ≡ kept self.old) };
}
