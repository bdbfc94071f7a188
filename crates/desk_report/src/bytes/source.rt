ghost use Rattle.std.specs.Prelude.{◌≡◌, ℕ, List, Option, Bool, None, IfOk, is_err, ◌||◌};
ghost use Rattle.std.specs.Io.KnownBytes.{Consumes, IsAtEnd};
ghost use Rattle.desk_report.specs.Bytes.{bytes_got, Giving};

use thiserror::Error;

/// A source could not be read.
#[derive(Clone, Copy, Debug, PartialEq, Eq, Error)]
#[error("read failed")]
pub struct ReadFailed;

/// What gives bytes, one at a time.
pub trait Source {
    /// The bytes still to come, where they are told.
    ghost left: { Self → Option (List ℕ) };

    /// Whether a call has failed.
    ghost failed: { Self → Bool };

    /// What a call may give, and the source that it then leaves.
    ghost gives: { Giving Self };

    /// The next byte, or none at the end. After a failure the bytes still to come are the same.
    fn next_byte(&mut self) -> Result<Option<u8>, ReadFailed>
        ensures bytes { Consumes (left self.old) (left self.new) (bytes_got result) }
        ensures end { IfOk result (λ byte. byte ≡ None → IsAtEnd (left self.new)) }
        ensures failed { failed self.new ≡ (failed self.old || is_err result) }
        ensures gives { gives self.old result self.new };
}
