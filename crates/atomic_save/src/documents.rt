//! What is to be saved.
ghost use Rattle.std.specs.Prelude.{◌≡◌, ℕ, List, OnOk, is_err, ◌||◌};
ghost use Rattle.std.specs.Io.KnownBytes.{Appends};

use crate::temporary_files::{FileFailed, TemporaryFile};

/// Bytes that are written in pieces, so that they are never in memory as a whole.
pub trait Document {
    /// The bytes.
    ghost bytes: { Self → List ℕ };

    /// Writes them all, and hands the file back. It fails only where the file does.
    fn write<T: TemporaryFile>(&self, file: T) -> (T, Result<(), FileFailed>)
        ensures bytes { OnOk result.1 (Appends (T.written file) (T.written result.0) (bytes self.now)) }
        ensures failed { T.has_failed result.0 ≡ (T.has_failed file || is_err result.1) };
}
