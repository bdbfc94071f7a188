//! The file that the new bytes are written into.
ghost use Rattle.std.specs.Prelude.{◌≡◌, ℕ, List, Bool, Option, Some, IfSome, OnOk, OnErr, is_err, ◌||◌};
ghost use Rattle.std.specs.Io.KnownBytes.{Appends};
ghost use Rattle.atomic_save.specs.Outcomes.{Content, Only};

/// A call on a file failed.
#[derive(Clone, Copy, Debug, PartialEq, Eq)]
pub struct FileFailed;

/// A file beside the one that is to be saved, of a name that nobody else has.
pub trait TemporaryFile {
    /// The bytes of the calls that came back `Ok`, where they are told.
    ghost written: { Self → Option (List ℕ) };

    /// What the end of the machine may leave of it.
    ghost may_keep: { Self → Content → Type 0 };

    /// Whether a call has failed.
    ghost has_failed: { Self → Bool };

    /// Writes all the bytes, behind those before.
    fn write(&mut self, bytes: &[u8]) -> Result<(), FileFailed>
        ensures ok { OnOk result (Appends (written self.old) (written self.new) bytes.now) }
        ensures err { OnErr result (written self.new ≡ written self.old) }
        ensures failed { has_failed self.new ≡ (has_failed self.old || is_err result) };

    /// Puts what was written onto the disk: the end of the machine leaves that from then on.
    fn sync(&mut self) -> Result<(), FileFailed>
        ensures written { written self.new ≡ written self.old }
        ensures kept { OnOk result (IfSome (written self.old) (λ bytes. Only (Some bytes) (may_keep self.new))) }
        ensures failed { has_failed self.new ≡ (has_failed self.old || is_err result) };
}
