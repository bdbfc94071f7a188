//! The file that is to be saved, by its name.
ghost use Rattle.std.specs.Prelude.{◌≡◌, ◌≤◌, [], Bool, IsTrue, ℕ, Some, IfOk, OnOk, OnErr, is_err, ◌||◌};
ghost use Rattle.atomic_save.specs.Outcomes.{Content, Only, Within, Replaced, Elapses};

use crate::temporary_files::{FileFailed, TemporaryFile};

/// A file by its name, and the folder that has the name. The process may end at any moment, and the
/// machine too.
pub trait NamedFile<T: TemporaryFile> {
    /// Whether the ghost members tell what is so; where they don't, nothing is claimed of the file.
    ghost is_told: { Bool };

    /// What whoever opens the file now finds.
    ghost content: { Self → Content };

    /// What an end at this moment may leave under the name.
    ghost may_leave: { Self → Content → Type 0 };

    /// The moment, as a number that doesn't fall.
    ghost moment: { Self → ℕ };

    /// What an end at some moment from that one on might have left, during a call or between two.
    ghost left_since: { Self → ℕ → Content → Type 0 };

    /// Whether a call has failed, also one on a temporary file that was handed in.
    ghost has_failed: { Self → Bool };

    /// Makes an empty temporary file beside it, of a name that nobody has.
    fn create(&mut self) -> Result<T, FileFailed>
        ensures empty { IsTrue is_told → IfOk result (λ file. T.written file ≡ Some []) }
        ensures content { IsTrue is_told → content self.new ≡ content self.old }
        ensures ends { IsTrue is_told → Within (may_leave self.old) (may_leave self.new) }
        ensures time { IsTrue is_told → Elapses (moment self.old) (moment self.new) (left_since self.old) (left_since self.new) (may_leave self.new) }
        ensures failed { has_failed self.new ≡ (has_failed self.old || is_err result) };

    /// Gives the temporary file the name, in one step; where that fails, the name has what it had, and
    /// the temporary file is kept.
    fn rename(&mut self, file: T) -> Result<(), FileFailed>
        ensures renamed { IsTrue is_told → OnOk result (content self.new ≡ T.written file) }
        ensures same { IsTrue is_told → OnErr result (content self.new ≡ content self.old) }
        ensures ends { IsTrue is_told → Replaced (may_leave self.old) (T.may_keep file) (may_leave self.new) }
        ensures time { IsTrue is_told → Elapses (moment self.old) (moment self.new) (left_since self.old) (left_since self.new) (may_leave self.new) }
        ensures failed { has_failed self.new ≡ ((has_failed self.old || T.has_failed file) || is_err result) };

    /// Removes the temporary file.
    fn remove(&mut self, file: T)
        ensures content { IsTrue is_told → content self.new ≡ content self.old }
        ensures ends { IsTrue is_told → Within (may_leave self.old) (may_leave self.new) }
        ensures time { IsTrue is_told → Elapses (moment self.old) (moment self.new) (left_since self.old) (left_since self.new) (may_leave self.new) }
        ensures failed { has_failed self.new ≡ (has_failed self.old || T.has_failed file) };

    /// Puts the folder onto the disk: an end leaves what the name has from then on.
    fn sync_folder(&mut self) -> Result<(), FileFailed>
        ensures durable { IsTrue is_told → OnOk result (Only (content self.old) (may_leave self.new)) }
        ensures content { IsTrue is_told → content self.new ≡ content self.old }
        ensures ends { IsTrue is_told → Within (may_leave self.old) (may_leave self.new) }
        ensures time { IsTrue is_told → Elapses (moment self.old) (moment self.new) (left_since self.old) (left_since self.new) (may_leave self.new) }
        ensures failed { has_failed self.new ≡ (has_failed self.old || is_err result) };

    /// A process that ends now leaves what the name has now.
    ghost leaves_content: { (file : Self) → may_leave file (content file) };

    /// This moment is one of those since an earlier one.
    ghost counts_now: { (file : Self) (t : ℕ) (c : Content) → t ≤ moment file → may_leave file c → left_since file t c };

    /// Since this moment there is no other.
    ghost only_now: { (file : Self) (c : Content) → left_since file (moment file) c → may_leave file c };
}
