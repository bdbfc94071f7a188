//! Entries put into a log.
ghost use Rattle.std.specs.Prelude.{◌≡◌, ◌⊎◌, ◌++◌, [], ◌∷◌, List, ℕ, Some, OnErr, OnOk, IfOk};
ghost use Rattle.commit_log.specs.Lines.{IsBody};
ghost use Rattle.commit_log.specs.Text.{commit_line, log_text};
ghost use Rattle.commit_log.specs.Crashes.{Counts, MayLeave, IsLogOf};

use crate::checks::{Check, check_of, push_commit_line};
use crate::logs::{Log, LogFailed};

/// A log that entries are put into. After a fault it is to be opened again.
#[derive(Drop)]
pub struct LogWriter<L: Log> {
    pub log: L,
    /// How many entries stand in it.
    pub count: u64,
    /// The check of the last of them, or of the head where there is none.
    pub check: Check,
}

// The entry with the commit line of that number and check.
fn sealed(mut entry: Vec<u8>, number: u64, check: &Check) -> Result<Vec<u8>, LogFailed>
    ensures { IfOk result (λ bytes. bytes.items ≡ entry.items ++ commit_line number check.now) }
{
    match push_commit_line(&mut entry, number, check) {
        Ok(()) => Ok(entry),
        Err(_) => Err(LogFailed),
    }
}

impl<L: Log> LogWriter<L> {
    /// Begins a log that has no bytes: its head stands in it, and a crash leaves that.
    ///
    /// # Errors
    ///
    /// The log failed: a front of the head may stand there.
    pub fn begin(&mut self, head: &[u8]) -> Result<(), LogFailed>
        ensures begun { L.text self.old.log ≡ Some [] → OnOk result (L.text self.new.log ≡ Some (log_text head.now [])) }
        ensures counted { OnOk result (Counts head.now [] self.new.count self.new.check) }
        ensures kept { OnOk result (L.kept self.new.log ≡ L.text self.new.log) }
    {
        self.log.append(head)?;
        self.count = 0;
        self.check = check_of(b"", head);
        self.settle()
    }

    /// Adds an entry, and answers its number, from 1. Nothing says yet that a crash leaves it.
    ///
    /// # Errors
    ///
    /// The log failed, or want of memory: a part of the entry may stand there, and its commit line
    /// with it.
    pub fn put(&mut self, entry: Vec<u8>) -> Result<u64, LogFailed>
        requires entry { IsBody entry.items }
        ensures added { (head : List ℕ) (entries : List (List ℕ)) → Counts head entries self.old.count self.old.check
            → L.text self.old.log ≡ Some (log_text head entries) → OnOk result (L.text self.new.log ≡ Some (log_text head (entries ++ entry.items ∷ []))) }
        ensures counted { (head : List ℕ) (entries : List (List ℕ)) → Counts head entries self.old.count self.old.check
            → OnOk result (Counts head (entries ++ entry.items ∷ []) self.new.count self.new.check) }
        ensures number { IfOk result (λ number. (number ≡ self.new.count)) }
        // whatever a crash leaves, at any moment, it could have left before, or it stands for the entries before or with this one
        ensures any_moment { (head : List ℕ) (entries : List (List ℕ)) (left : List ℕ) → Counts head entries self.old.count self.old.check
            → L.text self.old.log ≡ Some (log_text head entries) → MayLeave (L.kept self.new.log) (L.text self.new.log) left
            → MayLeave (L.kept self.old.log) (L.text self.old.log) left ⊎ (IsLogOf head entries left ⊎ IsLogOf head (entries ++ entry.items ∷ []) left) }
        ensures kept { L.kept self.new.log ≡ L.kept self.old.log }
    {
        let Some(number) = self.count.checked_add(1) else {
            return Err(LogFailed);
        };
        let check = check_of(&self.check, entry.as_slice());
        let bytes = sealed(entry, number, &check)?;
        self.log.append(bytes.as_slice())?;
        self.count = number;
        self.check = check;
        Ok(number)
    }

    /// Makes a crash leave all entries so far: behind it, their numbers may be answered.
    ///
    /// # Errors
    ///
    /// The log failed.
    pub fn settle(&mut self) -> Result<(), LogFailed>
        ensures same { L.text self.new.log ≡ L.text self.old.log }
        ensures count { self.new.count ≡ self.old.count }
        ensures check { self.new.check ≡ self.old.check }
        ensures kept { OnOk result (L.kept self.new.log ≡ L.text self.new.log) }
        ensures failed { OnErr result (L.kept self.new.log ≡ L.kept self.old.log) }
    {
        self.log.sync()
    }
}
