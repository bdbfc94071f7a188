//! What is kept of a counter between what a line did and its answer.
ghost use Rattle.std.specs.Prelude.{◌≡◌, ◌||◌, Bool, OnErr, OnOk, false, is_err};
ghost use Rattle.session_protocol.specs.Keeping.{HasAnswered};

use desk_core::Counter;
use thiserror::Error;

/// What a line did isn't kept.
#[derive(Clone, Copy, Debug, PartialEq, Eq, Error)]
#[error("not kept")]
pub struct KeepFailed;

/// What keeps what lines did at a counter, each before it is answered.
pub trait Keeper<C: Counter> {
    /// It keeps what the counter has.
    ghost keeps: { Self → C → Type 0 };

    /// It keeps what the first counter had, and maybe some of what the second has since.
    ghost keeps_some: { Self → C → C → Type 0 };

    /// Whether a call has failed.
    ghost has_failed: { Self → Bool };

    /// Keeps what the last line did.
    ///
    /// # Errors
    ///
    /// It could not be kept, or not all of it.
    fn keep(&mut self, counter: &C) -> Result<(), KeepFailed>
        ensures kept { (before : C) → keeps self.old before → HasAnswered C.counting before counter.now → OnOk result (keeps self.new counter.now) }
        ensures left { (before : C) → keeps self.old before → HasAnswered C.counting before counter.now
            → OnErr result (keeps_some self.new before counter.now) }
        ensures failed { has_failed self.new ≡ (has_failed self.old || is_err result) };
}

/// It keeps nothing, and never fails.
#[derive(Clone, Copy)]
pub(crate) struct Unkept;

impl<C: Counter> Keeper<C> for Unkept {
    ghost keeps = { λ _ _. Unit {0} };

    ghost keeps_some = { λ _ _ _. Unit {0} };

    ghost has_failed = { λ _. false };

    fn keep(&mut self, _counter: &C) -> Result<(), KeepFailed> {
        Ok(())
    }
}
