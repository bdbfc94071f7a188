//! What a session waits for before it answers a line.
ghost use Rattle.std.specs.Prelude.{◌≡◌, false};

use crate::hosts::dated::Dated;
use crate::hosts::gates::Gate;
use session_protocol::{KeepFailed, Keeper};
use std::sync::Wait;

/// What keeps the answers of a session from going out before the log has what they show, where there is a
/// log.
#[derive(Drop)]
pub(crate) struct AtGate<'g, R: Wait> {
    rt: &'g R,
    gate: Option<&'g Gate>,
    // The version up to which answers may go out.
    passed: u64,
    has_failed: bool,
}

impl<'g, R: Wait> AtGate<'g, R> {
    /// Answers that show that version at most may go out.
    pub fn new(rt: &'g R, gate: Option<&'g Gate>, passed: u64) -> AtGate<'g, R>
        ensures sound { result.has_failed ≡ false }
        ensures passed { result.passed ≡ passed }
    {
        AtGate {
            rt,
            gate,
            passed,
            has_failed: false,
        }
    }
}

impl<'g, 'a, R: Wait> Keeper<Dated<'a, R>> for AtGate<'g, R> {
    ghost use Rattle.shared_runs.specs.Logged.{HasSeenTo};

    ghost keeps = { λ waiting window. HasSeenTo waiting.passed window.pass };

    ghost keeps_some = { λ waiting before _. HasSeenTo waiting.passed before.pass };

    ghost has_failed = { λ waiting. waiting.has_failed };

    fn keep(&mut self, counter: &Dated<'a, R>) -> Result<(), KeepFailed> {
        let seen = counter.seen();
        let Some(gate) = self.gate else {
            self.passed = seen;
            return Ok(());
        };
        if let Some(kept) = gate.pass(self.rt, seen) {
            self.passed = kept.version();
            return Ok(());
        }
        self.has_failed = true;
        Err(KeepFailed)
    }
}
