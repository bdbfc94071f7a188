//! A source that counts its calls.
ghost use Rattle.std.specs.Prelude.{None, false, ⊤};

use desk_report::{ReadFailed, Source};

/// Gives one byte so many times, and counts the calls.
#[derive(Drop)]
pub struct Repeated {
    byte: u8,
    left: u64,
    calls: u64,
}

impl Repeated {
    /// That byte, so many times.
    pub fn new(byte: u8, times: u64) -> Repeated {
        Repeated {
            byte,
            left: times,
            calls: 0,
        }
    }

    /// How often it was asked.
    pub fn calls(&self) -> u64 {
        self.calls
    }
}

impl Source for Repeated {
    ghost left = { λ _. None };

    ghost failed = { λ _. false };

    ghost gives = { λ _ _ _. ⊤ };

    fn next_byte(&mut self) -> Result<Option<u8>, ReadFailed> {
        self.calls = self.calls.saturating_add(1);
        if self.left == 0 {
            return Ok(None);
        }
        self.left -= 1;
        Ok(Some(self.byte))
    }
}
