use crate::hearing::{Hearing, MOST_HEARD};
use desk_report::{Sink, WriteFailed};

/// A sink that takes all answers to a script and keeps none. Whoever goes along hears the first word
/// of each line.
#[derive(Drop)]
pub struct Heard<'h, H: Hearing> {
    hearing: &'h H,
    script: u32,
    word: [u8; MOST_HEARD],
    length: usize,
    is_told: bool,
}

impl<'h, H: Hearing> Heard<'h, H> {
    /// The sink of the script of that number, at the beginning of a line.
    pub fn new(hearing: &'h H, script: u32) -> Heard<'h, H> {
        Heard {
            hearing,
            script,
            word: [0; MOST_HEARD],
            length: 0,
            is_told: false,
        }
    }

    // Takes one more byte.
    fn take(&mut self, byte: u8) {
        let is_end = byte == b'\n';
        if !self.is_told {
            if is_end || byte == b' ' {
                let word = self.word.get(..self.length).unwrap_or(&[]);
                self.hearing.hears(self.script, word);
                self.is_told = true;
            } else if self.length < MOST_HEARD {
                self.word[self.length] = byte;
                self.length += 1;
            }
        }
        if is_end {
            self.length = 0;
            self.is_told = false;
        }
    }
}

impl<H: Hearing> Sink for Heard<'_, H> {
    ghost use Rattle.std.specs.Prelude.{None, false};

    ghost held = { λ _. None };

    ghost broken = { λ _. false };

    fn put(&mut self, bytes: &[u8]) -> Result<usize, WriteFailed> {
        for byte in bytes {
            self.take(*byte);
        }
        Ok(bytes.len())
    }
}
