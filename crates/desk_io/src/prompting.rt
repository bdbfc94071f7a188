//! A reader that tells a person what is to be typed, and is waited for.
ghost use Rattle.std.specs.Prelude.{◌≡◌, if◌then◌else◌};
ghost use Rattle.std.specs.Option.{option_copied};

use crate::patience::waits;
use std::io::{ErrorKind, Read, Result};
use std::time::Clock;

/// A reader that is lent, and what is told on standard error before it is first read, if anything.
/// Where the reader would block it is waited for.
#[derive(Drop)]
pub struct Prompting<'a, R: Clock + Eprint, I: Read> {
    rt: &'a R,
    reader: &'a mut I,
    prompt: Option<&'static str>,
}

impl<'a, R: Clock + Eprint, I: Read> Prompting<'a, R, I> {
    /// The reader, which hasn't been read yet, with that prompt where a person is to type.
    pub fn new(
        rt: &'a R,
        reader: &'a mut I,
        typed: bool,
        prompt: &'static str,
    ) -> Prompting<'a, R, I>
        ensures { option_copied result.prompt ≡ (if typed then Some prompt.now else None) }
    {
        Prompting {
            rt,
            reader,
            prompt: if typed { Some(prompt) } else { None },
        }
    }
}

impl<R: Clock + Eprint, I: Read> Read for Prompting<'_, R, I> {
    ghost remaining = { λ prompting. I.remaining prompting.reader.now };

    fn read(&mut self, bytes: &mut [u8]) -> Result<usize> {
        if let Some(prompt) = self.prompt.take() {
            let _told = eprintln!(self.rt; "{prompt}");
        }
        for _ in 0..u64::MAX {
            match self.reader.read(bytes) {
                Err(why) if waits(self.rt, why.kind()) => {}
                answer => return answer,
            }
        }
        Err(ErrorKind::WouldBlock.into())
    }
}
