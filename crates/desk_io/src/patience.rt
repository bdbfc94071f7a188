//! Streams that would block, which are waited for: a pipe or a terminal that other programs share with
//! this one may be told by them not to wait (O_NONBLOCK).
ghost use Rattle.std.specs.Prelude.{◌≡◌, ◌↔◌, IsTrue};

use std::io::{ErrorKind, Result, Write};
use std::thread;
use std::time::{Clock, Duration};

// The milliseconds until a stream that would block is tried again.
const PAUSE: u64 = 2;

/// Whether the stream would block, and is to be tried again: then a moment has passed.
pub(crate) fn waits<R: Clock>(clock: &R, kind: ErrorKind) -> bool
    ensures { IsTrue result ↔ (kind ≡ ErrorKind.WouldBlock) }
{
    let blocks = kind == ErrorKind::WouldBlock;
    if blocks {
        thread::sleep(clock, Duration::from_millis(PAUSE));
    }
    blocks
}

/// A writer that is waited for where it would block.
#[derive(Drop)]
pub struct Patient<'a, R: Clock, S> {
    clock: &'a R,
    stream: S,
}

impl<'a, R: Clock, S> Patient<'a, R, S> {
    pub fn new(clock: &'a R, stream: S) -> Patient<'a, R, S>
        ensures { result.stream ≡ stream }
    {
        Patient { clock, stream }
    }
}

impl<R: Clock, S: Write> Write for Patient<'_, R, S> {
    fn write(&mut self, bytes: &[u8]) -> Result<usize> {
        for _ in 0..u64::MAX {
            match self.stream.write(bytes) {
                Err(why) if waits(self.clock, why.kind()) => {}
                answer => return answer,
            }
        }
        Err(ErrorKind::WouldBlock.into())
    }

    fn flush(&mut self) -> Result<()> {
        self.stream.flush()
    }
}
