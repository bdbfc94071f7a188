ghost use Rattle.std.specs.Prelude.{◌≡◌, false};

use crate::bytes::sink::{Sink, WriteFailed};
use std::io::{ErrorKind, Write};

/// A sink over a writer. A write that was interrupted is made again.
#[derive(Drop)]
pub struct Spout<W> {
    inner: W,
    failed: bool,
}

impl<W: Write> Spout<W> {
    /// A sink into the writer.
    pub fn new(inner: W) -> Spout<W>
        ensures held { ⟦<Spout<W> as Sink>⟧.held result ≡ W.contents inner }
        ensures broken { ⟦<Spout<W> as Sink>⟧.broken result ≡ false }
    {
        Spout {
            inner,
            failed: false,
        }
    }

    /// The writer, which has the bytes that were taken.
    pub fn into_inner(self) -> W
        ensures { W.contents result ≡ ⟦<Spout<W> as Sink>⟧.held self }
    {
        let Spout { inner, failed: _ } = self;
        inner
    }
}

impl<W: Write> Sink for Spout<W> {
    ghost held = { λ s. W.contents s.inner };

    ghost broken = { λ s. s.failed };

    fn put(&mut self, bytes: &[u8]) -> Result<usize, WriteFailed> {
        for _ in 0..u64::MAX {
            match self.inner.write(bytes) {
                Ok(0) if !bytes.is_empty() => break,
                Ok(n) => return Ok(n),
                Err(fault) => {
                    if fault.kind() != ErrorKind::Interrupted {
                        break;
                    }
                }
            }
        }
        self.failed = true;
        Err(WriteFailed)
    }
}
