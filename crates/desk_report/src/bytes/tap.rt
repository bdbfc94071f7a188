ghost use Rattle.std.specs.Prelude.{◌≡◌, false};
ghost use Rattle.std.specs.Io.KnownBytes.{Consumes};
ghost use Rattle.desk_report.specs.Bytes.{bytes_got};

use crate::bytes::source::{ReadFailed, Source};
use std::io::{ErrorKind, Read};

/// A source over a reader. A read that was interrupted is made again.
#[derive(Drop)]
pub struct Tap<R> {
    inner: R,
    failed: bool,
}

impl<R: Read> Tap<R> {
    /// A source of the bytes that the reader still gives.
    pub fn new(inner: R) -> Tap<R>
        ensures left { ⟦<Tap<R> as Source>⟧.left result ≡ R.remaining inner }
        ensures failed { ⟦<Tap<R> as Source>⟧.failed result ≡ false }
    {
        Tap {
            inner,
            failed: false,
        }
    }

    /// The reader, which still gives the bytes that did not come.
    pub fn into_inner(self) -> R
        ensures { R.remaining result ≡ ⟦<Tap<R> as Source>⟧.left self }
    {
        let Tap { inner, failed: _ } = self;
        inner
    }
}

impl<R: Read> Source for Tap<R> {
    ghost left = { λ t. R.remaining t.inner };

    ghost failed = { λ t. t.failed };

    ghost gives = { λ old got new. Consumes (R.remaining old.inner) (R.remaining new.inner) (bytes_got got) };

    fn next_byte(&mut self) -> Result<Option<u8>, ReadFailed> {
        let mut one = [0u8; 1];
        for _ in 0..u64::MAX {
            match self.inner.read(&mut one) {
                Ok(0) => return Ok(None),
                Ok(_) => return Ok(Some(one[0])),
                Err(fault) => {
                    if fault.kind() != ErrorKind::Interrupted {
                        break;
                    }
                }
            }
        }
        self.failed = true;
        Err(ReadFailed)
    }
}
