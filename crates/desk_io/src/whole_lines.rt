ghost use Rattle.std.specs.Prelude.{◌≡◌, false};
ghost use Rattle.desk_io.specs.WholeLines.{HandsOn};

use desk_report::{ReadFailed, Source};

/// A source of whole lines. It hands on another's bytes, and fails where those end within a line: so
/// a line that is broken off is never taken for a whole one.
#[derive(Debug, Drop)]
pub struct WholeLines<R> {
    inner: R,
    is_within: bool,
    has_failed: bool,
}

impl<R: Source> WholeLines<R> {
    /// The lines of the bytes that the other source still gives.
    pub fn new(inner: R) -> WholeLines<R>
        ensures left { ⟦<WholeLines<R> as Source>⟧.left result ≡ R.left inner }
        ensures failed { ⟦<WholeLines<R> as Source>⟧.failed result ≡ false }
        ensures inner { result.inner ≡ inner }
        ensures at_start { result.is_within ≡ false }
    {
        WholeLines {
            inner,
            is_within: false,
            has_failed: false,
        }
    }
}

impl<R: Source + Drop> WholeLines<R> {
    /// The other source, as it is by now.
    pub fn into_inner(self) -> R
        ensures { result ≡ self.inner }
    {
        self.inner
    }
}

impl<R: Source> Source for WholeLines<R> {
    ghost left = { λ s. R.left s.inner };

    ghost failed = { λ s. s.has_failed };

    ghost gives = { λ old got new. HandsOn R.gives old.inner old.is_within got new.inner new.is_within };

    fn next_byte(&mut self) -> Result<Option<u8>, ReadFailed> {
        let given = self.inner.next_byte();
        match given {
            Ok(Some(byte)) => {
                self.is_within = byte != b'\n';
                given
            }
            Ok(None) if !self.is_within => given,
            _ => {
                self.has_failed = true;
                Err(ReadFailed)
            }
        }
    }
}
