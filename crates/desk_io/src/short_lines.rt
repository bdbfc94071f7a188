ghost use Rattle.std.specs.Prelude.{◌≡◌, false};
ghost use Rattle.desk_io.specs.ShortLines.{HandsOnShort};

use desk_report::{ReadFailed, Source};

/// The most bytes that a line of a planner who is hosted may have, its LF among them.
pub const MOST_LINE: u32 = 4_194_304;

/// A source of lines that aren't too long. It hands on another's bytes, and fails where it has handed on
/// as many of a line as that may have, and no LF.
#[derive(Debug, Drop)]
pub struct ShortLines<R> {
    inner: R,
    // How many bytes of a line were handed on, of which the LF hasn't come.
    length: u32,
    is_cut: bool,
    has_failed: bool,
}

impl<R: Source> ShortLines<R> {
    /// The lines of the bytes that the other source still gives.
    pub fn new(inner: R) -> ShortLines<R>
        ensures left { ⟦<ShortLines<R> as Source>⟧.left result ≡ R.left inner }
        ensures failed { ⟦<ShortLines<R> as Source>⟧.failed result ≡ false }
        ensures inner { result.inner ≡ inner }
        ensures at_start { result.length ≡ 0 }
        ensures whole { result.is_cut ≡ false }
    {
        ShortLines {
            inner,
            length: 0,
            is_cut: false,
            has_failed: false,
        }
    }

    /// Whether a line was too long.
    pub fn is_cut(&self) -> bool
        ensures { result ≡ self.now.is_cut }
    {
        self.is_cut
    }
}

impl<R: Source> Source for ShortLines<R> {
    ghost left = { λ s. R.left s.inner };

    ghost failed = { λ s. s.has_failed };

    ghost gives = { λ old got new. HandsOnShort R.gives old.inner old.length old.is_cut got new.inner new.length new.is_cut };

    fn next_byte(&mut self) -> Result<Option<u8>, ReadFailed> {
        if self.length >= MOST_LINE {
            self.is_cut = true;
            self.has_failed = true;
            return Err(ReadFailed);
        }
        let given = self.inner.next_byte();
        match given {
            Ok(Some(b'\n')) => self.length = 0,
            Ok(Some(_)) => self.length += 1,
            Ok(None) => {}
            Err(_) => self.has_failed = true,
        }
        given
    }
}
