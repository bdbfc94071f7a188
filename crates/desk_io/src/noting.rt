//! A writer whose failures are told with the system's reason.
ghost use Rattle.std.specs.Prelude.{◌≡◌, None, OnOk};
ghost use Rattle.std.specs.Io.KnownBytes.{Keeps};

use std::io::{Error, ErrorKind, Result, Write};

/// A writer that notes the reason for its first failure. To be interrupted is none.
#[derive(Drop)]
pub struct Noting<W: Write + Drop> {
    writer: W,
    why: Option<Error>,
}

impl<W: Write + Drop> Noting<W> {
    /// The writer, which hasn't failed yet.
    pub fn new(writer: W) -> Noting<W>
        ensures writer { result.writer ≡ writer }
        ensures whole { result.why ≡ None }
    {
        Noting { writer, why: None }
    }

    /// The writer, and why it failed first, where it did.
    pub fn into_parts(self) -> (W, Option<Error>)
        ensures writer { result.0 ≡ self.writer }
        ensures why { result.1 ≡ self.why }
    {
        let Noting { writer, why } = self;
        (writer, why)
    }

    /// Sends what the writer holds.
    ///
    /// # Errors
    ///
    /// What was written has not all gone out, for that reason: also where an earlier write failed.
    pub fn send(&mut self) -> Result<()>
        ensures whole { OnOk result (self.new.why ≡ None) }
        ensures bytes { Keeps (W.contents self.old.writer) (W.contents self.new.writer) }
    {
        self.flush()?;
        match self.why {
            Some(why) => Err(why),
            None => Ok(()),
        }
    }

    // Keeps the reason for a failure, if it is the first.
    fn note(&mut self, why: Error)
        ensures { self.new.writer ≡ self.old.writer }
    {
        if self.why.is_none() && why.kind() != ErrorKind::Interrupted {
            self.why = Some(why);
        }
    }
}

impl<W: Write + Drop> Write for Noting<W> {
    ghost contents = { λ noting. W.contents noting.writer };

    fn write(&mut self, bytes: &[u8]) -> Result<usize> {
        match self.writer.write(bytes) {
            Ok(count) => Ok(count),
            Err(why) => {
                self.note(why);
                Err(why)
            }
        }
    }

    fn flush(&mut self) -> Result<()> {
        match self.writer.flush() {
            Ok(()) => Ok(()),
            Err(why) => {
                self.note(why);
                Err(why)
            }
        }
    }
}
