//! What others wrote, as a line on standard error shows it.
ghost use Rattle.std.specs.Prelude.{◌≡◌};
ghost use Rattle.solver_check.specs.Shown.{shown_letter};

use std::fmt::{Display, Formatter, Result, Write};

/// The letter that a byte is shown by: a tab by a blank, and what isn't a letter, a digit or a sign of
/// ASCII by a question mark. So a text of others is one line, and commands no terminal.
pub fn letter_of(byte: u8) -> char
    ensures { result ≡ shown_letter byte }
{
    match byte {
        b'\t' => ' ',
        32..127 => char::from(byte),
        _ => '?',
    }
}

/// A name of a file or a planner, as it is shown: each byte by its letter.
#[derive(Clone, Copy, Debug)]
pub struct Shown<'n>(pub &'n str);

impl Display for Shown<'_> {
    fn fmt<W: Write>(&self, f: &mut Formatter<W>) -> Result {
        for byte in self.0.as_bytes() {
            f.write_char(letter_of(*byte))?;
        }
        Ok(())
    }
}
