//! The program's runtime, whose standard output and error are waited for where they would block.
ghost use Rattle.std.specs.Prelude.{◌≡◌, ◌≤◌, IfOk, length};

use crate::patience::waits;
use std::alloc::AllocGlobal;
use std::fmt::Display;
use std::io::{ErrorKind, Result};
use std::time::Clock;

/// A runtime, beside its standard error. What is printed goes out in one piece, where there is memory
/// for that.
#[derive(Clone, Drop)]
pub struct Steady<'a, R, E> {
    pub(crate) rt: &'a R,
    errors: E,
}

impl<'a, R, E> Steady<'a, R, E> {
    pub fn new(rt: &'a R, errors: E) -> Steady<'a, R, E>
        ensures rt { result.rt.now ≡ rt.now }
        ensures errors { result.errors ≡ errors }
    {
        Steady { rt, errors }
    }
}

// Writes some of the bytes, once that doesn't block.
fn write_some<R: Clock, P: Print>(clock: &R, to: &P, bytes: &[u8]) -> Result<usize>
    ensures { IfOk result (λ n. n ≤ length bytes.now) }
{
    for _ in 0..u64::MAX {
        match to.write_some(bytes) {
            Err(why) if waits(clock, why.kind()) => {}
            answer => return answer,
        }
    }
    Err(ErrorKind::WouldBlock.into())
}

// Writes all of the bytes.
fn write_all<R: Clock, P: Print>(clock: &R, to: &P, bytes: &[u8]) -> Result<()> {
    let mut rest = bytes;
    for _ in 0..u64::MAX {
        if rest.is_empty() {
            return Ok(());
        }
        match write_some(clock, to, rest) {
            Ok(0) => return Err(ErrorKind::WriteZero.into()),
            Ok(count) => rest = &rest[count..],
            Err(why) if why.kind() == ErrorKind::Interrupted => {}
            Err(why) => return Err(why),
        }
    }
    Err(ErrorKind::Interrupted.into())
}

// Prints the text, and what ends it.
fn print<R: AllocGlobal + Clock, P: Print, D: Display + Drop>(
    rt: &R,
    to: &P,
    value: D,
    end: &str,
) -> Result<()> {
    match format!(in rt.alloc(); "{value}{end}") {
        Ok(text) => write_all(rt, to, text.as_bytes()),
        Err(_) => to.print(format_args!("{value}{end}")),
    }
}

impl<R: AllocGlobal + Clock + Print, E> Print for Steady<'_, R, E> {
    fn print<D: Display + Drop>(&self, value: D) -> Result<()> {
        print(self.rt, self.rt, value, "")
    }

    fn println<D: Display + Drop>(&self, value: D) -> Result<()> {
        print(self.rt, self.rt, value, "\n")
    }

    fn write_all(&self, bytes: &[u8]) -> Result<()> {
        write_all(self.rt, self.rt, bytes)
    }

    fn write_some(&self, bytes: &[u8]) -> Result<usize>
        ensures bound { IfOk result (λ n. n ≤ length bytes.now) }
    {
        write_some(self.rt, self.rt, bytes)
    }
}

impl<R: AllocGlobal + Clock, E: Print> Eprint for Steady<'_, R, E> {
    fn eprint<D: Display + Drop>(&self, value: D) -> Result<()> {
        print(self.rt, &self.errors, value, "")
    }

    fn eprintln<D: Display + Drop>(&self, value: D) -> Result<()> {
        print(self.rt, &self.errors, value, "\n")
    }
}
