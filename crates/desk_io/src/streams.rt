//! Standard input and output, joined: what was answered goes out before the program waits for more.
//! The system's reason for a failure of each is kept.
ghost use Rattle.std.specs.Prelude.{◌≡◌, false, IfOk, None};

use crate::noting::Noting;
use desk_report::{ReadFailed, Source, Tap};
use grid_cells::OutOfMemory;
use std::alloc::Global;
use std::cell::RefCell;
use std::io::{BufReader, BufWriter, Error, ErrorKind, Read, Result, Write};

/// Answers on their way out, in a buffer.
#[derive(Drop)]
pub struct Outlet<W: Write + Drop> {
    writer: Noting<BufWriter<W>>,
    unread: Option<Error>,
}

impl<W: Write + Drop> Outlet<W> {
    pub fn new(writer: BufWriter<W>) -> Outlet<W>
        ensures writer { result.writer.writer ≡ writer }
        ensures unread { result.unread ≡ None }
    {
        Outlet {
            writer: Noting::new(writer),
            unread: None,
        }
    }

    /// Sends what is in the buffer.
    ///
    /// # Errors
    ///
    /// What was answered has not all gone out, for that reason.
    pub fn send(&mut self) -> Result<()>
        ensures { self.new.unread ≡ self.old.unread }
    {
        self.writer.send()
    }

    /// Why the input could not be read, where it could not.
    pub fn unread(&self) -> Option<Error>
        ensures { result ≡ self.now.unread }
    {
        self.unread
    }
}

/// The answers' end of the joined streams.
#[derive(Drop)]
pub struct Answers<'a, W: Write + Drop> {
    outlet: &'a RefCell<Outlet<W>>,
}

impl<'a, W: Write + Drop> Answers<'a, W> {
    pub fn new(outlet: &'a RefCell<Outlet<W>>) -> Answers<'a, W>
        ensures { result.outlet ≡ outlet.entry }
    {
        Answers { outlet }
    }
}

impl<W: Write + Drop> Write for Answers<'_, W> {
    fn write(&mut self, bytes: &[u8]) -> Result<usize> {
        match self.outlet.try_borrow_mut() {
            Ok(mut outlet) => outlet.writer.write(bytes),
            Err(_) => Err(ErrorKind::Other.into()),
        }
    }

    fn flush(&mut self) -> Result<()> {
        match self.outlet.try_borrow_mut() {
            Ok(mut outlet) => outlet.send(),
            Err(_) => Err(ErrorKind::Other.into()),
        }
    }
}

/// The input's end of the joined streams: before it reads on, it sends what was answered.
#[derive(Drop)]
pub struct Asking<'a, R: Read + Drop, W: Write + Drop> {
    reader: R,
    outlet: &'a RefCell<Outlet<W>>,
}

impl<R: Read + Drop, W: Write + Drop> Read for Asking<'_, R, W> {
    ghost remaining = { λ asking. R.remaining asking.reader };

    fn read(&mut self, bytes: &mut [u8]) -> Result<usize> {
        match self.outlet.try_borrow_mut() {
            Ok(mut outlet) => outlet.send()?,
            Err(_) => return Err(ErrorKind::Other.into()),
        }
        let read = self.reader.read(bytes);
        if let Err(why) = read {
            if why.kind() != ErrorKind::Interrupted {
                if let Ok(mut outlet) = self.outlet.try_borrow_mut() {
                    outlet.unread = Some(why);
                }
            }
        }
        read
    }
}

/// The lines' end of the joined streams, with a buffer: before it reads on, it sends what was
/// answered. A read that was interrupted is made again. It gives the bytes that the reader gives, each
/// once and in their order.
#[derive(Drop)]
pub struct Lines<'a, R: Read + Drop, W: Write + Drop> {
    tap: Tap<BufReader<Asking<'a, R, W>>>,
}

impl<'a, R: Read + Drop, W: Write + Drop> Lines<'a, R, W> {
    /// The lines' end over that reader.
    ///
    /// # Errors
    ///
    /// Want of memory for the buffer.
    pub fn new(
        alloc: Global,
        reader: R,
        outlet: &'a RefCell<Outlet<W>>,
    ) -> std::result::Result<Lines<'a, R, W>, OutOfMemory>
        ensures left { IfOk result (λ lines. ⟦<Lines<'a, R, W> as Source>⟧.left lines ≡ R.remaining reader) }
        ensures failed { IfOk result (λ lines. ⟦<Lines<'a, R, W> as Source>⟧.failed lines ≡ false) }
    {
        match BufReader::new(alloc, Asking { reader, outlet }) {
            Ok(buffered) => Ok(Lines {
                tap: Tap::new(buffered),
            }),
            Err(_) => Err(OutOfMemory),
        }
    }
}

impl<'a, R: Read + Drop, W: Write + Drop> Source for Lines<'a, R, W> {
    ghost left = { λ lines. ⟦<Tap<BufReader<Asking<'a, R, W>>> as Source>⟧.left lines.tap };

    ghost failed = { λ lines. ⟦<Tap<BufReader<Asking<'a, R, W>>> as Source>⟧.failed lines.tap };

    ghost gives = { λ old got new. ⟦<Tap<BufReader<Asking<'a, R, W>>> as Source>⟧.gives old.tap got new.tap };

    fn next_byte(&mut self) -> std::result::Result<Option<u8>, ReadFailed> {
        self.tap.next_byte()
    }
}
