//! The desk's ends of pipes that have names, or of other files: opened with no wait, and by nobody else.
ghost use Rattle.std.specs.Fmt.{signed_decimal};
ghost use Rattle.std.specs.Prelude.{◌≡◌, ◌++◌, ℤ, IfErr, IfOk, None, codes, is_some, string_bytes, true};
ghost use Rattle.std.specs.IoError.{error_kind};
ghost use Rattle.std.specs.Option.{option_map};
ghost use Rattle.desk_io.specs.Opening.{both_ends, one_end};

use std::alloc::{AllocError, Global};
use std::fs;
use std::fs::{File, OpenOptions, TryLockError};
use std::io::{Error, ErrorKind, Read, Result as Done};
use std::os::fd::AsRawFd;
use std::os::unix::fs::FileTypeExt;
use std::rt::Files;

/// Which end of a pipe is the desk's.
#[derive(Clone, Copy, PartialEq, Eq)]
pub(crate) enum End {
    /// The desk reads.
    Input,
    /// The desk writes.
    Output,
}

/// The desk's end of a pipe, or another file.
#[derive(Drop)]
pub(crate) struct Door {
    pub file: File,
    /// What the pipe is opened by as long as the door is open, whatever its own name means by then;
    /// none of another file.
    pub anchor: Option<String>,
}

/// Why a door isn't opened.
#[derive(Drop)]
pub(crate) enum DoorError {
    /// It is somebody's door already, of this process or of another one.
    InUse,
    /// A call of the system failed, or there was no memory.
    Refused(Error),
}

impl From<Error> for DoorError {
    fn from(why: Error) -> DoorError {
        DoorError::Refused(why)
    }
}

/// How the desk's end is opened, or the other one waited for.
pub(crate) fn one_end(end: End) -> OpenOptions
    ensures { result ≡ one_end end }
{
    let mut options = OpenOptions::new();
    match end {
        End::Input => {
            options.read(true);
        }
        End::Output => {
            options.write(true);
        }
    }
    options
}

/// How both ends of a pipe are opened: that waits for nobody, and who waits there goes on.
pub(crate) fn both_ends() -> OpenOptions
    ensures { result ≡ both_ends }
{
    let mut options = OpenOptions::new();
    options.read(true).write(true);
    options
}

/// A copy of what a pipe is opened by, where it is one.
pub(crate) fn copied(alloc: Global, anchor: &Option<String>) -> Result<Option<String>, AllocError>
    ensures { IfOk result (λ copy. option_map string_bytes copy ≡ option_map string_bytes anchor.now) }
{
    match anchor {
        Some(anchor) => Ok(Some(String::from_str(alloc, anchor.as_str())?)),
        None => Ok(None),
    }
}

// Locks the file (flock), so that it is one door alone.
fn lock(file: &File) -> Result<(), DoorError> {
    match file.try_lock() {
        Ok(()) => Ok(()),
        Err(TryLockError::WouldBlock) => Err(DoorError::InUse),
        Err(TryLockError::Error(why)) => Err(DoorError::Refused(why)),
    }
}

// What an open file is opened by once more, whatever its name means by then.
fn anchor_of(alloc: Global, file: &File) -> Result<String, DoorError>
    ensures anchor { IfOk result (λ anchor. (number : ℤ) × (string_bytes anchor ≡ codes "/proc/self/fd/" ++ signed_decimal number)) }
    ensures refused { IfErr result (λ fault. (why : Error) × (fault ≡ DoorError.Refused why) × (error_kind why ≡ ErrorKind.OutOfMemory)) }
{
    let number = file.as_raw_fd();
    match format!(in alloc; "/proc/self/fd/{number}") {
        Ok(anchor) => Ok(anchor),
        Err(_) => Err(DoorError::Refused(ErrorKind::OutOfMemory.into())),
    }
}

/// Whether that name is a pipe's.
pub(crate) fn is_pipe<R: Files<File = File>>(rt: &R, file: &str) -> bool {
    match fs::metadata(rt, file) {
        Ok(there) => there.file_type().is_fifo(),
        Err(_) => false,
    }
}

/// Opens the desk's end of the file of that name; an output that isn't there is made, and one that is
/// no pipe is emptied.
///
/// # Errors
///
/// It is a door already: then nothing of the file has changed. Or why it can't be opened; a pipe has to
/// be open to reading and writing.
pub(crate) fn open_door<R: Files<File = File>>(
    rt: &R,
    alloc: Global,
    file: &str,
    end: End,
) -> Result<Door, DoorError> {
    if is_pipe(rt, file) {
        open_pipe(rt, alloc, file, end)
    } else {
        open_other(rt, file, end)
    }
}

// Opens both ends of a pipe, which waits for nobody, and by these the desk's end alone.
fn open_pipe<R: Files<File = File>>(
    rt: &R,
    alloc: Global,
    file: &str,
    end: End,
) -> Result<Door, DoorError>
    ensures { IfOk result (λ door. is_some door.anchor ≡ true) }
{
    let both = both_ends().open(rt, file)?;
    if !both.metadata()?.file_type().is_fifo() {
        return Err(DoorError::Refused(ErrorKind::Other.into()));
    }
    let anchor = anchor_of(alloc, &both)?;
    let door = one_end(end).open(rt, anchor.as_str())?;
    lock(&door)?;
    let anchor = anchor_of(alloc, &door)?;
    Ok(Door {
        file: door,
        anchor: Some(anchor),
    })
}

// Opens a file that is no pipe. Devices may be several doors.
fn open_other<R: Files<File = File>>(rt: &R, file: &str, end: End) -> Result<Door, DoorError>
    ensures { IfOk result (λ door. door.anchor ≡ None) }
{
    let mut options = one_end(end);
    if end == End::Output {
        options.create(true);
    }
    let file = options.open(rt, file)?;
    if file.metadata()?.is_file() {
        lock(&file)?;
        if end == End::Output {
            file.set_len(0)?;
        }
    }
    Ok(Door { file, anchor: None })
}

/// Input of which a byte may have been read ahead.
#[derive(Drop)]
pub(crate) struct Ahead {
    first: Option<u8>,
    file: File,
}

impl Ahead {
    /// The input, of which that byte was read ahead, if any.
    pub fn new(first: Option<u8>, file: File) -> Ahead
        ensures first { result.first ≡ first }
        ensures file { result.file ≡ file }
    {
        Ahead { first, file }
    }
}

impl Read for Ahead {
    fn read(&mut self, bytes: &mut [u8]) -> Done<usize> {
        if let Some(place) = bytes.first_mut() {
            if let Some(byte) = self.first.take() {
                *place = byte;
                return Ok(1);
            }
        }
        self.file.read(bytes)
    }
}
