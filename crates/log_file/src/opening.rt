//! How the file of a log is opened.
use crate::files::LogFile;
use std::alloc::Global;
use std::fs;
use std::fs::{File, OpenOptions, TryLockError};
use std::io::{Error, ErrorKind, Read, Result as Done};
use std::os::unix::fs::OpenOptionsExt;
use std::rt::Files;

/// The permissions of a new file, but for those that the process's mask takes away.
const NEW_MODE: u32 = 0o666;

/// Why a log isn't opened.
#[derive(Debug, Drop)]
pub enum OpenError {
    /// Another program has it.
    InUse,
    /// It has more bytes than that.
    TooLong,
    /// A call of the system failed.
    Refused(Error),
}

/// Opens the file of a log, or makes it, and reads its bytes, at most so many. No other program opens
/// it as long as it is open (flock).
///
/// # Errors
///
/// Another program has it, or it has more bytes, or the system's reason; it stays as it is.
pub fn open_log<R: Files<File = File>>(
    rt: &R,
    alloc: Global,
    name: &str,
    is_synced: bool,
    most: u64,
) -> Result<(LogFile, Vec<u8>), OpenError> {
    let mut how = OpenOptions::new();
    how.read(true).append(true).create(true).mode(NEW_MODE);
    let mut file = match how.open(rt, name) {
        Ok(file) => file,
        Err(why) => return Err(OpenError::Refused(why)),
    };
    match file.try_lock() {
        Ok(()) => {}
        Err(TryLockError::WouldBlock) => return Err(OpenError::InUse),
        Err(TryLockError::Error(why)) => return Err(OpenError::Refused(why)),
    }
    match read_all(&mut file, alloc, most) {
        Ok(Some(bytes)) => Ok((LogFile::new(file, is_synced), bytes)),
        Ok(None) => Err(OpenError::TooLong),
        Err(why) => Err(OpenError::Refused(why)),
    }
}

// The bytes of a file; none if they are more than so many, before any is read where its length says so.
fn read_all(file: &mut File, alloc: Global, most: u64) -> Done<Option<Vec<u8>>> {
    let known = file.metadata()?;
    if !known.is_file() {
        return Err(Error::new(ErrorKind::InvalidInput, "not a file"));
    }
    let length = known.len();
    if length > most {
        return Ok(None);
    }
    let mut bytes = Vec::with_capacity(alloc, length as usize)?;
    let count = file.take(most.saturating_add(1)).read_to_end(&mut bytes)?;
    if count as u64 > most {
        return Ok(None);
    }
    Ok(Some(bytes))
}

/// Makes the end of the machine leave the name of a file that was made.
///
/// # Errors
///
/// The system's reason.
pub fn settle_name<R: Files<File = File>>(rt: &R, name: &str) -> Done<()> {
    let folder = match name.rfind('/') {
        Some(end) => name.get(..=end).unwrap_or("."),
        None => ".",
    };
    fs::open(rt, folder)?.sync_all()
}
