//! A file is held by one session at a time, from before its first line to the save.
use crate::named_files::NamedFile;
use crate::naming::{ENDING, is_file, split};
use crate::system::SystemFile;
use crate::system_temporary::SystemTemporary;
use std::fs::{File, TryLockError};
use std::io::{Error, ErrorKind, Result as Done};
use std::rt::Files;
use std::time::{Clock, Duration};
use std::{fs, thread};

/// How often a folder that another session has locked for a moment is tried, a hundredth of a second
/// apart.
const TRIES: u32 = 200;

/// Why a file can't be held.
#[derive(Debug, Drop)]
pub enum HoldError {
    /// Another session holds it.
    InUse,
    /// A call of the system failed.
    Refused(Error),
}

/// Holds the file until its temporary file is gone or is the file: meanwhile each other session that
/// holds a file of that name in that folder is refused. What is wanted of memory and of the folder is
/// had then: to save takes no memory, and makes no file.
///
/// Sessions are held apart by a lock on the temporary file (flock), which ends with the process. One
/// that nobody has locked was left by a session that was killed, and is removed. The folder is locked
/// while it is looked through and the file is made.
///
/// # Errors
///
/// Another session holds it, or why it could not be saved: no name, no such folder, or one that takes
/// no file or no lock, a name too long, want of memory.
pub fn hold<R: Files<File = File> + AllocGlobal + Clock + Clone + Drop>(
    rt: &R,
    file: &str,
) -> Result<(SystemFile<R>, SystemTemporary), HoldError> {
    let folder = match lock_folder(rt, file) {
        Ok(folder) => folder,
        Err(why) => return Err(why),
    };
    match is_held(rt, file) {
        Ok(false) => {}
        Ok(true) => return Err(HoldError::InUse),
        Err(why) => return Err(HoldError::Refused(why)),
    }
    let mut named = match SystemFile::new(rt, file, folder) {
        Ok(named) => named,
        Err(why) => return Err(HoldError::Refused(why)),
    };
    let Ok(temporary) = named.create() else {
        return Err(HoldError::Refused(named.into_reason().unwrap_or(ErrorKind::Other.into())));
    };
    match named.unlock_folder() {
        Ok(()) => Ok((named, temporary)),
        Err(why) => {
            named.remove(temporary);
            Err(HoldError::Refused(why))
        }
    }
}

// The folder of the file, which nobody else has locked.
fn lock_folder<R: Files<File = File> + Clock>(rt: &R, file: &str) -> Result<File, HoldError> {
    let (folder, name) = split(file);
    if name.is_empty() {
        let why = Error::new(ErrorKind::InvalidInput, "no name");
        return Err(HoldError::Refused(why));
    }
    let opened = match fs::open(rt, path_of(folder)) {
        Ok(opened) => opened,
        Err(why) => return Err(HoldError::Refused(why)),
    };
    for _ in 0..TRIES {
        match opened.try_lock() {
            Ok(()) => return Ok(opened),
            Err(TryLockError::WouldBlock) => thread::sleep(rt, Duration::from_millis(10)),
            Err(TryLockError::Error(why)) => return Err(HoldError::Refused(why)),
        }
    }
    Err(HoldError::InUse)
}

fn path_of(folder: &str) -> &str {
    if folder.is_empty() { "." } else { folder }
}

// Whether another session holds the file. What killed sessions left is removed.
fn is_held<R: Files<File = File> + AllocGlobal + Clone + Drop>(rt: &R, file: &str) -> Done<bool> {
    let (folder, name) = split(file);
    let begins = format!(in rt.alloc(); ".{name}.")?;
    for entry in fs::read_dir(rt, path_of(folder))? {
        let entry = match entry {
            Ok(entry) => entry,
            Err(why) if why.kind() == ErrorKind::InvalidFilename => continue,
            Err(why) => return Err(why),
        };
        if is_temporary(entry.file_name(), begins.as_str())
            && is_locked(rt, entry.path().as_str())?
        {
            return Ok(true);
        }
    }
    Ok(false)
}

// Whether that is the name of a temporary file, where these names begin so: a number stands between.
fn is_temporary(name: &str, begins: &str) -> bool {
    let Some(behind) = name.strip_prefix(begins) else {
        return false;
    };
    let Some(number) = behind.strip_suffix(ENDING) else {
        return false;
    };
    !number.is_empty() && number.bytes().all(|byte| byte.is_ascii_digit())
}

// Whether a session has locked that temporary file; if none has, it is removed. Nothing else of that
// name is touched.
fn is_locked<R: Files<File = File>>(rt: &R, path: &str) -> Done<bool> {
    if !is_file(rt, path) {
        return Ok(false);
    }
    let opened = match fs::open(rt, path) {
        Ok(opened) => opened,
        Err(why) if why.kind() == ErrorKind::NotFound => return Ok(false),
        Err(why) => return Err(why),
    };
    match opened.try_lock() {
        Ok(()) => {
            let _gone = fs::remove_file(rt, path);
            Ok(false)
        }
        Err(TryLockError::WouldBlock) => Ok(true),
        Err(TryLockError::Error(why)) => Err(why),
    }
}
