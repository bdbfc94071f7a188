//! Names of files, and new files of a name that nobody has.
use std::fs;
use std::fs::{File, OpenOptions};
use std::io::Result as Done;
use std::os::unix::fs::OpenOptionsExt;
use std::rt::Files;

/// How the name of a temporary file ends, which stands beside the file that is to be saved.
pub(crate) const ENDING: &str = ".mapf-new";

/// How the name of one that is kept ends; it isn't hidden.
pub(crate) const KEPT_ENDING: &str = ".mapf-kept";

/// The most names that are tried for a new file.
pub(crate) const MOST_NAMES: u32 = 1_000;

/// The permissions of a new file, but for those that the process's mask takes away.
pub(crate) const NEW_MODE: u32 = 0o666;

/// The folder that a file is in, with the slash behind it, or nothing for the present one; and the
/// file's name there.
pub(crate) fn split(file: &str) -> (&str, &str) {
    match file.rfind('/') {
        Some(end) => (
            file.get(..=end).unwrap_or(""),
            file.get(end.saturating_add(1)..).unwrap_or(""),
        ),
        None => ("", file),
    }
}

/// Whether a file has that name, and no link.
pub(crate) fn is_file<R: Files<File = File>>(rt: &R, path: &str) -> bool {
    match fs::symlink_metadata(rt, path) {
        Ok(there) => there.is_file(),
        Err(_) => false,
    }
}

/// Gives a file another name, if nobody has it, and tells whether it was given.
pub(crate) fn is_renamed_anew<R: Files<File = File>>(rt: &R, from: &str, to: &str) -> bool {
    if new_file(rt, to, NEW_MODE).is_err() {
        return false;
    }
    let renamed = fs::rename(rt, from, to);
    if renamed.is_err() {
        let _gone = fs::remove_file(rt, to);
    }
    renamed.is_ok()
}

/// Makes a file of a name that nobody has: no link is followed.
pub(crate) fn new_file<R: Files<File = File>>(rt: &R, path: &str, mode: u32) -> Done<File> {
    let mut making = OpenOptions::new();
    making.write(true).create_new(true).mode(mode);
    making.open(rt, path)
}
