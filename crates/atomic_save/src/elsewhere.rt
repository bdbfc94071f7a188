//! A document that can't be written beside its file is kept in another folder.
use crate::documents::Document;
use crate::naming::{KEPT_ENDING, MOST_NAMES, new_file, split};
use crate::saves::write_whole;
use crate::system_temporary::SystemTemporary;
use std::fs;
use std::fs::File;
use std::io::{BufWriter, ErrorKind, Result as Done};
use std::rt::Files;

/// The folders that are tried, in this order: those of files that are needed for a while, then memory.
const FOLDERS: [&str; 3] = ["/tmp", "/var/tmp", "/dev/shm"];

/// The permissions of what is kept there: the file's own folder may let nobody else in.
const OWN_MODE: u32 = 0o600;

/// Writes the document into a new file, named after the one that it can't be saved in, and gives its
/// path; none where no folder takes it whole. Nothing else is left there.
pub(crate) fn keep_elsewhere<R: Files<File = File> + AllocGlobal, D: Document>(
    rt: &R,
    file: &str,
    document: &D,
) -> Option<String> {
    let (_, name) = split(file);
    for folder in FOLDERS {
        if let Ok((made, path)) = made_in(rt, folder, name) {
            if is_filled(rt, made, document) {
                return Some(path);
            }
            let _gone = fs::remove_file(rt, path.as_str());
        }
    }
    None
}

// Makes a file of the first name in the folder that nobody has.
fn made_in<R: Files<File = File> + AllocGlobal>(
    rt: &R,
    folder: &str,
    name: &str,
) -> Done<(File, String)> {
    for number in 0..MOST_NAMES {
        let path = format!(in rt.alloc(); "{folder}/{name}.{number}{KEPT_ENDING}")?;
        match new_file(rt, path.as_str(), OWN_MODE) {
            Ok(made) => return Ok((made, path)),
            Err(why) if why.kind() == ErrorKind::AlreadyExists => {}
            Err(why) => return Err(why),
        }
    }
    Err(ErrorKind::AlreadyExists.into())
}

// Writes the document into a new file, and tells whether it is whole there.
fn is_filled<R: AllocGlobal, D: Document>(rt: &R, made: File, document: &D) -> bool {
    let Ok(writer) = BufWriter::new(rt.alloc(), made) else {
        return false;
    };
    let (file, whole) = write_whole(document, SystemTemporary::new(writer));
    let (_failed, _why) = file.into_fault();
    whole.is_ok()
}
