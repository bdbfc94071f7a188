//! The standard streams of the process.
use std::fs;
use std::fs::{File, OpenOptions};
use std::io::Result;
use std::os::fd::{AsRawFd, IntoRawFd};
use std::rt::Files;

// The number of standard error; standard input is 0, standard output 1.
const LAST: i32 = 2;

/// Takes those of the standard streams that are closed for /dev/null, so that no file that is opened
/// later gets the place of one. Nothing may be opened before.
///
/// # Errors
///
/// Neither /dev/null nor the folder / can be opened.
pub fn fill_standard<R: Files<File = File>>(rt: &R) -> Result<()> {
    let mut both = OpenOptions::new();
    both.read(true).write(true);
    for _ in 0..=LAST {
        let file = match both.open(rt, "/dev/null") {
            Ok(file) => file,
            Err(_) => fs::open(rt, "/")?,
        };
        if file.as_raw_fd() > LAST {
            return Ok(());
        }
        let _kept = file.into_raw_fd();
    }
    Ok(())
}
