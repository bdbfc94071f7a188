//! A file that is to be written, looked at and held before.
ghost use Rattle.std.specs.Prelude.{◌≡◌, ℕ, List, Some, IfErr, IfOk, IfSome, OnOk, codes, option_map};
ghost use Rattle.std.specs.Io.{StartsWith};
ghost use Rattle.std.specs.IoError.{error_kind};
ghost use Rattle.std.specs.Option.{option_copied};
ghost use Rattle.desk_io.specs.Texts.{IsUnheld};

use crate::telling::More;
use atomic_save::{HoldError, SystemFile, SystemTemporary, hold};
use solver_check::{Fault, RunFault};
use std::fs;
use std::fs::File;
use std::io::{Error, ErrorKind, Read, Result as Done};
use std::rt::Files;
use std::time::Clock;

// How each journal begins.
const HEAD: &[u8; 8] = b"journal ";

/// A file that a session's journal is to be saved in. No other session saves there until this one has,
/// or lets it go.
#[derive(Drop)]
pub struct HeldFile<R: Files<File = File> + AllocGlobal + Drop> {
    pub file: &'static str,
    pub named: SystemFile<R>,
    pub temporary: SystemTemporary,
}

/// Holds the file that a desk's journal is to be saved in, where one is named: it isn't there, or is a
/// journal, or empty, and can be replaced.
///
/// # Errors
///
/// Another session holds it, or it can't be saved, and why; or want of memory.
pub fn hold_named<R: Files<File = File> + AllocGlobal + Clock + Clone + Drop>(
    rt: &R,
    file: Option<&'static str>,
    more: &mut More,
) -> Result<Option<HeldFile<R>>, Fault>
    ensures held { IfOk result (λ held. option_map (λ file. file.file.now) held ≡ option_copied file.entry) }
    ensures unheld { IfErr result (λ fault. (name : List ℕ) × (option_copied file.entry ≡ Some name) × IsUnheld name fault) }
{
    let Some(file) = file else {
        return Ok(None);
    };
    let held = match is_ready(rt, file) {
        Ok(()) => hold(rt, file),
        Err(why) => Err(HoldError::Refused(why)),
    };
    match held {
        Ok((named, temporary)) => Ok(Some(HeldFile {
            file,
            named,
            temporary,
        })),
        Err(HoldError::InUse) => Err(Fault::InUse { file }),
        Err(HoldError::Refused(why)) if why.kind() == ErrorKind::OutOfMemory => {
            Err(Fault::Run(RunFault::OutOfMemory))
        }
        Err(HoldError::Refused(why)) => {
            more.reason(rt.alloc(), &why);
            Err(Fault::CannotWrite { file })
        }
    }
}

// Looks whether the file isn't there, or is a journal, or empty.
fn is_ready<R: Files>(rt: &R, file: &str) -> Done<()> {
    if let Ok(there) = fs::metadata(rt, file) {
        if !there.is_file() {
            return Err(Error::new(ErrorKind::InvalidInput, "not a file"));
        }
        if there.len() > 0 {
            begins_a_journal(&mut fs::open(rt, file)?)?;
        }
    }
    Ok(())
}

// Looks whether what is read begins as a journal does: another file may be a map, named by mistake.
fn begins_a_journal<I: Read>(file: &mut I) -> Done<()>
    ensures begins { OnOk result (IfSome (I.remaining file.old) (λ bytes. StartsWith bytes (codes "journal "))) }
    ensures refused { IfErr result (λ why. error_kind why ≡ ErrorKind.InvalidInput) }
{
    let mut first = [0u8; HEAD.len()];
    let read = file.read_exact(&mut first);
    if read.is_err() || first != *HEAD {
        return Err(Error::new(ErrorKind::InvalidInput, "not a journal"));
    }
    Ok(())
}
