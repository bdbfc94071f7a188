ghost use Rattle.std.specs.Prelude.{◌≡◌, ◌++◌, codes, OnOk, is_err, ◌||◌};
ghost use Rattle.std.specs.Io.KnownBytes.{Appends};

use super::{Call, MemoryFile};
use crate::documents::Document;
use crate::named_files::NamedFile;
use crate::saves::{SaveError, save};
use crate::temporary_files::{FileFailed, TemporaryFile};
use std::process::Abort;

// A document of two pieces.
struct Pieces;

impl Document for Pieces {
    ghost bytes = { λ _. codes "new " ++ codes "bytes" };

    fn write<T: TemporaryFile>(&self, mut file: T) -> (T, Result<(), FileFailed>) {
        let written = write_pieces(&mut file);
        (file, written)
    }
}

fn write_pieces<T: TemporaryFile>(file: &mut T) -> Result<(), FileFailed>
    ensures bytes { OnOk result (Appends (T.written file.old) (T.written file.new) (codes "new " ++ codes "bytes")) }
    ensures failed { T.has_failed file.new ≡ (T.has_failed file.old || is_err result) }
{
    file.write(b"new ")?;
    file.write(b"bytes")
}

const NEW: Option<&[u8]> = Some(b"new bytes");

// Whether each content is one of the two.
fn are_among(contents: &[Option<Vec<u8>>], old: Option<&[u8]>) -> bool {
    contents.iter().all(|content| content.as_deref() == old || content.as_deref() == NEW)
}

// A save over a file of that content, where each call of that kind fails: how it ends, and what is found.
fn is_saved<R: AllocGlobal + Abort>(
    rt: &R,
    old: Option<&[u8]>,
    fails: Option<Call>,
    wanted: Result<(), SaveError>,
    found: Option<&[u8]>,
) {
    let alloc = rt.alloc();
    let content = old.map(|bytes| bytes.to_vec(alloc).expect(rt, "memory"));
    let mut file = MemoryFile::new(alloc, content, fails);
    let temporary = file.create().expect(rt, "a temporary file");
    let saved = save(&mut file, temporary, &Pieces);
    assert_eq!(rt; saved, wanted);
    assert!(rt; file.content.as_deref() == found);
    assert!(rt; are_among(file.unsettled.as_slice(), old));
    assert!(rt; are_among(file.past.as_slice(), old));
    assert_eq!(rt;
        file.unsettled.is_empty(),
        saved != Err(SaveError::NotDurable)
    );
}

#[test]
fn each_call_fails(rt: HostRuntime) {
    for old in [None, Some(b"old".as_slice())] {
        is_saved(&rt, old, None, Ok(()), NEW);
        is_saved(&rt, old, Some(Call::Write), Err(SaveError::NotWritten), old);
        is_saved(&rt, old, Some(Call::Sync), Err(SaveError::NotWritten), old);
        is_saved(
            &rt,
            old,
            Some(Call::Rename),
            Err(SaveError::NotRenamed),
            old,
        );
        is_saved(
            &rt,
            old,
            Some(Call::SyncFolder),
            Err(SaveError::NotDurable),
            NEW,
        );
    }
}

#[test]
fn no_temporary_file(rt: HostRuntime) {
    let mut file = MemoryFile::new(rt.alloc(), None, Some(Call::Create));
    assert!(rt; file.create().is_err());
}
