//! Where a text that should be an object of JSON goes wrong.
ghost use Rattle.std.specs.Prelude.{◌≡◌, ◌⊎◌, IfErr, OnOk};
ghost use Rattle.path_files.specs.Broken.{broken_in, closing_behind, innermost, is_in_text};
ghost use Rattle.path_files.specs.declared.faults.PathsFault.TheVariants.{OutOfMemory};

use crate::dues::{Due, behind_byte};
use crate::faults::PathsFault;
use std::alloc::Global;

// Whether the text of a key or a value isn't over.
fn is_in_text(due: Due) -> bool
    ensures { result ≡ is_in_text due }
{
    match due {
        Due::Text { .. } | Due::Escape { .. } | Due::Hex { .. } => true,
        _ => false,
    }
}

// Keeps what closes the brackets that are open behind that byte, the innermost last.
fn note_bracket(closing: &mut Vec<u8>, due: Due, byte: u8) -> Result<(), PathsFault>
    ensures ok { OnOk result (closing.new.items ≡ closing_behind due closing.old.items byte) }
    ensures err { IfErr result (λ fault. fault ≡ OutOfMemory) }
{
    if is_in_text(due) {
        return Ok(());
    }
    let bracket = match byte {
        b'{' => b'}',
        b'[' => b']',
        b'}' | b']' => {
            let _closed = closing.pop();
            return Ok(());
        }
        _ => return Ok(()),
    };
    closing.push(bracket).map_err(|_| PathsFault::OutOfMemory)
}

// What closes the innermost bracket.
fn innermost(closing: &[u8]) -> Option<u8>
    ensures { result ≡ innermost closing.now }
{
    closing.last().copied()
}

/// The fault of a text that is no object of JSON: `BadJson` at the first byte that may not stand
/// there, or at the end; or want of memory.
pub(crate) fn broken_in(alloc: Global, text: &[u8]) -> PathsFault
    ensures { (result ≡ broken_in text.now) ⊎ (result ≡ OutOfMemory) }
{
    let mut closing = Vec::new(alloc);
    let mut due = Due::Object;
    let mut line: usize = 1;
    let mut column: usize = 0;
    for byte in text {
        let Some(next) = behind_byte(innermost(&closing), due, *byte) else {
            return PathsFault::BadJson { line, column };
        };
        if note_bracket(&mut closing, due, *byte).is_err() {
            return PathsFault::OutOfMemory;
        }
        due = next;
        if *byte == b'\n' {
            line += 1;
            column = 0;
        } else {
            column += 1;
        }
    }
    PathsFault::BadJson { line, column }
}
