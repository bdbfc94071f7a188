//! The text of a map that comes before a session.
ghost use Rattle.std.specs.Prelude.{◌≡◌, ◌+◌, ◌<◌, ◌≤◌, ◌||◌, ℕ, List, [], ◌∷◌, ◌++◌, length, IfOk, IfErr};
ghost use Rattle.session_protocol.specs.Start.{Told, HearsMap, StopsInMap};
ghost use Rattle.session_protocol.specs.Reads.{ReadsUntil, TakesAtMost};
ghost use Rattle.session_protocol.specs.Session.{is_read_failed};

use crate::bounds::ServeFault;
use bench_reader::rows_announced;
use desk_report::Source;
use std::alloc::Global;

// How many lines the map takes, as its text tells with one line more: the fourth line announces the
// rows, and each other line nothing.
fn wanted_of(text: &[u8], lines: u32, wanted: u32) -> u32
    ensures { (before : List ℕ) (count : ℕ) → text.now ≡ before ++ 10 ∷ [] → lines ≡ count + 1 → Told before count wanted → count < wanted
        → Told text.now lines result × (lines ≤ result) }
{
    if lines == 4 {
        4 + rows_announced(text)
    } else {
        wanted
    }
}

/// The text of a map that comes first: four lines, and the rows that these announce, or those lines
/// that there are. It has at most `most` bytes.
///
/// # Errors
///
/// The reader failed, a byte came after `most` bytes, or want of memory.
pub fn hear_map<R: Source>(alloc: Global, reader: &mut R, most: u64) -> Result<Vec<u8>, ServeFault>
    ensures heard { IfOk result (λ text. HearsMap (R.left reader.old) (R.left reader.new) most text.items) }
    ensures stopped { IfErr result (StopsInMap (R.left reader.old) (R.left reader.new) most) }
    ensures reads { ReadsUntil R.gives reader.old reader.new (is_read_failed result) }
    ensures took { IfOk result (λ text. TakesAtMost R.gives (length text.items) reader.old reader.new) }
    ensures bounded { TakesAtMost R.gives (most + 1) reader.old reader.new }
    ensures failed { R.failed reader.new ≡ (R.failed reader.old || is_read_failed result) }
{
    let mut text: Vec<u8> = Vec::new(alloc);
    let mut lines: u32 = 0;
    let mut wanted: u32 = 4;
    'map: loop {
        match reader.next_byte() {
            Err(_) => return Err(ServeFault::ReadFailed),
            Ok(None) => return Ok(text),
            Ok(Some(byte)) => {
                if text.len() as u64 >= most {
                    return Err(ServeFault::TooManyBytes);
                }
                match text.push(byte) {
                    Ok(()) => {}
                    Err(_) => return Err(ServeFault::OutOfMemory),
                }
                if byte == b'\n' {
                    lines += 1;
                    wanted = wanted_of(text.as_slice(), lines, wanted);
                    if lines >= wanted {
                        return Ok(text);
                    }
                }
            }
        }
    }
}
