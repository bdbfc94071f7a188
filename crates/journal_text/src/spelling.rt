//! Whether a line is spelled as it is written.
ghost use Rattle.std.specs.Prelude.{◌≡◌, ◌++◌, ◌↔◌, codes, IsTrue, IfOk, OnOk};
ghost use Rattle.desk_report.specs.LineText.{line_text};
ghost use Rattle.journal_text.specs.Lines.{end_words};
ghost use Rattle.journal_text.specs.Begun.{head_words};

use crate::entries::put_head;
use crate::places::Head;
use crate::written::Written;
use desk_report::Spout;
use grid_cells::OutOfMemory;
use itoa::Buffer;
use std::alloc::Global;

// Whether that is the line with its line feed.
fn is_whole(written: &[u8], line: &[u8]) -> bool
    ensures { IsTrue result ↔ (written.now ≡ line.now ++ codes "\n") }
{
    match written {
        [front @ .., last] => *last == b'\n' && front == line,
        [] => false,
    }
}

/// Whether the line is the one that is written of that value.
pub(crate) fn is_written<T: Written>(
    alloc: Global,
    value: &T,
    line: &[u8],
) -> Result<bool, OutOfMemory>
    ensures spelled { IfOk result (λ same. IsTrue same ↔ (T.text value.now ≡ line.now ++ codes "\n")) }
    ensures lawful { OnOk result (T.lawful value.now) }
{
    let mut sink = Spout::new(Vec::with_capacity(alloc, line.len() + 1)?);
    match value.put_into(&mut sink) {
        Ok(()) => Ok(is_whole(sink.into_inner().as_slice(), line)),
        Err(_) => Err(OutOfMemory),
    }
}

/// Whether the line is the one that is written of those numbers.
pub(crate) fn is_head(alloc: Global, head: &Head, line: &[u8]) -> Result<bool, OutOfMemory>
    ensures { IfOk result (λ same. IsTrue same ↔ (line_text (head_words head.now) ≡ line.now ++ codes "\n")) }
{
    let mut sink = Spout::new(Vec::with_capacity(alloc, line.len() + 1)?);
    match put_head(&mut sink, head) {
        Ok(()) => Ok(is_whole(sink.into_inner().as_slice(), line)),
        Err(_) => Err(OutOfMemory),
    }
}

/// Whether the line is the last one, of that many entries.
pub(crate) fn is_end(line: &[u8], count: usize) -> bool
    ensures { IsTrue result ↔ (line_text (end_words count) ≡ line.now ++ codes "\n") }
{
    if line.len() < 4 {
        return false;
    }
    let mut buffer = Buffer::new();
    let (name, digits) = line.split_at(4);
    name == b"end ".as_slice() && digits == buffer.format(count).as_bytes()
}
