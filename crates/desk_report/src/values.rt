//! Numbers, answers and cells, put into a sink. Nothing here takes memory, and after a failure a
//! prefix of the text went out.
ghost use Rattle.std.specs.Prelude.{◌≡◌, decimal, OnOk, OnErr, is_err, ◌||◌};
ghost use Rattle.std.specs.Io.KnownBytes.{Appends};
ghost use Rattle.desk_report.specs.Bytes.{AppendsFront};
ghost use Rattle.desk_report.specs.LineText.{cell_text, given_text, answer_text};

use crate::bytes::{Sink, WriteFailed, put_all};
use grid_cells::Cell;
use itoa::Buffer;

/// Puts a number in decimal digits, with no leading zeros.
pub fn put_number<W: Sink>(sink: &mut W, number: u64) -> Result<(), WriteFailed>
    ensures ok { OnOk result (Appends (W.held sink.old) (W.held sink.new) (decimal number)) }
    ensures err { OnErr result (AppendsFront (W.held sink.old) (W.held sink.new) (decimal number)) }
    ensures broken { W.broken sink.new ≡ (W.broken sink.old || is_err result) }
{
    let mut buffer = Buffer::new();
    put_all(sink, buffer.format(number).as_bytes())
}

/// Puts a number, or `none` where it is not given.
pub fn put_given<W: Sink>(sink: &mut W, number: Option<u64>) -> Result<(), WriteFailed>
    ensures ok { OnOk result (Appends (W.held sink.old) (W.held sink.new) (given_text number)) }
    ensures err { OnErr result (AppendsFront (W.held sink.old) (W.held sink.new) (given_text number)) }
    ensures broken { W.broken sink.new ≡ (W.broken sink.old || is_err result) }
{
    match number {
        Some(number) => put_number(sink, number),
        None => put_all(sink, b"none"),
    }
}

/// Puts `yes` or `no`.
pub fn put_answer<W: Sink>(sink: &mut W, yes: bool) -> Result<(), WriteFailed>
    ensures ok { OnOk result (Appends (W.held sink.old) (W.held sink.new) (answer_text yes)) }
    ensures err { OnErr result (AppendsFront (W.held sink.old) (W.held sink.new) (answer_text yes)) }
    ensures broken { W.broken sink.new ≡ (W.broken sink.old || is_err result) }
{
    if yes {
        put_all(sink, b"yes")
    } else {
        put_all(sink, b"no")
    }
}

/// Puts a cell, as its column, a comma and its row.
pub fn put_cell<W: Sink>(sink: &mut W, cell: Cell) -> Result<(), WriteFailed>
    ensures ok { OnOk result (Appends (W.held sink.old) (W.held sink.new) (cell_text cell)) }
    ensures err { OnErr result (AppendsFront (W.held sink.old) (W.held sink.new) (cell_text cell)) }
    ensures broken { W.broken sink.new ≡ (W.broken sink.old || is_err result) }
{
    put_number(sink, u64::from(cell.x()))?;
    put_all(sink, b",")?;
    put_number(sink, u64::from(cell.y()))
}
