//! The numbers of columns and rows beside the map.
#![tactic(auto, using(crate::proofs::Growth::growths))]

ghost use Rattle.std.specs.Prelude.{OnOk, ◌≡◌, ◌||◌, is_err};
ghost use Rattle.desk_pictures.specs.Growth.{Grows};

use crate::pieces::{Piece, Written, put_filled, put_letters};
use crate::sheet::{EDGE, Sheet};
use desk_report::Sink;
use grid_cells::Size;

// How many columns or rows one number stands for.
fn pitch_of(side: u32) -> u32 {
    if side <= 32 {
        1
    } else if side <= 160 {
        10
    } else if side <= 640 {
        50
    } else {
        200
    }
}

// Where the middle of the cell at that index is on the sheet.
fn place_of(drawn: u32, cells: u32, index: u32) -> u64 {
    let halves = u64::from(index) * 2 + 1;
    let along = u64::from(drawn).saturating_mul(halves) / (u64::from(cells) * 2).max(1);
    along.saturating_add(u64::from(EDGE))
}

// The number of the column or row at that index, if it has one, in a text with its place before it.
fn put_index<W: Sink>(sink: &mut W, drawn: u32, cells: u32, text: &[u8], index: u32) -> Written
    ensures ok { OnOk result (Grows (W.held sink.old) (W.held sink.new)) }
    ensures broken { W.broken sink.new ≡ (W.broken sink.old || is_err result) }
{
    if index % pitch_of(cells).max(1) != 0 {
        return Ok(());
    }
    let place = Piece::Number(place_of(drawn, cells, index));
    put_filled(sink, text, &[place, Piece::Count(index)])
}

fn put_ruler<W: Sink>(sink: &mut W, drawn: u32, cells: u32, text: &[u8]) -> Written
    ensures ok { OnOk result (Grows (W.held sink.old) (W.held sink.new)) }
    ensures broken { W.broken sink.new ≡ (W.broken sink.old || is_err result) }
{
    for index in 0..cells {
        put_index(sink, drawn, cells, text, index)?;
    }
    Ok(())
}

/// Puts the numbers of columns above the map and of rows at its left, as many as there is room for.
pub(crate) fn put_rulers<W: Sink>(sink: &mut W, sheet: Sheet, size: Size) -> Written
    ensures ok { OnOk result (Grows (W.held sink.old) (W.held sink.new)) }
    ensures broken { W.broken sink.new ≡ (W.broken sink.old || is_err result) }
{
    put_letters(sink, b"<g id='rulers'>\n")?;
    put_ruler(
        sink,
        sheet.across,
        size.width(),
        b"<text x='~' y='22'>~</text>",
    )?;
    put_ruler(
        sink,
        sheet.down,
        size.height(),
        b"<text class='n' x='29' y='~'>~</text>",
    )?;
    put_letters(sink, b"\n</g>\n")
}
