//! The way of an agent in time: straight runs and waits are told by their ends.
#![tactic(auto, using(crate::proofs::Growth::growths))]

ghost use Rattle.std.specs.Prelude.{OnOk, ◌≡◌, ◌||◌, is_err};
ghost use Rattle.desk_pictures.specs.Growth.{Grows};

use crate::pieces::{Piece, Written, put_filled, put_letters, put_some};
use desk_report::Sink;
use grid_cells::{Cell, Step};
use plan_table::Plan;

// Whether the agent goes on as before where it comes from and goes to these cells.
fn goes_on(from: Cell, cell: Cell, next: Cell) -> bool {
    from.x() + next.x() == cell.x() + cell.x() && from.y() + next.y() == cell.y() + cell.y()
}

// Whether the path begins, ends or goes otherwise at that index.
fn is_corner(cells: &[Cell], at: usize) -> bool {
    let length = cells.len();
    if at == 0 || at >= length || length - at == 1 {
        return true;
    }
    !goes_on(cells[at - 1], cells[at], cells[at + 1])
}

// Whether the way is told by all its cells, a step apart: that is shorter where it has many corners.
fn is_crooked(cells: &[Cell]) -> bool {
    let mut corners: usize = 0;
    for at in 0..cells.len() {
        if is_corner(cells, at) {
            corners = corners.saturating_add(1);
        }
    }
    corners > cells.len() / 5 * 2
}

// What stands before the corner at that index.
fn comma_at(at: usize) -> &'static [u8] {
    if at == 0 { b"" } else { b";" }
}

// What stands before how far the place is from the start.
fn sign_of(start: u32, place: u32) -> &'static [u8] {
    if place < start { b"-" } else { b"" }
}

/// Puts the text, and how far the place is from the start.
pub(crate) fn put_offset<W: Sink>(sink: &mut W, text: &[u8], start: u32, place: u32) -> Written
    ensures ok { OnOk result (Grows (W.held sink.old) (W.held sink.new)) }
    ensures broken { W.broken sink.new ≡ (W.broken sink.old || is_err result) }
{
    let pieces = [
        Piece::Text(text),
        Piece::Text(sign_of(start, place)),
        Piece::Count(place.abs_diff(start)),
    ];
    put_some(sink, &pieces)
}

// The place at that index, from the start, where it is a corner or all are told; nothing elsewhere.
fn put_place<W: Sink>(sink: &mut W, cells: &[Cell], start: Cell, at: usize, all: bool) -> Written
    ensures ok { OnOk result (Grows (W.held sink.old) (W.held sink.new)) }
    ensures broken { W.broken sink.new ≡ (W.broken sink.old || is_err result) }
{
    if at >= cells.len() || !all && !is_corner(cells, at) {
        return Ok(());
    }
    let cell = cells[at];
    put_offset(sink, comma_at(at), start.x(), cell.x())?;
    put_offset(sink, b",", start.y(), cell.y())
}

fn put_places<W: Sink>(sink: &mut W, cells: &[Cell], start: Cell, all: bool) -> Written
    ensures ok { OnOk result (Grows (W.held sink.old) (W.held sink.new)) }
    ensures broken { W.broken sink.new ≡ (W.broken sink.old || is_err result) }
{
    for at in 0..cells.len() {
        put_place(sink, cells, start, at, all)?;
    }
    Ok(())
}

// The share of the part in the whole, to six digits: 0, 1 or as `.250000`.
fn put_share<W: Sink>(sink: &mut W, part: u64, whole: u64) -> Written
    ensures ok { OnOk result (Grows (W.held sink.old) (W.held sink.new)) }
    ensures broken { W.broken sink.new ≡ (W.broken sink.old || is_err result) }
{
    if part == 0 {
        return put_letters(sink, b"0");
    }
    if part >= whole {
        return put_letters(sink, b"1");
    }
    let share = part.saturating_mul(1_000_000) / whole;
    let pieces = [
        Piece::Text(b"."),
        Piece::Number(share / 100_000 % 10),
        Piece::Number(share / 10_000 % 10),
        Piece::Number(share / 1_000 % 10),
        Piece::Number(share / 100 % 10),
        Piece::Number(share / 10 % 10),
        Piece::Number(share % 10),
    ];
    put_some(sink, &pieces)
}

// The time of a corner at that index, as a share of the time that the path takes; nothing elsewhere.
fn put_time<W: Sink>(sink: &mut W, cells: &[Cell], last: u32, at: usize) -> Written
    ensures ok { OnOk result (Grows (W.held sink.old) (W.held sink.new)) }
    ensures broken { W.broken sink.new ≡ (W.broken sink.old || is_err result) }
{
    if !is_corner(cells, at) {
        return Ok(());
    }
    put_letters(sink, comma_at(at))?;
    put_share(sink, at as u64, u64::from(last))
}

fn put_times<W: Sink>(sink: &mut W, cells: &[Cell], last: u32) -> Written
    ensures ok { OnOk result (Grows (W.held sink.old) (W.held sink.new)) }
    ensures broken { W.broken sink.new ≡ (W.broken sink.old || is_err result) }
{
    for at in 0..cells.len() {
        put_time(sink, cells, last, at)?;
    }
    Ok(())
}

// The times of the corners, where not all places are told.
fn put_key_times<W: Sink>(sink: &mut W, cells: &[Cell], last: u32, all: bool) -> Written
    ensures ok { OnOk result (Grows (W.held sink.old) (W.held sink.new)) }
    ensures broken { W.broken sink.new ≡ (W.broken sink.old || is_err result) }
{
    if all {
        return Ok(());
    }
    put_letters(sink, b"' keyTimes='")?;
    put_times(sink, cells, last)
}

/// Puts the motion along the plan, from its start on; none where the agent rests at once.
pub(crate) fn put_motion<W: Sink>(sink: &mut W, plan: &Plan) -> Written
    ensures ok { OnOk result (Grows (W.held sink.old) (W.held sink.new)) }
    ensures broken { W.broken sink.new ≡ (W.broken sink.old || is_err result) }
{
    let last = plan.last();
    if last == 0 {
        return Ok(());
    }
    let cells = plan.cells();
    let all = is_crooked(cells);
    put_filled(
        sink,
        b"<animateMotion calcMode='linear' fill='freeze' dur='~s' values='",
        &[Piece::Seconds(last)],
    )?;
    put_places(sink, cells, plan.at(Step::new(0)), all)?;
    put_key_times(sink, cells, last, all)?;
    put_letters(sink, b"'/>")
}
