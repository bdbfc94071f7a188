//! The closed cells, each row's runs of them as one stroke a cell wide.
#![tactic(auto, using(crate::proofs::Growth::growths))]

ghost use Rattle.std.specs.Prelude.{OnOk, ◌≡◌, ◌||◌, is_err};
ghost use Rattle.desk_pictures.specs.Growth.{Grows};

use crate::pieces::{Piece, Written, put_filled, put_letters};
use desk_report::Sink;
use grid_cells::Grid;

// The most columns or rows of a map whose cells are parted by lines.
const MOST_PARTED: u32 = 64;

// Whether the cell in that column and row is there and closed.
fn is_wall(grid: &Grid, x: u32, y: u32) -> bool {
    match grid.size().cell(x, y) {
        Some(cell) => !grid.is_open(cell),
        None => false,
    }
}

// The beginning of a run of closed cells, where that is.
fn put_left<W: Sink>(sink: &mut W, grid: &Grid, x: u32, y: u32) -> Written
    ensures ok { OnOk result (Grows (W.held sink.old) (W.held sink.new)) }
    ensures broken { W.broken sink.new ≡ (W.broken sink.old || is_err result) }
{
    if !is_wall(grid, x, y) || x > 0 && is_wall(grid, x - 1, y) {
        return Ok(());
    }
    put_filled(sink, b"M~ ~", &[Piece::Count(x), Piece::Count(y)])
}

// The end of a run of closed cells, where that is.
fn put_right<W: Sink>(sink: &mut W, grid: &Grid, x: u32, y: u32) -> Written
    ensures ok { OnOk result (Grows (W.held sink.old) (W.held sink.new)) }
    ensures broken { W.broken sink.new ≡ (W.broken sink.old || is_err result) }
{
    let next = x.saturating_add(1);
    if !is_wall(grid, x, y) || is_wall(grid, next, y) {
        return Ok(());
    }
    put_filled(sink, b"H~", &[Piece::Count(next)])
}

// The runs of a row.
fn put_row<W: Sink>(sink: &mut W, grid: &Grid, y: u32) -> Written
    ensures ok { OnOk result (Grows (W.held sink.old) (W.held sink.new)) }
    ensures broken { W.broken sink.new ≡ (W.broken sink.old || is_err result) }
{
    for x in 0..grid.size().width() {
        put_left(sink, grid, x, y)?;
        put_right(sink, grid, x, y)?;
    }
    Ok(())
}

fn put_rows<W: Sink>(sink: &mut W, grid: &Grid) -> Written
    ensures ok { OnOk result (Grows (W.held sink.old) (W.held sink.new)) }
    ensures broken { W.broken sink.new ≡ (W.broken sink.old || is_err result) }
{
    for y in 0..grid.size().height() {
        put_row(sink, grid, y)?;
    }
    Ok(())
}

// The floor, in whose text are places for the map's width and height.
fn put_floor<W: Sink>(sink: &mut W, grid: &Grid, text: &[u8]) -> Written
    ensures ok { OnOk result (Grows (W.held sink.old) (W.held sink.new)) }
    ensures broken { W.broken sink.new ≡ (W.broken sink.old || is_err result) }
{
    let size = grid.size();
    let pieces = [Piece::Count(size.width()), Piece::Count(size.height())];
    put_filled(sink, text, &pieces)
}

// The floor as it is painted, and the lines over it.
const FLOOR: &[u8] = b"<rect class='floor' x='-.5' y='-.5' width='~' height='~'/>\n";

const NET: &[u8] = b"\
<pattern id='net' x='-.5' y='-.5' width='1' height='1' patternUnits='userSpaceOnUse'><path class='thread' d='M1 0H0V1'/></pattern>
<rect class='net' x='-.5' y='-.5' width='~' height='~'/>
";

// Lines between the cells, where they are large enough.
fn put_net<W: Sink>(sink: &mut W, grid: &Grid) -> Written
    ensures ok { OnOk result (Grows (W.held sink.old) (W.held sink.new)) }
    ensures broken { W.broken sink.new ≡ (W.broken sink.old || is_err result) }
{
    let size = grid.size();
    if size.width() > MOST_PARTED || size.height() > MOST_PARTED {
        return Ok(());
    }
    put_floor(sink, grid, NET)
}

/// Puts the floor, and over it the closed cells.
pub(crate) fn put_ground<W: Sink>(sink: &mut W, grid: &Grid) -> Written
    ensures ok { OnOk result (Grows (W.held sink.old) (W.held sink.new)) }
    ensures broken { W.broken sink.new ≡ (W.broken sink.old || is_err result) }
{
    put_floor(sink, grid, FLOOR)?;
    put_net(sink, grid)?;
    put_letters(
        sink,
        b"<path class='wall' transform='translate(-.5 0)' d='M0 0",
    )?;
    put_rows(sink, grid)?;
    put_letters(sink, b"'/>\n")
}
