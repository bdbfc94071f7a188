//! The rings of agents that move on to one another's cells.
#![tactic(auto, using(crate::proofs::Growth::growths))]

ghost use Rattle.std.specs.Prelude.{OnOk, ◌≡◌, ◌||◌, is_err};
ghost use Rattle.desk_pictures.specs.Growth.{Grows};

use crate::frames::Frame;
use crate::pieces::{Piece, Written, put_filled, put_letters};
use crate::spots::cell_in;
use desk_report::{Report, Sink};
use grid_cells::{Agent, Cell, Step};
use mapf_rules::Conflict;
use scene_edits::Scene;

// How the line comes to the corner at that index.
fn stroke_to(index: usize) -> &'static [u8] {
    if index == 0 { b"M" } else { b"L" }
}

// The ring's corner at that index: where its agent is, if it is anywhere.
fn put_corner<W: Sink>(sink: &mut W, index: usize, cell: Option<Cell>) -> Written
    ensures ok { OnOk result (Grows (W.held sink.old) (W.held sink.new)) }
    ensures broken { W.broken sink.new ≡ (W.broken sink.old || is_err result) }
{
    let Some(cell) = cell else {
        return Ok(());
    };
    let pieces = [
        Piece::Text(stroke_to(index)),
        Piece::Count(cell.x()),
        Piece::Count(cell.y()),
    ];
    put_filled(sink, b"~~ ~", &pieces)
}

// The line through the cells of the ring at the time.
fn put_corners<W: Sink>(sink: &mut W, scene: &Scene, ring: &[Agent], time: Step) -> Written
    ensures ok { OnOk result (Grows (W.held sink.old) (W.held sink.new)) }
    ensures broken { W.broken sink.new ≡ (W.broken sink.old || is_err result) }
{
    for index in 0..ring.len() {
        let cell = cell_in(scene.plans(), scene.mode(), time, ring, index);
        put_corner(sink, index, cell)?;
    }
    Ok(())
}

// The end of a ring's line: in a moving picture it is lit for the step of its time.
fn put_end<W: Sink>(sink: &mut W, frame: &Frame, time: Step) -> Written
    ensures ok { OnOk result (Grows (W.held sink.old) (W.held sink.new)) }
    ensures broken { W.broken sink.new ≡ (W.broken sink.old || is_err result) }
{
    if frame.is_at(time) {
        return put_letters(sink, b"z' class='lit'/>\n");
    }
    if !frame.moves() {
        return put_letters(sink, b"z'/>\n");
    }
    put_filled(
        sink,
        b"z'><set attributeName='opacity' to='1' begin='~s' dur='0.4s'/></path>\n",
        &[Piece::Seconds(time.number())],
    )
}

// The line of a cycle; nothing for another entry.
fn put_ring<W: Sink>(sink: &mut W, frame: &Frame, scene: &Scene, entry: &Conflict) -> Written
    ensures ok { OnOk result (Grows (W.held sink.old) (W.held sink.new)) }
    ensures broken { W.broken sink.new ≡ (W.broken sink.old || is_err result) }
{
    match entry {
        Conflict::Cycle { time, ring } => {
            put_letters(sink, b"<path d='")?;
            put_corners(sink, scene, ring.items(), *time)?;
            put_end(sink, frame, *time)
        }
        _ => Ok(()),
    }
}

/// Puts a line for each cycle, through the cells that its agents leave.
pub(crate) fn put_rings<W: Sink>(
    sink: &mut W,
    scene: &Scene,
    report: &Report,
    frame: &Frame,
) -> Written
    ensures ok { OnOk result (Grows (W.held sink.old) (W.held sink.new)) }
    ensures broken { W.broken sink.new ≡ (W.broken sink.old || is_err result) }
{
    for entry in report.conflicts.items() {
        put_ring(sink, frame, scene, entry)?;
    }
    Ok(())
}
