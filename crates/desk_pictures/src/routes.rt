//! The agents' paths as lines, with their starts and goals.
#![tactic(auto, using(crate::proofs::Growth::growths))]

ghost use Rattle.std.specs.Prelude.{OnOk, ◌≡◌, ◌||◌, is_err};
ghost use Rattle.desk_pictures.specs.Growth.{Grows};

use crate::agents::put_group;
use crate::frames::Frame;
use crate::pieces::{Piece, Written, put_filled};
use crate::ways::put_offset;
use desk_report::Sink;
use grid_cells::{Agent, Cell, Step};
use plan_table::{Plans, Row};

// The ways of a step.
#[derive(Clone, Copy, PartialEq, Eq)]
enum Way {
    Up,
    Left,
    Right,
    Down,
}

// The way from the cell to another, if that is another one.
fn way_to(cell: Cell, next: Cell) -> Option<Way> {
    if next.y() < cell.y() {
        Some(Way::Up)
    } else if next.x() < cell.x() {
        Some(Way::Left)
    } else if cell.x() < next.x() {
        Some(Way::Right)
    } else if cell.y() < next.y() {
        Some(Way::Down)
    } else {
        None
    }
}

// The line straight on to the cell, if that is another one.
fn put_stroke<W: Sink>(sink: &mut W, from: Cell, cell: Cell) -> Written
    ensures ok { OnOk result (Grows (W.held sink.old) (W.held sink.new)) }
    ensures broken { W.broken sink.new ≡ (W.broken sink.old || is_err result) }
{
    if from == cell {
        return Ok(());
    }
    if from.y() == cell.y() {
        return put_offset(sink, b"h", from.x(), cell.x());
    }
    put_offset(sink, b"v", from.y(), cell.y())
}

// Where the line has turned last: at the cell, where it goes on another way there, or where it had before.
fn turned_at(turned: Cell, way: Option<Way>, next: Option<Way>, cell: Cell) -> Cell {
    if next.is_none() || next == way {
        turned
    } else {
        cell
    }
}

// The line from the start along the cells: waits don't show, and a straight run is one stroke.
fn put_strokes<W: Sink>(sink: &mut W, start: Cell, cells: &[Cell]) -> Written
    ensures ok { OnOk result (Grows (W.held sink.old) (W.held sink.new)) }
    ensures broken { W.broken sink.new ≡ (W.broken sink.old || is_err result) }
{
    let mut turned = start;
    let mut way = None;
    let mut cell = start;
    for following in cells {
        let next = way_to(cell, *following);
        let corner = turned_at(turned, way, next, cell);
        put_stroke(sink, turned, corner)?;
        turned = corner;
        way = next.or(way);
        cell = *following;
    }
    put_stroke(sink, turned, cell)
}

// A line from where the agent rests to its goal, where that is another cell.
fn put_lack<W: Sink>(sink: &mut W, rest: Cell, goal: Cell) -> Written
    ensures ok { OnOk result (Grows (W.held sink.old) (W.held sink.new)) }
    ensures broken { W.broken sink.new ≡ (W.broken sink.old || is_err result) }
{
    if rest == goal {
        return Ok(());
    }
    let pieces = [
        Piece::Count(rest.x()),
        Piece::Count(rest.y()),
        Piece::Count(goal.x()),
        Piece::Count(goal.y()),
    ];
    put_filled(sink, b"<path class='lack' d='M~ ~L~ ~'/>", &pieces)
}

// The agent's path, start and goal.
fn put_route<W: Sink>(sink: &mut W, agent: Agent, row: &Row) -> Written
    ensures ok { OnOk result (Grows (W.held sink.old) (W.held sink.new)) }
    ensures broken { W.broken sink.new ≡ (W.broken sink.old || is_err result) }
{
    let start = row.plan.at(Step::new(0));
    let rest = row.plan.at(Step::new(row.plan.last()));
    let (x, y) = (Piece::Count(start.x()), Piece::Count(start.y()));
    let (goal_x, goal_y) = (Piece::Count(row.goal.x()), Piece::Count(row.goal.y()));
    put_group(sink, agent)?;
    put_lack(sink, rest, row.goal)?;
    put_filled(sink, b"<path d='M~ ~", &[x, y])?;
    put_strokes(sink, start, row.plan.cells())?;
    put_filled(
        sink,
        b"'/><use href='#start' x='~' y='~'/><use href='#goal' x='~' y='~'/></g>\n",
        &[x, y, goal_x, goal_y],
    )
}

// The agent's path, start and goal, if the frame shows it.
fn put_shown<W: Sink>(sink: &mut W, frame: &Frame, agent: Agent, row: &Row) -> Written
    ensures ok { OnOk result (Grows (W.held sink.old) (W.held sink.new)) }
    ensures broken { W.broken sink.new ≡ (W.broken sink.old || is_err result) }
{
    if !frame.shows(agent) {
        return Ok(());
    }
    put_route(sink, agent, row)
}

/// Puts the paths of the agents that the frame shows.
pub(crate) fn put_routes<W: Sink>(sink: &mut W, frame: &Frame, plans: &Plans) -> Written
    ensures ok { OnOk result (Grows (W.held sink.old) (W.held sink.new)) }
    ensures broken { W.broken sink.new ≡ (W.broken sink.old || is_err result) }
{
    for rank in 0..plans.count() {
        let entry = plans.entry_at(rank);
        put_shown(sink, frame, entry.0, entry.1)?;
    }
    Ok(())
}
