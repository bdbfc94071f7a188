//! The agents themselves, as they move or as they are at one time.
#![tactic(auto, using(crate::proofs::Growth::growths))]

ghost use Rattle.std.specs.Prelude.{OnOk, ◌≡◌, ◌||◌, is_err};
ghost use Rattle.desk_pictures.specs.Growth.{Grows};

use crate::agents::put_group;
use crate::frames::Frame;
use crate::pieces::{Piece, Written, put_filled, put_letters};
use crate::ways::put_motion;
use desk_report::Sink;
use grid_cells::{Agent, Cell, Step};
use plan_table::{Mode, Plans, Row};

// The end of an agent that moves: if it leaves, it is gone at the time after its last.
fn put_end<W: Sink>(sink: &mut W, mode: Mode, row: &Row) -> Written
    ensures ok { OnOk result (Grows (W.held sink.old) (W.held sink.new)) }
    ensures broken { W.broken sink.new ≡ (W.broken sink.old || is_err result) }
{
    if !row.track(mode).leaves {
        return put_letters(sink, b"</g></g>\n");
    }
    let end = Piece::Seconds(row.plan.last().saturating_add(1));
    put_filled(
        sink,
        b"<set attributeName='visibility' to='hidden' begin='~s'/></g></g>\n",
        &[end],
    )
}

// The text, and the agent's body at the cell: a circle with its number.
fn put_body<W: Sink>(sink: &mut W, text: &[u8], agent: Agent, cell: Cell) -> Written
    ensures ok { OnOk result (Grows (W.held sink.old) (W.held sink.new)) }
    ensures broken { W.broken sink.new ≡ (W.broken sink.old || is_err result) }
{
    let (x, y) = (Piece::Count(cell.x()), Piece::Count(cell.y()));
    put_filled(
        sink,
        b"~<use href='#body' x='~' y='~'/><text x='~' y='~'>~</text>",
        &[Piece::Text(text), x, y, x, y, Piece::Count(agent.number())],
    )
}

// An agent that moves.
fn put_mover<W: Sink>(sink: &mut W, mode: Mode, agent: Agent, row: &Row) -> Written
    ensures ok { OnOk result (Grows (W.held sink.old) (W.held sink.new)) }
    ensures broken { W.broken sink.new ≡ (W.broken sink.old || is_err result) }
{
    put_group(sink, agent)?;
    put_body(sink, b"<g>", agent, row.plan.at(Step::new(0)))?;
    put_motion(sink, &row.plan)?;
    put_end(sink, mode, row)
}

// An agent at a time, if it is anywhere.
fn put_still<W: Sink>(sink: &mut W, mode: Mode, agent: Agent, row: &Row, time: Step) -> Written
    ensures ok { OnOk result (Grows (W.held sink.old) (W.held sink.new)) }
    ensures broken { W.broken sink.new ≡ (W.broken sink.old || is_err result) }
{
    if row.track(mode).leaves && time.number() > row.plan.last() {
        return Ok(());
    }
    put_group(sink, agent)?;
    put_body(sink, b"", agent, row.plan.at(time))?;
    put_letters(sink, b"</g>\n")
}

// The agent, if the frame shows it.
fn put_shown<W: Sink>(sink: &mut W, frame: &Frame, mode: Mode, agent: Agent, row: &Row) -> Written
    ensures ok { OnOk result (Grows (W.held sink.old) (W.held sink.new)) }
    ensures broken { W.broken sink.new ≡ (W.broken sink.old || is_err result) }
{
    if !frame.shows(agent) {
        return Ok(());
    }
    match frame.at {
        Some(time) => put_still(sink, mode, agent, row, time),
        None => put_mover(sink, mode, agent, row),
    }
}

/// Puts the agents that the frame shows.
pub(crate) fn put_movers<W: Sink>(sink: &mut W, frame: &Frame, plans: &Plans, mode: Mode) -> Written
    ensures ok { OnOk result (Grows (W.held sink.old) (W.held sink.new)) }
    ensures broken { W.broken sink.new ≡ (W.broken sink.old || is_err result) }
{
    for rank in 0..plans.count() {
        let entry = plans.entry_at(rank);
        put_shown(sink, frame, mode, entry.0, entry.1)?;
    }
    Ok(())
}
