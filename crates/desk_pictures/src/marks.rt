//! The marks of the report's entries, each titled by the report's line.
ghost use Rattle.std.specs.Prelude.{◌≡◌, OnOk, ◌||◌, is_err, None};
ghost use Rattle.std.specs.Io.KnownBytes.{Appends};
ghost use Rattle.plan_table.specs.Route.{tracks_of};
ghost use Rattle.desk_pictures.specs.Marks.{opening_text, mark_text, group_text, end_text, turn_text, marks_behind, marks_text, findings_text};

use crate::crosses::put_crosses;
use crate::frames::Frame;
use crate::pieces::{Piece, Written, put_pieces};
use crate::spots::{Spot, spot_of, symbol_of};
use desk_report::{Report, Sink, put_all, put_entry};
use grid_cells::Step;
use mapf_rules::Conflict;
use scene_edits::Scene;

// The mark of an entry at the spot, up to its title.
#[tactic(auto, unfolding(crate::specs::Marks::opening_text))]
fn put_opening<'a, W: Sink>(sink: &mut W, symbol: &'a [u8], spot: Spot) -> Written
    ensures ok { OnOk result (Appends (W.held sink.old) (W.held sink.new) (opening_text symbol.now spot)) }
    ensures broken { W.broken sink.new ≡ (W.broken sink.old || is_err result) }
{
    let pieces = [
        Piece::Text(b"<use href='#"),
        Piece::Text(symbol),
        Piece::Text(b"' x='"),
        Piece::Half(u64::from(spot.across)),
        Piece::Text(b"' y='"),
        Piece::Half(u64::from(spot.down)),
        Piece::Text(b"'><title>"),
    ];
    put_pieces(sink, &pieces)
}

// The mark of an entry.
fn put_mark<W: Sink>(sink: &mut W, scene: &Scene, entry: &Conflict) -> Written
    ensures ok { OnOk result (Appends (W.held sink.old) (W.held sink.new) (mark_text (tracks_of scene.now.mode scene.now.rows) entry.now)) }
    ensures broken { W.broken sink.new ≡ (W.broken sink.old || is_err result) }
{
    let spot = spot_of(scene.plans(), scene.mode(), entry);
    put_opening(sink, symbol_of(entry), spot)?;
    put_entry(sink, entry)?;
    put_all(sink, b"</title></use>")
}

// The beginning of a group of marks of the time. In a moving picture they are lit for a step.
fn put_group<W: Sink>(sink: &mut W, moving: bool, lit: bool, time: Step) -> Written
    ensures ok { OnOk result (Appends (W.held sink.old) (W.held sink.new) (group_text moving lit time)) }
    ensures broken { W.broken sink.new ≡ (W.broken sink.old || is_err result) }
{
    if !moving {
        if lit {
            return put_all(sink, b"<g class='lit'>\n");
        }
        return put_all(sink, b"<g>\n");
    }
    let pieces = [
        Piece::Text(b"<g><set attributeName='opacity' to='1' begin='"),
        Piece::Seconds(time.number()),
        Piece::Text(b"s' dur='0.4s'/>\n"),
    ];
    put_pieces(sink, &pieces)
}

// The end of the group of a mark, if there is one before.
fn put_end<W: Sink>(sink: &mut W, before: Option<Step>) -> Written
    ensures ok { OnOk result (Appends (W.held sink.old) (W.held sink.new) (end_text before)) }
    ensures broken { W.broken sink.new ≡ (W.broken sink.old || is_err result) }
{
    match before {
        Some(_) => put_all(sink, b"</g>\n"),
        None => Ok(()),
    }
}

// What stands before a mark of the time, behind one of that other time or none.
#[tactic(auto, using(crate::proofs::Growth::texts))]
fn put_turn<W: Sink>(sink: &mut W, frame: &Frame, before: Option<Step>, time: Step) -> Written
    ensures ok { OnOk result (Appends (W.held sink.old) (W.held sink.new) (turn_text frame.now.at before time)) }
    ensures broken { W.broken sink.new ≡ (W.broken sink.old || is_err result) }
{
    let lit = frame.is_at(time);
    match before {
        None => put_group(sink, frame.moves(), lit, time),
        Some(before) if before.number() == time.number() => Ok(()),
        Some(_) => {
            put_all(sink, b"</g>\n")?;
            put_group(sink, frame.moves(), lit, time)
        }
    }
}

// The marks of the entries, in groups of those of one time that follow one another.
#[tactic(auto, using(crate::proofs::Growth::texts))]
fn put_each_mark<W: Sink>(
    sink: &mut W,
    frame: &Frame,
    scene: &Scene,
    entries: &[Conflict],
) -> Written
    ensures ok { OnOk result (Appends (W.held sink.old) (W.held sink.new)
        (marks_behind frame.now.at (tracks_of scene.now.mode scene.now.rows) None entries.now)) }
    ensures broken { W.broken sink.new ≡ (W.broken sink.old || is_err result) }
{
    let mut before = None;
    for entry in entries {
        let time = entry.time();
        put_turn(sink, frame, before, time)?;
        put_mark(sink, scene, entry)?;
        before = Some(time);
    }
    put_end(sink, before)
}

// The group of the entries' marks, in the report's order.
fn put_marks<W: Sink>(sink: &mut W, frame: &Frame, scene: &Scene, entries: &[Conflict]) -> Written
    ensures ok { OnOk result (Appends (W.held sink.old) (W.held sink.new) (marks_text frame.now.at (tracks_of scene.now.mode scene.now.rows) entries.now)) }
    ensures broken { W.broken sink.new ≡ (W.broken sink.old || is_err result) }
{
    put_all(sink, b"<g id='entries'>\n")?;
    put_each_mark(sink, frame, scene, entries)?;
    put_all(sink, b"</g>\n")
}

/// Puts a mark for each visit and each entry of the report.
#[tactic(auto, using(crate::proofs::Growth::texts))]
pub(crate) fn put_findings<W: Sink>(
    sink: &mut W,
    scene: &Scene,
    report: &Report,
    frame: &Frame,
) -> Written
    ensures ok { OnOk result (Appends (W.held sink.old) (W.held sink.new) (findings_text frame.now.at scene.now report.now)) }
    ensures broken { W.broken sink.new ≡ (W.broken sink.old || is_err result) }
{
    put_crosses(sink, frame, report.visits.items())?;
    put_marks(sink, frame, scene, report.conflicts.items())
}
