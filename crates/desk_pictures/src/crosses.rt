//! The marks of the report's visits, each titled by the report's line.
ghost use Rattle.std.specs.Prelude.{◌≡◌, OnOk, ◌||◌, is_err};
ghost use Rattle.std.specs.List.{flat_map};
ghost use Rattle.std.specs.Io.KnownBytes.{Appends};
ghost use Rattle.desk_pictures.specs.Marks.{cross_opening_text, cross_text, crosses_text};

use crate::frames::{Frame, class_text};
use crate::pieces::{Piece, Written, put_pieces};
use desk_report::{Sink, put_all, put_visit};
use mapf_rules::Visit;

// The mark of a visit up to its title. In a still picture of the visit's time it is lit.
#[tactic(auto, unfolding(crate::specs::Marks::cross_opening_text))]
fn put_cross_opening<W: Sink>(sink: &mut W, lit: bool, x: u32, y: u32) -> Written
    ensures ok { OnOk result (Appends (W.held sink.old) (W.held sink.new) (cross_opening_text lit x y)) }
    ensures broken { W.broken sink.new ≡ (W.broken sink.old || is_err result) }
{
    let pieces = [
        Piece::Text(b"<rect"),
        Piece::Text(class_text(lit)),
        Piece::Text(b" x='"),
        Piece::Number(u64::from(x)),
        Piece::Text(b"' y='"),
        Piece::Number(u64::from(y)),
        Piece::Text(b"'><title>"),
    ];
    put_pieces(sink, &pieces)
}

// The mark of a visit, which a moving picture has at all times.
fn put_cross<W: Sink>(sink: &mut W, frame: &Frame, visit: &Visit) -> Written
    ensures ok { OnOk result (Appends (W.held sink.old) (W.held sink.new) (cross_text frame.now.at visit.now)) }
    ensures broken { W.broken sink.new ≡ (W.broken sink.old || is_err result) }
{
    let (x, y) = (visit.cell.x(), visit.cell.y());
    put_cross_opening(sink, frame.is_at(visit.time), x, y)?;
    put_visit(sink, visit)?;
    put_all(sink, b"</title></rect>")
}

#[tactic(auto, using(crate::proofs::Growth::texts))]
fn put_each_cross<W: Sink>(sink: &mut W, frame: &Frame, visits: &[Visit]) -> Written
    ensures ok { OnOk result (Appends (W.held sink.old) (W.held sink.new) (flat_map (cross_text frame.now.at) visits.now)) }
    ensures broken { W.broken sink.new ≡ (W.broken sink.old || is_err result) }
{
    for visit in visits {
        put_cross(sink, frame, visit)?;
    }
    Ok(())
}

/// Puts the group of the visits' marks, in the report's order.
pub(crate) fn put_crosses<W: Sink>(sink: &mut W, frame: &Frame, visits: &[Visit]) -> Written
    ensures ok { OnOk result (Appends (W.held sink.old) (W.held sink.new) (crosses_text frame.now.at visits.now)) }
    ensures broken { W.broken sink.new ≡ (W.broken sink.old || is_err result) }
{
    put_all(sink, b"<g id='visits'>\n")?;
    put_each_cross(sink, frame, visits)?;
    put_all(sink, b"</g>\n")
}
