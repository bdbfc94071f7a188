//! The counts by kind, beside the sign of each, and the totals.
#![tactic(auto, using(crate::proofs::Growth::growths))]

ghost use Rattle.std.specs.Prelude.{OnOk, ◌≡◌, ◌||◌, is_err};
ghost use Rattle.desk_pictures.specs.Growth.{Grows};

use crate::pieces::{Piece, Written, put_filled};
use desk_report::{Report, Sink};
use mapf_rules::Kind;

// How many entries of the kind there are, or visits.
fn count_of(report: &Report, kind: Option<Kind>) -> u64 {
    let Some(kind) = kind else {
        return report.visits.items().len() as u64;
    };
    let entries = report.conflicts.items();
    entries.iter().filter(|entry| entry.kind() == kind).count() as u64
}

// The class of a row that stands for nothing, or none.
fn class_of(count: u64) -> &'static [u8] {
    if count == 0 { b" class='none'" } else { b"" }
}

// A row of the key: a sign, what it stands for, and how many there are.
fn put_row<'a, W: Sink>(
    sink: &mut W,
    down: u64,
    sign: &'a [u8],
    name: &'a [u8],
    count: u64,
) -> Written
    ensures ok { OnOk result (Grows (W.held sink.old) (W.held sink.new)) }
    ensures broken { W.broken sink.new ≡ (W.broken sink.old || is_err result) }
{
    let pieces = [
        Piece::Text(class_of(count)),
        Piece::Number(down),
        Piece::Text(sign),
        Piece::Text(name),
        Piece::Number(count),
    ];
    put_filled(
        sink,
        b"<g~ transform='translate(0 ~)'><use href='#~' transform='translate(14 -6) scale(18)'/><text x='40'>~</text><text class='n' x='300'>~</text></g>\n",
        &pieces,
    )
}

// Where the row of each kind is, its sign and its name; the last is that of visits.
const ROWS: &[(u64, &[u8], &[u8], Option<Kind>)] = &[
    (170, b"v", b"vertex", Some(Kind::Vertex)),
    (200, b"p", b"parked", Some(Kind::Parked)),
    (230, b"e", b"edge", Some(Kind::Edge)),
    (260, b"f", b"follow", Some(Kind::Following)),
    (290, b"s", b"swap", Some(Kind::Swapping)),
    (320, b"c", b"cycle", Some(Kind::Cycle)),
    (350, b"x", b"visit to a closed cell", None),
];

/// Puts a row for each kind of what a report has.
pub(crate) fn put_rows<W: Sink>(sink: &mut W, report: &Report) -> Written
    ensures ok { OnOk result (Grows (W.held sink.old) (W.held sink.new)) }
    ensures broken { W.broken sink.new ≡ (W.broken sink.old || is_err result) }
{
    for (down, sign, name, kind) in ROWS {
        put_row(sink, *down, sign, name, count_of(report, *kind))?;
    }
    Ok(())
}

// The totals, each a number or `none`.
const TOTALS: &[u8] = b"\
<text x='4' y='395'>sum of costs</text><text class='n' x='300' y='395'>~</text>
<text x='4' y='420'>makespan</text><text class='n' x='300' y='420'>~</text>
<text x='4' y='445'>sum of bounds</text><text class='n' x='300' y='445'>~</text>
<text x='4' y='470'>gap</text><text class='n' x='300' y='470'>~</text>
";

/// Puts the totals.
pub(crate) fn put_totals<W: Sink>(sink: &mut W, report: &Report) -> Written
    ensures ok { OnOk result (Grows (W.held sink.old) (W.held sink.new)) }
    ensures broken { W.broken sink.new ≡ (W.broken sink.old || is_err result) }
{
    let pieces = [
        Piece::Given(report.sum),
        Piece::Given(report.makespan.map(u64::from)),
        Piece::Given(report.bounds),
        Piece::Given(report.total_gap),
    ];
    put_filled(sink, TOTALS, &pieces)
}
