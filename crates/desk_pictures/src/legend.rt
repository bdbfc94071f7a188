//! The key beside the map: what is wrong and when, and what the signs stand for.
#![tactic(auto, using(crate::proofs::Growth::growths))]

ghost use Rattle.std.specs.Prelude.{OnOk, ◌≡◌, ◌||◌, is_err};
ghost use Rattle.desk_pictures.specs.Growth.{Grows};

use crate::counts::{put_rows, put_totals};
use crate::frames::Frame;
use crate::pieces::{Piece, Written, put_filled, put_letters};
use crate::sheet::Sheet;
use desk_report::{Kinds, Report, Sink};
use plan_table::{Mode, Plans};
use scene_edits::Scene;

// The last time at which an agent moves.
fn horizon(plans: &Plans) -> u32 {
    let mut horizon = 0;
    for rank in 0..plans.count() {
        let (_agent, row) = plans.entry_at(rank);
        horizon = row.plan.last().max(horizon);
    }
    horizon
}

// The signs that stand for no entry, and the ends of the key and of the picture.
const SIGNS: &[u8] = b"\
<g class='c0' style='transform:none'><use href='#a' transform='translate(14 506) scale(20)'/><use href='#o' transform='translate(14 536) scale(30)'/>\
<use href='#g' transform='translate(14 566) scale(22)'/></g>
<text x='40' y='512'>agent</text><text x='40' y='542'>start</text><text x='40' y='572'>goal</text>
</g>
</svg>
";

// How many agents don't end at their goals.
fn unfinished(report: &Report) -> u64 {
    let lines = report.lines.items();
    lines.iter().filter(|line| !line.finished).count() as u64
}

const ALL_KINDS: Kinds = Kinds {
    vertex: true,
    edge: true,
    follow: true,
    swap: true,
    cycle: true,
};

// The class of the heading: whether the plans solve the problem for the kinds.
fn heading_class(report: &Report, kinds: Option<Kinds>) -> &'static [u8] {
    if report.solves(kinds.unwrap_or(ALL_KINDS)) {
        b"good"
    } else {
        b"bad"
    }
}

// What is wrong, in two lines.
fn put_verdict<W: Sink>(sink: &mut W, report: &Report, kinds: Option<Kinds>) -> Written
    ensures ok { OnOk result (Grows (W.held sink.old) (W.held sink.new)) }
    ensures broken { W.broken sink.new ≡ (W.broken sink.old || is_err result) }
{
    let conflicts = report.conflicts.items().len() as u64;
    let blocked = report.visits.items().len() as u64;
    let unfinished = unfinished(report);
    if conflicts == 0 && blocked == 0 && unfinished == 0 {
        return put_letters(
            sink,
            b"<text class='good' y='60'>no conflicts, all at their goals</text>\n",
        );
    }
    let class = heading_class(report, kinds);
    put_filled(
        sink,
        b"<text class='~' y='60'>conflicts: ~, blocked: ~</text><text class='~' y='86'>not at their goals: ~</text>\n",
        &[
            Piece::Text(class),
            Piece::Number(conflicts),
            Piece::Number(blocked),
            Piece::Text(class),
            Piece::Number(unfinished),
        ],
    )
}

// The times of a moving picture, and a bar that grows as long as they last.
const TIMES: &[u8] = b"\
<text y='118'>times 0 to ~</text><rect y='128' width='300' height='6' fill='#ccc'/>\
<rect y='128' width='300' height='6' fill='#444'><animate attributeName='width' from='0' to='300' dur='~s'/></rect>
";

// The time of a still picture, or the times of a moving one, with a bar that grows.
fn put_time<W: Sink>(sink: &mut W, frame: &Frame, plans: &Plans) -> Written
    ensures ok { OnOk result (Grows (W.held sink.old) (W.held sink.new)) }
    ensures broken { W.broken sink.new ≡ (W.broken sink.old || is_err result) }
{
    if let Some(time) = frame.at {
        return put_filled(
            sink,
            b"<text y='118'>time ~</text>\n",
            &[Piece::Count(time.number())],
        );
    }
    let horizon = horizon(plans);
    put_filled(
        sink,
        TIMES,
        &[Piece::Count(horizon), Piece::Seconds(horizon.max(1))],
    )
}

fn mode_text(mode: Mode) -> &'static [u8] {
    match mode {
        Mode::Stay => b"stay",
        Mode::Disappear => b"disappear",
    }
}

// What is shown, between the two texts: how many agents, on a map of what size, in which mode.
fn put_scene<'a, W: Sink>(
    sink: &mut W,
    before: &'a [u8],
    scene: &Scene,
    behind: &'a [u8],
) -> Written
    ensures ok { OnOk result (Grows (W.held sink.old) (W.held sink.new)) }
    ensures broken { W.broken sink.new ≡ (W.broken sink.old || is_err result) }
{
    let size = scene.grid().size();
    let pieces = [
        Piece::Text(before),
        Piece::Count(scene.plans().count()),
        Piece::Count(size.width()),
        Piece::Count(size.height()),
        Piece::Text(mode_text(scene.mode())),
        Piece::Text(behind),
    ];
    put_filled(sink, b"~~ agents, ~ x ~, mode ~~", &pieces)
}

/// Puts the title of the whole picture.
pub(crate) fn put_title<W: Sink>(sink: &mut W, scene: &Scene) -> Written
    ensures ok { OnOk result (Grows (W.held sink.old) (W.held sink.new)) }
    ensures broken { W.broken sink.new ≡ (W.broken sink.old || is_err result) }
{
    put_scene(sink, b"<title>mapf_desk: ", scene, b"</title>\n")
}

/// Puts the end of the map's part, the key, and the picture's end.
pub(crate) fn put_legend<W: Sink>(
    sink: &mut W,
    sheet: Sheet,
    scene: &Scene,
    report: &Report,
    frame: &Frame,
) -> Written
    ensures ok { OnOk result (Grows (W.held sink.old) (W.held sink.new)) }
    ensures broken { W.broken sink.new ≡ (W.broken sink.old || is_err result) }
{
    put_filled(
        sink,
        b"</svg>\n<g id='key' transform='translate(~ 20)'>\n",
        &[Piece::Number(u64::from(sheet.across) + 64)],
    )?;
    put_scene(sink, b"<text class='head' y='22'>", scene, b"</text>\n")?;
    put_verdict(sink, report, frame.kinds)?;
    put_time(sink, frame, scene.plans())?;
    put_rows(sink, report)?;
    put_totals(sink, report)?;
    put_letters(sink, SIGNS)
}
