//! A report without its lists.
ghost use Rattle.std.specs.Prelude.{◌≡◌, ◌||◌, is_err, OnErr, OnOk};
ghost use Rattle.std.specs.Io.KnownBytes.{Appends};
ghost use Rattle.desk_report.specs.Bytes.{AppendsFront};
ghost use Rattle.desk_report.specs.ReportText.{count_line};
ghost use Rattle.solver_check.specs.CheckTexts.{count_finished, count_named, kind_line, kinds_text, quiet_text};

use desk_report::{AgentLine, Kinds, Report, Sink, WriteFailed, put_count, put_totals};
use mapf_rules::Conflict;

/// No kind.
pub(crate) const NONE: Kinds = Kinds {
    vertex: false,
    edge: false,
    follow: false,
    swap: false,
    cycle: false,
};

/// How many of the agents are finished.
pub(crate) fn count_finished(lines: &[AgentLine]) -> usize
    ensures { result ≡ count_finished lines.now }
{
    lines.iter().filter(|line| line.finished).count()
}

/// How many of the entries are of a named kind.
pub(crate) fn count_named(kinds: Kinds, entries: &[Conflict]) -> usize
    ensures { result ≡ count_named kinds entries.now }
{
    entries
        .iter()
        .filter(|entry| kinds.names(entry.kind()))
        .count()
}

// How many of the entries are of a named kind.
fn put_kind<W: Sink>(
    sink: &mut W,
    name: &[u8],
    kinds: Kinds,
    entries: &[Conflict],
) -> Result<(), WriteFailed>
    ensures ok { OnOk result (Appends (W.held sink.old) (W.held sink.new) (kind_line name.now kinds entries.now)) }
    ensures err { OnErr result (AppendsFront (W.held sink.old) (W.held sink.new) (kind_line name.now kinds entries.now)) }
    ensures broken { W.broken sink.new ≡ (W.broken sink.old || is_err result) }
{
    put_count(sink, name, count_named(kinds, entries))
}

// How many entries there are of each kind that can be asked about.
#[tactic(auto, using(desk_report::proofs::Fronts::fronts), unfolding(crate::specs::CheckTexts::kinds_text))]
fn put_kinds<W: Sink>(sink: &mut W, entries: &[Conflict]) -> Result<(), WriteFailed>
    ensures ok { OnOk result (Appends (W.held sink.old) (W.held sink.new) (kinds_text entries.now)) }
    ensures err { OnErr result (AppendsFront (W.held sink.old) (W.held sink.new) (kinds_text entries.now)) }
    ensures broken { W.broken sink.new ≡ (W.broken sink.old || is_err result) }
{
    put_kind(
        sink,
        b"vertex",
        Kinds {
            vertex: true,
            ..NONE
        },
        entries,
    )?;
    put_kind(sink, b"edge", Kinds { edge: true, ..NONE }, entries)?;
    put_kind(
        sink,
        b"follow",
        Kinds {
            follow: true,
            ..NONE
        },
        entries,
    )?;
    put_kind(sink, b"swap", Kinds { swap: true, ..NONE }, entries)?;
    put_kind(
        sink,
        b"cycle",
        Kinds {
            cycle: true,
            ..NONE
        },
        entries,
    )
}

/// Writes the report without the agents' lines, the entries and the visits: how many there are of
/// each, how many agents are finished, and the totals.
///
/// # Errors
/// The sink failed, or took no byte: a prefix of the text went out.
#[tactic(auto, using(desk_report::proofs::Fronts::fronts))]
pub(crate) fn put_quiet<W: Sink>(sink: &mut W, report: &Report) -> Result<(), WriteFailed>
    ensures ok { OnOk result (Appends (W.held sink.old) (W.held sink.new) (quiet_text report.now)) }
    ensures err { OnErr result (AppendsFront (W.held sink.old) (W.held sink.new) (quiet_text report.now)) }
    ensures broken { W.broken sink.new ≡ (W.broken sink.old || is_err result) }
{
    let entries = report.conflicts.items();
    let lines = report.lines.items();
    put_count(sink, b"agents", lines.len())?;
    put_count(sink, b"finished", count_finished(lines))?;
    put_count(sink, b"conflicts", entries.len())?;
    put_kinds(sink, entries)?;
    put_count(sink, b"blocked", report.visits.items().len())?;
    put_totals(sink, report)
}
