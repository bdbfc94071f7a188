//! A verdict as one JSON object: how it begins (`heads`), its `counts` and `lists`, of `items` and `entries` of
//! the report and of `findings`; `values` are words of JSON.
mod counts;
mod entries;
mod findings;
mod heads;
mod items;
mod lists;
mod values;

ghost use Rattle.std.specs.Prelude.{◌≡◌, ◌++◌, [], OnOk, OnErr, is_err, ◌||◌};
ghost use Rattle.std.specs.Io.KnownBytes.{Appends};
ghost use Rattle.desk_report.specs.Bytes.{AppendsFront, Puts};
ghost use Rattle.solver_check.specs.JsonTexts.{
  content_json,
  findings_json,
  json_text,
  listed_lists,
  lists_json,
  repeated_json,
  report_json,
};

use crate::checks::differences::Difference;
use crate::checks::judging::Verdict;
use crate::checks::wrongs::Wrong;
use counts::{put_counts, put_totals};
pub(crate) use counts::{Counts, counts_in};
use desk_report::{Kinds, Report, Sink, Word, WriteFailed, put_all};
use heads::put_head;
use lists::{put_list, put_words};

// The agents, the entries and the visits.
#[tactic(auto, using(desk_report::proofs::Fronts::fronts))]
fn put_lists<W: Sink>(sink: &mut W, report: &Report) -> Result<(), WriteFailed>
    ensures ok { OnOk result (Appends (W.held sink.old) (W.held sink.new) (lists_json report.now)) }
    ensures err { OnErr result (AppendsFront (W.held sink.old) (W.held sink.new) (lists_json report.now)) }
    ensures broken { W.broken sink.new ≡ (W.broken sink.old || is_err result) }
{
    let lines = report.lines.items();
    let entries = report.conflicts.items();
    let visits = report.visits.items();
    put_list(sink, b",\"agents\":[", lines)?;
    put_list(sink, b",\"entries\":[", entries)?;
    put_list(sink, b",\"visits\":[", visits)
}

// These, unless the report is quiet.
#[tactic(auto, using(desk_report::proofs::Fronts::fronts))]
fn put_listed<W: Sink>(sink: &mut W, quiet: bool, report: &Report) -> Result<(), WriteFailed>
    ensures ok { OnOk result (Appends (W.held sink.old) (W.held sink.new) (listed_lists quiet report.now)) }
    ensures err { OnErr result (AppendsFront (W.held sink.old) (W.held sink.new) (listed_lists quiet report.now)) }
    ensures broken { W.broken sink.new ≡ (W.broken sink.old || is_err result) }
{
    if quiet {
        Ok(())
    } else {
        put_lists(sink, report)
    }
}

// The report, of which there are so many of each.
#[tactic(auto, using(desk_report::proofs::Fronts::fronts))]
fn put_report<W: Sink>(
    sink: &mut W,
    quiet: bool,
    counts: Counts,
    report: &Report,
) -> Result<(), WriteFailed>
    ensures ok { OnOk result (Appends (W.held sink.old) (W.held sink.new) (report_json quiet counts report.now)) }
    ensures err { OnErr result (AppendsFront (W.held sink.old) (W.held sink.new) (report_json quiet counts report.now)) }
    ensures broken { W.broken sink.new ≡ (W.broken sink.old || is_err result) }
{
    put_counts(sink, counts)?;
    put_totals(sink, report)?;
    put_listed(sink, quiet, report)
}

// The paths that aren't any, the differences, and the end.
#[tactic(auto, using(desk_report::proofs::Fronts::fronts))]
fn put_findings<W: Sink>(
    sink: &mut W,
    wrongs: &[Wrong],
    differences: &[Difference],
) -> Result<(), WriteFailed>
    ensures ok { OnOk result (Appends (W.held sink.old) (W.held sink.new) (findings_json wrongs.now differences.now)) }
    ensures err { OnErr result (AppendsFront (W.held sink.old) (W.held sink.new) (findings_json wrongs.now differences.now)) }
    ensures broken { W.broken sink.new ≡ (W.broken sink.old || is_err result) }
{
    put_list(sink, b",\"wrong\":[", wrongs)?;
    put_list(sink, b",\"differs\":[", differences)?;
    put_all(sink, b"}\n")
}

// The line that has a list for the second time, and the end.
fn put_repeated<W: Sink>(sink: &mut W, line: usize) -> Result<(), WriteFailed>
    ensures { Puts W.held W.broken sink.old sink.new result (repeated_json line) }
{
    let words = [
        Word::Text(b",\"wrong\":[],\"differs\":[{\"what\":\"line\",\"line\":"),
        Word::Number(line as u64),
        Word::Text(b"}]}\n"),
    ];
    put_words(sink, &words)
}

// The report, the differences, and the end.
#[tactic(auto, using(desk_report::proofs::Fronts::fronts))]
fn put_judged<W: Sink>(
    sink: &mut W,
    quiet: bool,
    counts: Counts,
    report: &Report,
    differences: &[Difference],
) -> Result<(), WriteFailed>
    ensures ok { OnOk result (Appends (W.held sink.old) (W.held sink.new) (report_json quiet counts report.now ++ findings_json [] differences.now)) }
    ensures err { OnErr result (AppendsFront (W.held sink.old) (W.held sink.new) (report_json quiet counts report.now ++ findings_json [] differences.now)) }
    ensures broken { W.broken sink.new ≡ (W.broken sink.old || is_err result) }
{
    put_report(sink, quiet, counts, report)?;
    put_findings(sink, &[], differences)
}

// What a verdict says behind these.
fn put_content<W: Sink>(
    sink: &mut W,
    quiet: bool,
    counts: Counts,
    verdict: &Verdict,
) -> Result<(), WriteFailed>
    ensures ok { OnOk result (Appends (W.held sink.old) (W.held sink.new) (content_json quiet counts verdict.now)) }
    ensures err { OnErr result (AppendsFront (W.held sink.old) (W.held sink.new) (content_json quiet counts verdict.now)) }
    ensures broken { W.broken sink.new ≡ (W.broken sink.old || is_err result) }
{
    match verdict {
        Verdict::NoPaths => put_findings(sink, &[], &[]),
        Verdict::Repeated { line } => put_repeated(sink, *line),
        Verdict::Wrong {
            wrongs,
            differences,
        } => put_findings(sink, wrongs.items(), differences.items()),
        Verdict::Judged {
            report,
            differences,
            ..
        } => put_judged(sink, quiet, counts, report, differences.items()),
    }
}

/// Writes the verdict as one JSON object in a line: its answer, the kinds that were asked about, and what
/// it says; the report, of which there are so many of each, whole or quiet.
///
/// # Errors
/// The sink failed, or took no byte: a prefix of the text went out.
#[tactic(auto, using(desk_report::proofs::Fronts::fronts))]
pub(crate) fn put_json<W: Sink>(
    sink: &mut W,
    quiet: bool,
    kinds: Kinds,
    counts: Counts,
    verdict: &Verdict,
) -> Result<(), WriteFailed>
    ensures ok { OnOk result (Appends (W.held sink.old) (W.held sink.new) (json_text quiet kinds counts verdict.now)) }
    ensures err { OnErr result (AppendsFront (W.held sink.old) (W.held sink.new) (json_text quiet kinds counts verdict.now)) }
    ensures broken { W.broken sink.new ≡ (W.broken sink.old || is_err result) }
{
    put_head(sink, kinds, verdict)?;
    put_content(sink, quiet, counts, verdict)
}
