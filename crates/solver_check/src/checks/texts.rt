ghost use Rattle.std.specs.Prelude.{◌≡◌, ◌||◌, is_err, OnErr, OnOk};
ghost use Rattle.std.specs.Io.KnownBytes.{Appends};
ghost use Rattle.desk_report.specs.Bytes.{AppendsFront};
ghost use Rattle.solver_check.specs.CheckTexts.{body_text, check_text, findings_text, report_body, says_yes, wrong_body};

use crate::checks::differences::Difference;
use crate::checks::findings::{put_differences, put_repeated, put_wrongs};
use crate::checks::judging::Verdict;
use crate::checks::quiet::put_quiet;
use crate::checks::wrongs::Wrong;
use desk_report::{Report, Sink, Word, WriteFailed, put_line, write_report};

// The report, whole or quiet.
fn put_body<W: Sink>(writer: &mut W, quiet: bool, report: &Report) -> Result<(), WriteFailed>
    ensures ok { OnOk result (Appends (W.held writer.old) (W.held writer.new) (body_text quiet report.now)) }
    ensures err { OnErr result (AppendsFront (W.held writer.old) (W.held writer.new) (body_text quiet report.now)) }
    ensures broken { W.broken writer.new ≡ (W.broken writer.old || is_err result) }
{
    if quiet {
        put_quiet(writer, report)
    } else {
        write_report(report, writer)
    }
}

// Version 0, the report, whole or quiet, and the differences.
#[tactic(auto, using(desk_report::proofs::Fronts::fronts))]
fn put_judged<W: Sink>(
    writer: &mut W,
    quiet: bool,
    report: &Report,
    differences: &[Difference],
) -> Result<(), WriteFailed>
    ensures ok { OnOk result (Appends (W.held writer.old) (W.held writer.new) (report_body quiet report.now differences.now)) }
    ensures err { OnErr result (AppendsFront (W.held writer.old) (W.held writer.new) (report_body quiet report.now differences.now)) }
    ensures broken { W.broken writer.new ≡ (W.broken writer.old || is_err result) }
{
    put_line(writer, b"version", &[Word::Number(0)])?;
    put_body(writer, quiet, report)?;
    put_differences(writer, differences)
}

// The paths that aren't any, and the differences.
#[tactic(auto, using(desk_report::proofs::Fronts::fronts))]
fn put_wrong_paths<W: Sink>(
    writer: &mut W,
    wrongs: &[Wrong],
    differences: &[Difference],
) -> Result<(), WriteFailed>
    ensures ok { OnOk result (Appends (W.held writer.old) (W.held writer.new) (wrong_body wrongs.now differences.now)) }
    ensures err { OnErr result (AppendsFront (W.held writer.old) (W.held writer.new) (wrong_body wrongs.now differences.now)) }
    ensures broken { W.broken writer.new ≡ (W.broken writer.old || is_err result) }
{
    put_wrongs(writer, wrongs)?;
    put_differences(writer, differences)
}

// What a verdict says before its answer.
fn put_findings<W: Sink>(writer: &mut W, quiet: bool, verdict: &Verdict) -> Result<(), WriteFailed>
    ensures ok { OnOk result (Appends (W.held writer.old) (W.held writer.new) (findings_text quiet verdict.now)) }
    ensures err { OnErr result (AppendsFront (W.held writer.old) (W.held writer.new) (findings_text quiet verdict.now)) }
    ensures broken { W.broken writer.new ≡ (W.broken writer.old || is_err result) }
{
    match verdict {
        Verdict::NoPaths => put_line(writer, b"no", &[Word::Text(b"paths")]),
        Verdict::Repeated { line } => put_repeated(writer, *line),
        Verdict::Wrong {
            wrongs,
            differences,
        } => put_wrong_paths(writer, wrongs.items(), differences.items()),
        Verdict::Judged {
            report,
            differences,
            ..
        } => put_judged(writer, quiet, report, differences.items()),
    }
}

/// Whether the paths solve the problem.
pub(crate) fn says_yes(verdict: &Verdict) -> bool
    ensures { result ≡ says_yes verdict.now }
{
    match verdict {
        Verdict::Judged { solved, .. } => *solved,
        Verdict::NoPaths | Verdict::Repeated { .. } | Verdict::Wrong { .. } => false,
    }
}

/// Writes the verdict: that there are no paths, the line of a list that stood before, the paths that aren't any, or version 0 and the report,
/// whole or quiet; where the text differs from the problem; and the answer.
///
/// # Errors
/// The writer failed, or took no byte: a prefix of the text went out.
#[tactic(auto, using(desk_report::proofs::Fronts::fronts))]
pub(crate) fn put_check<W: Sink>(
    writer: &mut W,
    quiet: bool,
    verdict: &Verdict,
) -> Result<(), WriteFailed>
    ensures ok { OnOk result (Appends (W.held writer.old) (W.held writer.new) (check_text quiet verdict.now)) }
    ensures err { OnErr result (AppendsFront (W.held writer.old) (W.held writer.new) (check_text quiet verdict.now)) }
    ensures broken { W.broken writer.new ≡ (W.broken writer.old || is_err result) }
{
    put_findings(writer, quiet, verdict)?;
    put_line(writer, b"solves", &[Word::Answer(says_yes(verdict))])
}
