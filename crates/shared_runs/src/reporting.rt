ghost use Rattle.std.specs.Prelude.{◌≡◌, ◌||◌, OnErr, OnOk, is_err};
ghost use Rattle.std.specs.Io.KnownBytes.{Appends};
ghost use Rattle.desk_report.specs.Bytes.{AppendsFront};
ghost use Rattle.shared_runs.specs.Drills.{drill_text, same_line};

use desk_core::Reading;
use desk_report::{Sink, Word, WriteFailed, put_line};
use session_protocol::put_report;

// Writes whether the audit's report is the same.
fn put_same<W: Sink>(writer: &mut W, same: bool) -> Result<(), WriteFailed>
    ensures ok { OnOk result (Appends (W.held writer.old) (W.held writer.new) (same_line same)) }
    ensures err { OnErr result (AppendsFront (W.held writer.old) (W.held writer.new) (same_line same)) }
    ensures broken { W.broken writer.new ≡ (W.broken writer.old || is_err result) }
{
    if same {
        put_line(writer, b"audit", &[Word::Text(b"same")])
    } else {
        put_line(writer, b"audit", &[Word::Text(b"differs")])
    }
}

/// Writes a reading, and whether the audit's report is the same.
///
/// # Errors
///
/// The writer failed.
#[tactic(auto, using(desk_report::proofs::Fronts::fronts))]
pub(crate) fn put_drill<W: Sink>(
    writer: &mut W,
    reading: &Reading,
    same: bool,
) -> Result<(), WriteFailed>
    ensures ok { OnOk result (Appends (W.held writer.old) (W.held writer.new) (drill_text reading.now same)) }
    ensures err { OnErr result (AppendsFront (W.held writer.old) (W.held writer.new) (drill_text reading.now same)) }
    ensures broken { W.broken writer.new ≡ (W.broken writer.old || is_err result) }
{
    put_report(writer, reading.version, &reading.report)?;
    put_same(writer, same)
}
