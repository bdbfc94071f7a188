//! The text of a report.
mod agents;
mod changes;
mod cycles;
mod entries;
mod listed;
mod totals;
mod visits;

ghost use Rattle.std.specs.Prelude.{◌≡◌, OnOk, OnErr, is_err, ◌||◌};
ghost use Rattle.std.specs.Io.KnownBytes.{Appends};
ghost use Rattle.desk_report.specs.Bytes.{AppendsFront};
ghost use Rattle.desk_report.specs.ReportText.{report_text};

use crate::bytes::{Sink, WriteFailed};
use crate::reports::Report;
pub use changes::{write_changes, write_trial};
pub use entries::put_entry;
use listed::put_list;
pub use totals::{put_count, put_totals};
pub use visits::put_visit;

/// Writes the text of the report: a line for each agent, conflict and blocked visit, times in
/// steps and cells as column and row, and the totals. It takes no memory. Where the sink fails, or
/// takes no byte, a prefix of the text went out.
#[tactic(auto, using(crate::proofs::Fronts::fronts))]
pub fn write_report<W: Sink>(report: &Report, sink: &mut W) -> Result<(), WriteFailed>
    ensures ok { OnOk result (Appends (W.held sink.old) (W.held sink.new) (report_text report.now)) }
    ensures err { OnErr result (AppendsFront (W.held sink.old) (W.held sink.new) (report_text report.now)) }
    ensures broken { W.broken sink.new ≡ (W.broken sink.old || is_err result) }
{
    put_list(sink, b"agents", &report.lines)?;
    put_list(sink, b"conflicts", &report.conflicts)?;
    put_list(sink, b"blocked", &report.visits)?;
    put_totals(sink, report)
}
