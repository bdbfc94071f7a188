ghost use Rattle.std.specs.Prelude.{◌≡◌, codes, OnOk, OnErr, is_err, ◌||◌};
ghost use Rattle.std.specs.Io.KnownBytes.{Appends};
ghost use Rattle.desk_report.specs.Bytes.{AppendsFront, Puts};
ghost use Rattle.desk_report.specs.ReportText.{count_line, total_line, totals_text};

use crate::bytes::{Sink, WriteFailed};
use crate::reports::Report;
use crate::words::{Word, put_line};

/// Puts how many there are, after that word. Where the sink fails, or takes no byte, a prefix of
/// the line went out.
pub fn put_count<W: Sink>(sink: &mut W, name: &[u8], count: usize) -> Result<(), WriteFailed>
    ensures { Puts W.held W.broken sink.old sink.new result (count_line name.now count) }
{
    put_line(sink, name, &[Word::Number(count as u64)])
}

// A total.
fn put_total<W: Sink>(sink: &mut W, name: &[u8], total: Option<u64>) -> Result<(), WriteFailed>
    ensures { Puts W.held W.broken sink.old sink.new result (total_line name.now total) }
{
    put_line(sink, name, &[Word::Given(total)])
}

// The makespan.
fn put_makespan<W: Sink>(sink: &mut W, makespan: Option<u32>) -> Result<(), WriteFailed>
    ensures { Puts W.held W.broken sink.old sink.new result (total_line (codes "makespan") makespan) }
{
    put_line(sink, b"makespan", &[Word::given(makespan)])
}

/// Puts the totals of the report, each in a line, and its end. Where the sink fails, or takes no
/// byte, a prefix of the lines went out.
#[tactic(auto, using(crate::proofs::Fronts::fronts))]
pub fn put_totals<W: Sink>(sink: &mut W, report: &Report) -> Result<(), WriteFailed>
    ensures ok { OnOk result (Appends (W.held sink.old) (W.held sink.new) (totals_text report.now)) }
    ensures err { OnErr result (AppendsFront (W.held sink.old) (W.held sink.new) (totals_text report.now)) }
    ensures broken { W.broken sink.new ≡ (W.broken sink.old || is_err result) }
{
    put_total(sink, b"sum", report.sum)?;
    put_makespan(sink, report.makespan)?;
    put_total(sink, b"bounds", report.bounds)?;
    put_total(sink, b"gap", report.total_gap)?;
    put_line(sink, b"end", &[])
}
