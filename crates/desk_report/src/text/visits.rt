ghost use Rattle.desk_report.specs.Bytes.{Puts};
ghost use Rattle.desk_report.specs.ReportText.{visit_line};

use crate::bytes::{Sink, WriteFailed};
use crate::text::listed::Listed;
use crate::words::{Word, put_line};
use mapf_rules::Visit;

/// Puts the line of a visit to a closed cell: the agent, the time in steps, and the cell as column
/// and row.
pub fn put_visit<W: Sink>(sink: &mut W, visit: &Visit) -> Result<(), WriteFailed>
    ensures { Puts W.held W.broken sink.old sink.new result (visit_line visit.now) }
{
    let words = [
        Word::agent(visit.agent),
        Word::time(visit.time),
        Word::At(visit.cell),
    ];
    put_line(sink, b"visit", &words)
}

impl Listed for Visit {
    ghost line = { visit_line };

    fn put_into<W: Sink>(&self, sink: &mut W) -> Result<(), WriteFailed> {
        put_visit(sink, self)
    }
}
