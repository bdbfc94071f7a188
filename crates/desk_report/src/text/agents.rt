ghost use Rattle.desk_report.specs.ReportText.{agent_line};

use crate::bytes::{Sink, WriteFailed};
use crate::reports::AgentLine;
use crate::text::listed::Listed;
use crate::words::{Word, put_line};

impl Listed for AgentLine {
    ghost line = { agent_line };

    fn put_into<W: Sink>(&self, sink: &mut W) -> Result<(), WriteFailed> {
        let words = [
            Word::agent(self.agent),
            Word::Text(b"settle"),
            Word::Number(u64::from(self.settle)),
            Word::Text(b"goal"),
            Word::Answer(self.finished),
            Word::Text(b"bound"),
            Word::given(self.bound),
            Word::Text(b"gap"),
            Word::given(self.gap),
        ];
        put_line(sink, b"agent", &words)
    }
}
