//! What a verdict lists, as JSON.
ghost use Rattle.std.specs.Prelude.{decimal};
ghost use Rattle.solver_check.specs.JsonTexts.{agent_json, visit_json};

use crate::checks::json::lists::{Told, put_words};
use crate::checks::json::values::{answer, given_short};
use desk_report::{AgentLine, Sink, Word, WriteFailed, put_number};
use grid_cells::Agent;
use mapf_rules::Visit;

impl Told for Agent {
    ghost json = { decimal };

    fn put_json<W: Sink>(&self, sink: &mut W) -> Result<(), WriteFailed> {
        put_number(sink, u64::from(self.number()))
    }
}

impl Told for AgentLine {
    ghost json = { agent_json };

    fn put_json<W: Sink>(&self, sink: &mut W) -> Result<(), WriteFailed> {
        let words = [
            Word::Text(b"{\"agent\":"),
            Word::agent(self.agent),
            Word::Text(b",\"settle\":"),
            Word::Number(u64::from(self.settle)),
            Word::Text(b",\"finished\":"),
            answer(self.finished),
            Word::Text(b",\"bound\":"),
            given_short(self.bound),
            Word::Text(b",\"gap\":"),
            given_short(self.gap),
            Word::Text(b"}"),
        ];
        put_words(sink, &words)
    }
}

impl Told for Visit {
    ghost json = { visit_json };

    fn put_json<W: Sink>(&self, sink: &mut W) -> Result<(), WriteFailed> {
        let words = [
            Word::Text(b"{\"agent\":"),
            Word::agent(self.agent),
            Word::Text(b",\"time\":"),
            Word::time(self.time),
            Word::Text(b",\"cell\":["),
            Word::At(self.cell),
            Word::Text(b"]}"),
        ];
        put_words(sink, &words)
    }
}
