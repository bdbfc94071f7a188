//! How a verdict's JSON object begins.
ghost use Rattle.std.specs.Prelude.{◌≡◌};
ghost use Rattle.desk_report.specs.Bytes.{Puts};
ghost use Rattle.solver_check.specs.JsonTexts.{head_json, verdict_name};

use crate::checks::json::lists::put_words;
use crate::checks::json::values::answer;
use crate::checks::judging::Verdict;
use crate::checks::texts::says_yes;
use desk_report::{Kinds, Sink, Word, WriteFailed};

// What the text of paths comes to.
fn verdict_name(verdict: &Verdict) -> &'static [u8]
    ensures { result.now ≡ verdict_name verdict.now }
{
    match verdict {
        Verdict::NoPaths => b"no-paths",
        Verdict::Repeated { .. } => b"repeated-list",
        Verdict::Wrong { .. } => b"wrong-paths",
        Verdict::Judged { .. } => b"judged",
    }
}

/// Puts whether the paths solve the problem, what their text comes to, and the kinds that were asked about.
///
/// # Errors
/// The sink failed, or took no byte: a prefix of the text went out.
pub(crate) fn put_head<W: Sink>(
    sink: &mut W,
    kinds: Kinds,
    verdict: &Verdict,
) -> Result<(), WriteFailed>
    ensures { Puts W.held W.broken sink.old sink.new result (head_json kinds verdict.now) }
{
    let words = [
        Word::Text(b"{\"solves\":"),
        answer(says_yes(verdict)),
        Word::Text(b",\"verdict\":\""),
        Word::Text(verdict_name(verdict)),
        Word::Text(b"\",\"kinds\":{\"vertex\":"),
        answer(kinds.vertex),
        Word::Text(b",\"edge\":"),
        answer(kinds.edge),
        Word::Text(b",\"follow\":"),
        answer(kinds.follow),
        Word::Text(b",\"swap\":"),
        answer(kinds.swap),
        Word::Text(b",\"cycle\":"),
        answer(kinds.cycle),
        Word::Text(b"}"),
    ];
    put_words(sink, &words)
}
