//! The texts of replies.
ghost use Rattle.std.specs.Prelude.{◌≡◌, IsTrue, OnOk, OnErr, is_err, ◌||◌};
ghost use Rattle.std.specs.Io.KnownBytes.{Appends};
ghost use Rattle.desk_report.specs.Bytes.{AppendsFront, Puts};
ghost use Rattle.session_protocol.specs.Replies.{bad_word, begins_as_listed, cell_word, is_acceptance, plan_line};
ghost use Rattle.session_protocol.specs.Replies.{standing_line, version_line, reported_text, reply_text, would_text};

use crate::listing::put_listing;
use crate::refusals::{put_not_asked, put_not_told, put_refused};
use crate::replies::{BadLine, Reply};
use desk_report::{
    Changes, Report, Sink, Word, WriteFailed, put_line, write_changes, write_report, write_trial,
};
use grid_cells::{Agent, List};
use plan_table::Row;

// The word for what is wrong with a line.
fn word_of(why: BadLine) -> &'static [u8]
    ensures { result.now ≡ bad_word why }
{
    match why {
        BadLine::Word => b"word",
        BadLine::Shape => b"shape",
        BadLine::NotBegun => b"notbegun",
        BadLine::Full => b"full",
    }
}

// What is wrong with a line.
fn put_bad<W: Sink>(sink: &mut W, line: u32, why: BadLine) -> Result<(), WriteFailed>
    ensures { Puts W.held W.broken sink.old sink.new result (reply_text (Reply.Bad line why)) }
{
    let words = [Word::Number(u64::from(line)), Word::Text(word_of(why))];
    put_line(sink, b"bad", &words)
}

// A version.
fn put_version<W: Sink>(sink: &mut W, version: u64) -> Result<(), WriteFailed>
    ensures { Puts W.held W.broken sink.old sink.new result (version_line version) }
{
    put_line(sink, b"version", &[Word::Number(version)])
}

// An agent's goal, and its path.
fn put_plan<W: Sink>(sink: &mut W, agent: Agent, row: &Row) -> Result<(), WriteFailed>
    ensures { Puts W.held W.broken sink.old sink.new result (plan_line agent row.now) }
{
    let words = [Word::agent(agent), Word::At(row.goal)];
    put_listing(sink, b"plan", &words, row.plan.cells())
}

// The word for whether a cell is open.
fn cell_word(is_open: bool) -> &'static [u8]
    ensures { result.now ≡ cell_word is_open }
{
    if is_open { b"open" } else { b"closed" }
}

// Whether a cell is open.
fn put_open<W: Sink>(sink: &mut W, is_open: bool) -> Result<(), WriteFailed>
    ensures { Puts W.held W.broken sink.old sink.new result (reply_text (Reply.Open is_open)) }
{
    put_line(sink, b"cell", &[Word::Text(cell_word(is_open))])
}

// The agents that stand in a cell.
fn put_standing<W: Sink>(sink: &mut W, agents: &List<Agent>) -> Result<(), WriteFailed>
    ensures { Puts W.held W.broken sink.old sink.new result (standing_line agents.now) }
{
    let items = agents.items();
    let words = [Word::Number(items.len() as u64)];
    put_listing(sink, b"at", &words, items)
}

/// Puts a version, and a report.
///
/// # Errors
///
/// The sink failed, or took no byte: a prefix of the text went out.
#[tactic(auto, using(desk_report::proofs::Fronts::fronts))]
pub fn put_report<W: Sink>(sink: &mut W, version: u64, report: &Report) -> Result<(), WriteFailed>
    ensures ok { OnOk result (Appends (W.held sink.old) (W.held sink.new) (reported_text version report.now)) }
    ensures err { OnErr result (AppendsFront (W.held sink.old) (W.held sink.new) (reported_text version report.now)) }
    ensures broken { W.broken sink.new ≡ (W.broken sink.old || is_err result) }
{
    put_version(sink, version)?;
    write_report(report, sink)
}

// What a commit would change, which would make that version.
fn put_would<W: Sink>(sink: &mut W, version: u64, changes: &Changes) -> Result<(), WriteFailed>
    ensures { Puts W.held W.broken sink.old sink.new result (would_text version changes.now) }
{
    write_trial(changes, version, version.saturating_sub(1), sink)
}

// The reply.
pub(crate) fn put_reply<W: Sink>(sink: &mut W, reply: &Reply) -> Result<(), WriteFailed>
    ensures text { Puts W.held W.broken sink.old sink.new result (reply_text reply.now) }
    ensures listed { IsTrue (begins_as_listed reply.now) }
{
    match reply {
        Reply::Silent => Ok(()),
        Reply::Bad { line, why } => put_bad(sink, *line, *why),
        Reply::NoMemory => put_line(sink, b"refused", &[Word::Text(b"memory")]),
        Reply::Version(version) => put_version(sink, *version),
        Reply::Base(version) => put_line(sink, b"base", &[Word::Number(*version)]),
        Reply::Kept => put_line(sink, b"kept", &[]),
        Reply::Cancelled => put_line(sink, b"cancelled", &[]),
        Reply::Refused(refusal) => put_refused(sink, *refusal),
        Reply::Would(version, changes) => put_would(sink, *version, changes),
        Reply::Changed(version, since, changes) => write_changes(changes, *version, *since, sink),
        Reply::NotTold(fault) => put_not_told(sink, *fault),
        Reply::Shown(reading) => put_report(sink, reading.version, &reading.report),
        Reply::Far(distance) => put_line(sink, b"distance", &[Word::given(*distance)]),
        Reply::NotAsked(fault) => put_not_asked(sink, *fault),
        Reply::Solves(is_so) => put_line(sink, b"solves", &[Word::Answer(*is_so)]),
        Reply::Planned(agent, row) => put_plan(sink, *agent, row),
        Reply::Open(is_open) => put_open(sink, *is_open),
        Reply::Standing(agents) => put_standing(sink, agents),
    }
}

/// Whether an answer that begins with the word takes its line. Any other answer is empty, or begins
/// with `refused` or `bad`.
pub fn is_acceptance(word: &[u8]) -> bool
    ensures { result ≡ is_acceptance word.now }
{
    word == b"version".as_slice()
        || word == b"base".as_slice()
        || word == b"kept".as_slice()
        || word == b"cancelled".as_slice()
        || word == b"would".as_slice()
        || word == b"distance".as_slice()
        || word == b"solves".as_slice()
        || word == b"plan".as_slice()
        || word == b"cell".as_slice()
        || word == b"at".as_slice()
}
