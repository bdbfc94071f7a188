//! Refusals, as words and as lines.
ghost use Rattle.std.specs.Prelude.{◌≡◌, ◌∷◌, ◌++◌, ◌||◌, [], codes, decimal, is_err, map, OnErr, OnOk};
ghost use Rattle.std.specs.List.{join_with_byte};
ghost use Rattle.std.specs.Io.KnownBytes.{Appends};
ghost use Rattle.desk_report.specs.Bytes.{AppendsFront, Puts};
ghost use Rattle.desk_report.specs.Words.{word_text};
ghost use Rattle.session_protocol.specs.RefusalText.{asked_words, fault_word, fault_words, refusal_text, refusal_words, refused_line};
ghost use Rattle.session_protocol.specs.RefusalText.{since_words, thing_words};

use desk_commits::{AskFault, Refusal, SinceFault};
use desk_report::{Sink, Word, WriteFailed, put_all, put_line, put_more};
use scene_edits::{EditFault, Thing};

/// Puts the words, with one space between each two.
pub(crate) fn put_words<W: Sink>(
    sink: &mut W,
    first: &[u8],
    others: &[Word],
) -> Result<(), WriteFailed>
    ensures ok { OnOk result (Appends (W.held sink.old) (W.held sink.new) (join_with_byte 32 (first.now ∷ map word_text others.now))) }
    ensures err { OnErr result (AppendsFront (W.held sink.old) (W.held sink.new) (join_with_byte 32 (first.now ∷ map word_text others.now))) }
    ensures broken { W.broken sink.new ≡ (W.broken sink.old || is_err result) }
{
    put_all(sink, first)?;
    put_more(sink, others)
}

// A stale commit: the version, the thing that was named since, and the entry that names it.
fn put_stale<W: Sink>(sink: &mut W, now: u64, thing: Thing, at: u64) -> Result<(), WriteFailed>
    ensures { Puts W.held W.broken sink.old sink.new result (join_with_byte 32 (codes "stale" ∷ decimal now ∷ (thing_words thing ++ decimal at ∷ []))) }
{
    let (now, at) = (Word::Number(now), Word::Number(at));
    match thing {
        Thing::Agent(agent) => {
            let words = [now, Word::Text(b"agent"), Word::agent(agent), at];
            put_words(sink, b"stale", &words)
        }
        Thing::Cell(cell) => {
            let words = [now, Word::Text(b"cell"), Word::At(cell), at];
            put_words(sink, b"stale", &words)
        }
        Thing::Map => {
            let words = [now, Word::Text(b"map"), at];
            put_words(sink, b"stale", &words)
        }
    }
}

/// The word for a fault of an edit. The index of a cell that is no step follows it in a session.
pub fn fault_word(why: EditFault) -> &'static str
    ensures { result.now ≡ fault_word why }
{
    match why {
        EditFault::UnknownAgent => "unknown-agent",
        EditFault::AgentTaken => "agent-taken",
        EditFault::TooManyAgents => "too-many-agents",
        EditFault::OutOfMap => "out-of-map",
        EditFault::EmptyPath => "empty-path",
        EditFault::NotFromStart => "not-from-start",
        EditFault::NoSuchTime => "no-such-time",
        EditFault::NotAStep { .. } => "not-a-step",
        EditFault::TooLong => "too-long",
    }
}

// A fault in the edit of that index.
fn put_faulty<W: Sink>(sink: &mut W, index: u64, why: EditFault) -> Result<(), WriteFailed>
    ensures { Puts W.held W.broken sink.old sink.new result (join_with_byte 32 (codes "faulty" ∷ decimal index ∷ fault_words why)) }
{
    let (index, name) = (Word::Number(index), Word::Text(fault_word(why).as_bytes()));
    match why {
        EditFault::NotAStep { at } => {
            let words = [index, name, Word::Number(u64::from(at))];
            put_words(sink, b"faulty", &words)
        }
        _ => put_words(sink, b"faulty", &[index, name]),
    }
}

/// Puts why a commit is refused, in the words of a session, with one space between each two.
///
/// # Errors
///
/// The sink failed, or took no byte: a prefix of the words went out.
pub fn put_refusal<W: Sink>(sink: &mut W, refusal: Refusal) -> Result<(), WriteFailed>
    ensures { Puts W.held W.broken sink.old sink.new result (refusal_text refusal) }
{
    match refusal {
        Refusal::JournalFull { limit } => {
            put_words(sink, b"journal-full", &[Word::Number(u64::from(limit))])
        }
        Refusal::Ahead { now } => put_words(sink, b"ahead", &[Word::Number(now)]),
        Refusal::NoEdits => put_words(sink, b"no-edits", &[]),
        Refusal::Stale { now, thing, at } => put_stale(sink, now, thing, at),
        Refusal::Faulty { index, why } => put_faulty(sink, index as u64, why),
        Refusal::OutOfMemory => put_words(sink, b"memory", &[]),
    }
}

/// Puts a refusal of a commit as a line of its own.
#[tactic(auto, using(desk_report::proofs::Fronts::fronts))]
pub(crate) fn put_refused<W: Sink>(sink: &mut W, refusal: Refusal) -> Result<(), WriteFailed>
    ensures ok { OnOk result (Appends (W.held sink.old) (W.held sink.new) (refused_line (refusal_words refusal))) }
    ensures err { OnErr result (AppendsFront (W.held sink.old) (W.held sink.new) (refused_line (refusal_words refusal))) }
    ensures broken { W.broken sink.new ≡ (W.broken sink.old || is_err result) }
{
    put_all(sink, b"refused ")?;
    put_refusal(sink, refusal)?;
    put_all(sink, b"\n")
}

/// Puts why a question isn't answered, as a line of its own.
pub(crate) fn put_not_asked<W: Sink>(sink: &mut W, fault: AskFault) -> Result<(), WriteFailed>
    ensures { Puts W.held W.broken sink.old sink.new result (refused_line (asked_words fault)) }
{
    match fault {
        AskFault::UnknownAgent => put_line(sink, b"refused", &[Word::Text(b"unknown-agent")]),
        AskFault::OutOfMap => put_line(sink, b"refused", &[Word::Text(b"out-of-map")]),
        AskFault::OutOfMemory => put_line(sink, b"refused", &[Word::Text(b"memory")]),
    }
}

/// Puts why it isn't told what changed, as a line of its own.
pub(crate) fn put_not_told<W: Sink>(sink: &mut W, fault: SinceFault) -> Result<(), WriteFailed>
    ensures { Puts W.held W.broken sink.old sink.new result (refused_line (since_words fault)) }
{
    match fault {
        SinceFault::Ahead { now } => {
            put_line(sink, b"refused", &[Word::Text(b"ahead"), Word::Number(now)])
        }
        SinceFault::Forgotten { first } => put_line(
            sink,
            b"refused",
            &[Word::Text(b"forgotten"), Word::Number(first)],
        ),
        SinceFault::OutOfMemory => put_line(sink, b"refused", &[Word::Text(b"memory")]),
    }
}
