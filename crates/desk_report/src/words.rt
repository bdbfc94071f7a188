//! Words and lines of them, put into a sink. Nothing here takes memory, and after a failure a
//! prefix of the text went out.
ghost use Rattle.std.specs.Prelude.{◌≡◌, ◌∷◌, map, OnOk, OnErr, is_err, ◌||◌};
ghost use Rattle.std.specs.List.{flat_map};
ghost use Rattle.std.specs.Io.KnownBytes.{Appends};
ghost use Rattle.desk_report.specs.Bytes.{AppendsFront};
ghost use Rattle.desk_report.specs.LineText.{line_text};
ghost use Rattle.desk_report.specs.Words.{word_text};

use crate::bytes::{Sink, WriteFailed, put_all};
use crate::values::{put_answer, put_cell, put_given, put_number};
use grid_cells::{Agent, Cell, Step};

/// A word of a line. All but a text are made of letters, digits and a comma, with no space.
#[derive(Clone, Copy)]
pub enum Word<'a> {
    /// These letters, as they are.
    Text(&'a [u8]),
    /// A number in decimal digits, with no leading zeros.
    Number(u64),
    /// A number, or `none` where it is not given.
    Given(Option<u64>),
    /// `yes` or `no`.
    Answer(bool),
    /// A cell, as its column, a comma and its row.
    At(Cell),
}

impl<'a> Word<'a> {
    /// The agent's number.
    pub fn agent(agent: Agent) -> Word<'a>
        ensures { result ≡ Word.Number agent }
    {
        Word::Number(u64::from(agent.number()))
    }

    /// The number, or `none` where it is not given.
    pub fn given(number: Option<u32>) -> Word<'a>
        ensures { result ≡ Word.Given number }
    {
        Word::Given(number.map(u64::from))
    }

    /// The time, in steps.
    pub fn time(time: Step) -> Word<'a>
        ensures { result ≡ Word.Number time }
    {
        Word::Number(u64::from(time.number()))
    }
}

/// Puts a word.
pub fn put_word<W: Sink>(sink: &mut W, word: &Word) -> Result<(), WriteFailed>
    ensures ok { OnOk result (Appends (W.held sink.old) (W.held sink.new) (word_text word.now)) }
    ensures err { OnErr result (AppendsFront (W.held sink.old) (W.held sink.new) (word_text word.now)) }
    ensures broken { W.broken sink.new ≡ (W.broken sink.old || is_err result) }
{
    match word {
        Word::Text(letters) => put_all(sink, letters),
        Word::Number(number) => put_number(sink, *number),
        Word::Given(number) => put_given(sink, *number),
        Word::Answer(yes) => put_answer(sink, *yes),
        Word::At(cell) => put_cell(sink, *cell),
    }
}

/// Puts a space and a word.
pub fn put_next<W: Sink>(sink: &mut W, word: &Word) -> Result<(), WriteFailed>
    ensures ok { OnOk result (Appends (W.held sink.old) (W.held sink.new) (32 ∷ word_text word.now)) }
    ensures err { OnErr result (AppendsFront (W.held sink.old) (W.held sink.new) (32 ∷ word_text word.now)) }
    ensures broken { W.broken sink.new ≡ (W.broken sink.old || is_err result) }
{
    put_all(sink, b" ")?;
    put_word(sink, word)
}

/// Puts the words, each after a space.
#[tactic(auto, using(crate::proofs::Fronts::fronts))]
pub fn put_more<W: Sink>(sink: &mut W, words: &[Word]) -> Result<(), WriteFailed>
    ensures ok { OnOk result (Appends (W.held sink.old) (W.held sink.new) (flat_map (λ word. 32 ∷ word_text word) words.now)) }
    ensures err { OnErr result (AppendsFront (W.held sink.old) (W.held sink.new) (flat_map (λ word. 32 ∷ word_text word) words.now)) }
    ensures broken { W.broken sink.new ≡ (W.broken sink.old || is_err result) }
{
    for word in words {
        put_next(sink, word)?;
    }
    Ok(())
}

/// Puts a line: the words with one space between each two, and a line feed.
#[tactic(auto, using(crate::proofs::Fronts::fronts))]
pub fn put_line<W: Sink>(sink: &mut W, first: &[u8], others: &[Word]) -> Result<(), WriteFailed>
    ensures ok { OnOk result (Appends (W.held sink.old) (W.held sink.new) (line_text (first.now ∷ map word_text others.now))) }
    ensures err { OnErr result (AppendsFront (W.held sink.old) (W.held sink.new) (line_text (first.now ∷ map word_text others.now))) }
    ensures broken { W.broken sink.new ≡ (W.broken sink.old || is_err result) }
{
    put_all(sink, first)?;
    put_more(sink, others)?;
    put_all(sink, b"\n")
}
