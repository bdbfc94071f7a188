//! Lines that end with a list, each item of it a word.
ghost use Rattle.std.specs.Prelude.{◌≡◌, ◌∷◌, ◌++◌, ◌||◌, OnErr, OnOk, ℕ, List, is_err, map};
ghost use Rattle.std.specs.List.{flat_map};
ghost use Rattle.std.specs.Io.KnownBytes.{Appends};
ghost use Rattle.desk_report.specs.Bytes.{AppendsFront};
ghost use Rattle.desk_report.specs.LineText.{line_text};
ghost use Rattle.desk_report.specs.Words.{word_text};

use crate::refusals::put_words;
use desk_report::{Sink, Word, WriteFailed, put_all, put_next};
use grid_cells::{Agent, Cell};

/// What a line may list.
pub(crate) trait Spelled {
    /// Its word.
    ghost word: { Self → List ℕ };

    /// The same, as it is put.
    fn word(&self) -> Word<'_>
        ensures { word_text result ≡ word self.now };
}

impl Spelled for Cell {
    ghost use Rattle.desk_report.specs.LineText.{cell_text};

    ghost word = { cell_text };

    fn word(&self) -> Word<'_> {
        Word::At(*self)
    }
}

impl Spelled for Agent {
    ghost use Rattle.std.specs.Prelude.{decimal};

    ghost word = { λ agent. decimal agent };

    fn word(&self) -> Word<'_> {
        Word::agent(*self)
    }
}

// The items, each after a space.
fn put_items<W: Sink, T: Spelled>(sink: &mut W, items: &[T]) -> Result<(), WriteFailed>
    ensures ok { OnOk result (Appends (W.held sink.old) (W.held sink.new) (flat_map (λ item. 32 ∷ T.word item) items.now)) }
    ensures err { OnErr result (AppendsFront (W.held sink.old) (W.held sink.new) (flat_map (λ item. 32 ∷ T.word item) items.now)) }
    ensures broken { W.broken sink.new ≡ (W.broken sink.old || is_err result) }
{
    for item in items {
        let word = item.word();
        put_next(sink, &word)?;
    }
    Ok(())
}

/// Puts a line: the words, and behind them the items, with one space between each two.
pub(crate) fn put_listing<W: Sink, T: Spelled>(
    sink: &mut W,
    first: &[u8],
    words: &[Word],
    items: &[T],
) -> Result<(), WriteFailed>
    ensures ok { OnOk result (Appends (W.held sink.old) (W.held sink.new) (line_text (first.now ∷ (map word_text words.now ++ map T.word items.now)))) }
    ensures err { OnErr result (AppendsFront (W.held sink.old) (W.held sink.new) (line_text (first.now ∷ (map word_text words.now ++ map T.word items.now)))) }
    ensures broken { W.broken sink.new ≡ (W.broken sink.old || is_err result) }
{
    put_words(sink, first, words)?;
    put_items(sink, items)?;
    put_all(sink, b"\n")
}
