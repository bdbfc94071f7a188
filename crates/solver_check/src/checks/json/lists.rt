//! Lists of a JSON text.
ghost use Rattle.std.specs.Prelude.{◌≡◌, ◌∷◌, ℕ, List, OnOk, OnErr, is_err, ◌||◌};
ghost use Rattle.std.specs.List.{flat_map};
ghost use Rattle.std.specs.Io.KnownBytes.{Appends};
ghost use Rattle.desk_report.specs.Bytes.{AppendsFront, Puts};
ghost use Rattle.desk_report.specs.Words.{word_text};
ghost use Rattle.solver_check.specs.JsonTexts.{items_json, list_json};

use desk_report::{Sink, Word, WriteFailed, put_all, put_word};

/// What a JSON text lists.
pub(crate) trait Told {
    /// Its text.
    ghost json: { Self → List ℕ };

    /// Puts its text.
    fn put_json<W: Sink>(&self, sink: &mut W) -> Result<(), WriteFailed>
        ensures { Puts W.held W.broken sink.old sink.new result (json self.now) };
}

/// Puts the words, with nothing between them.
#[tactic(auto, using(desk_report::proofs::Fronts::fronts))]
pub(crate) fn put_words<W: Sink>(sink: &mut W, words: &[Word]) -> Result<(), WriteFailed>
    ensures ok { OnOk result (Appends (W.held sink.old) (W.held sink.new) (flat_map word_text words.now)) }
    ensures err { OnErr result (AppendsFront (W.held sink.old) (W.held sink.new) (flat_map word_text words.now)) }
    ensures broken { W.broken sink.new ≡ (W.broken sink.old || is_err result) }
{
    for word in words {
        put_word(sink, word)?;
    }
    Ok(())
}

// A comma, and one more item.
#[tactic(auto, using(desk_report::proofs::Fronts::fronts))]
fn put_next<W: Sink, T: Told>(sink: &mut W, item: &T) -> Result<(), WriteFailed>
    ensures ok { OnOk result (Appends (W.held sink.old) (W.held sink.new) (44 ∷ T.json item.now)) }
    ensures err { OnErr result (AppendsFront (W.held sink.old) (W.held sink.new) (44 ∷ T.json item.now)) }
    ensures broken { W.broken sink.new ≡ (W.broken sink.old || is_err result) }
{
    put_all(sink, b",")?;
    item.put_json(sink)
}

// The items, each behind a comma.
#[tactic(auto, using(desk_report::proofs::Fronts::fronts))]
fn put_more<W: Sink, T: Told>(sink: &mut W, items: &[T]) -> Result<(), WriteFailed>
    ensures ok { OnOk result (Appends (W.held sink.old) (W.held sink.new) (flat_map (λ item. 44 ∷ T.json item) items.now)) }
    ensures err { OnErr result (AppendsFront (W.held sink.old) (W.held sink.new) (flat_map (λ item. 44 ∷ T.json item) items.now)) }
    ensures broken { W.broken sink.new ≡ (W.broken sink.old || is_err result) }
{
    for item in items {
        put_next(sink, item)?;
    }
    Ok(())
}

/// Puts the items, with a comma between each two.
#[tactic(auto, using(desk_report::proofs::Fronts::fronts))]
pub(crate) fn put_items<W: Sink, T: Told>(sink: &mut W, items: &[T]) -> Result<(), WriteFailed>
    ensures ok { OnOk result (Appends (W.held sink.old) (W.held sink.new) (items_json T.json items.now)) }
    ensures err { OnErr result (AppendsFront (W.held sink.old) (W.held sink.new) (items_json T.json items.now)) }
    ensures broken { W.broken sink.new ≡ (W.broken sink.old || is_err result) }
{
    match items {
        [] => Ok(()),
        [first, others @ ..] => {
            first.put_json(sink)?;
            put_more(sink, others)
        }
    }
}

/// Puts what stands before a list, and the list.
#[tactic(auto, using(desk_report::proofs::Fronts::fronts))]
pub(crate) fn put_list<W: Sink, T: Told>(
    sink: &mut W,
    front: &[u8],
    items: &[T],
) -> Result<(), WriteFailed>
    ensures ok { OnOk result (Appends (W.held sink.old) (W.held sink.new) (list_json front.now T.json items.now)) }
    ensures err { OnErr result (AppendsFront (W.held sink.old) (W.held sink.new) (list_json front.now T.json items.now)) }
    ensures broken { W.broken sink.new ≡ (W.broken sink.old || is_err result) }
{
    put_all(sink, front)?;
    put_items(sink, items)?;
    put_all(sink, b"]")
}
