//! What a journal is written of, one after another. Nothing here takes memory, and after a failure
//! a prefix of the text went out.
ghost use Rattle.std.specs.Prelude.{◌≡◌, ℕ, List, All, OnOk, OnErr, is_err, ◌||◌};
ghost use Rattle.std.specs.List.{flat_map};
ghost use Rattle.std.specs.Io.KnownBytes.{Appends};
ghost use Rattle.desk_report.specs.Bytes.{AppendsFront};

use desk_report::{Sink, WriteFailed};

/// What has a text in a journal.
pub(crate) trait Written {
    /// The text.
    ghost text: { Self → List ℕ };

    /// It can stand in a journal.
    ghost lawful: { Self → Type 0 };

    /// Puts the text.
    fn put_into<W: Sink>(&self, sink: &mut W) -> Result<(), WriteFailed>
        ensures ok { OnOk result (Appends (W.held sink.old) (W.held sink.new) (text self.now)) }
        ensures err { OnErr result (AppendsFront (W.held sink.old) (W.held sink.new) (text self.now)) }
        ensures broken { W.broken sink.new ≡ (W.broken sink.old || is_err result) }
        ensures lawful { OnOk result (lawful self.now) };
}

/// Puts the text of each.
#[tactic(auto, using(desk_report::proofs::Fronts::fronts))]
pub(crate) fn put_each<W: Sink, T: Written>(sink: &mut W, list: &[T]) -> Result<(), WriteFailed>
    ensures ok { OnOk result (Appends (W.held sink.old) (W.held sink.new) (flat_map T.text list.now)) }
    ensures err { OnErr result (AppendsFront (W.held sink.old) (W.held sink.new) (flat_map T.text list.now)) }
    ensures broken { W.broken sink.new ≡ (W.broken sink.old || is_err result) }
    ensures lawful { OnOk result (All T.lawful list.now) }
{
    for item in list {
        item.put_into(sink)?;
    }
    Ok(())
}
