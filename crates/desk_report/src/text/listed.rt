ghost use Rattle.std.specs.Prelude.{◌≡◌, ◌++◌, ℕ, List, length, OnOk, OnErr, is_err, ◌||◌};
ghost use Rattle.std.specs.List.{flat_map};
ghost use Rattle.std.specs.Io.KnownBytes.{Appends};
ghost use Rattle.desk_report.specs.Bytes.{AppendsFront, Puts};
ghost use Rattle.desk_report.specs.ReportText.{count_line};

use crate::bytes::{Sink, WriteFailed};
use crate::text::totals::put_count;
use grid_cells::List;

/// What a report lists, each in a line of its own.
pub(crate) trait Listed {
    /// The line.
    ghost line: { Self → List ℕ };

    /// Puts the line.
    fn put_into<W: Sink>(&self, sink: &mut W) -> Result<(), WriteFailed>
        ensures { Puts W.held W.broken sink.old sink.new result (line self.now) };
}

// The lines of what is listed.
#[tactic(auto, using(crate::proofs::Fronts::fronts))]
pub(crate) fn put_each<W: Sink, L: Listed>(sink: &mut W, list: &[L]) -> Result<(), WriteFailed>
    ensures ok { OnOk result (Appends (W.held sink.old) (W.held sink.new) (flat_map L.line list.now)) }
    ensures err { OnErr result (AppendsFront (W.held sink.old) (W.held sink.new) (flat_map L.line list.now)) }
    ensures broken { W.broken sink.new ≡ (W.broken sink.old || is_err result) }
{
    for item in list {
        item.put_into(sink)?;
    }
    Ok(())
}

/// Puts how many there are, after that word, and their lines.
#[tactic(auto, using(crate::proofs::Fronts::fronts))]
pub(crate) fn put_list<W: Sink, L: Listed>(
    sink: &mut W,
    name: &[u8],
    list: &List<L>,
) -> Result<(), WriteFailed>
    ensures ok { OnOk result (Appends (W.held sink.old) (W.held sink.new) (count_line name.now (length list.now) ++ flat_map L.line list.now)) }
    ensures err { OnErr result (AppendsFront (W.held sink.old) (W.held sink.new) (count_line name.now (length list.now) ++ flat_map L.line list.now)) }
    ensures broken { W.broken sink.new ≡ (W.broken sink.old || is_err result) }
{
    let items = list.items();
    put_count(sink, name, items.len())?;
    put_each(sink, items)
}
