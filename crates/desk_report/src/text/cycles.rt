ghost use Rattle.std.specs.Prelude.{◌≡◌, ◌∷◌, map, codes, decimal, OnOk, OnErr, is_err, ◌||◌};
ghost use Rattle.std.specs.List.{flat_map};
ghost use Rattle.std.specs.Io.KnownBytes.{Appends};
ghost use Rattle.desk_report.specs.Bytes.{AppendsFront};
ghost use Rattle.desk_report.specs.LineText.{line_text};

use crate::bytes::{Sink, WriteFailed, put_all};
use crate::words::{Word, put_next};
use grid_cells::{Agent, Step};

// The numbers of the agents, each after a space.
#[tactic(auto, using(crate::proofs::Fronts::fronts))]
fn put_ring<W: Sink>(sink: &mut W, ring: &[Agent]) -> Result<(), WriteFailed>
    ensures ok { OnOk result (Appends (W.held sink.old) (W.held sink.new) (flat_map (λ agent. 32 ∷ decimal agent) ring.now)) }
    ensures err { OnErr result (AppendsFront (W.held sink.old) (W.held sink.new) (flat_map (λ agent. 32 ∷ decimal agent) ring.now)) }
    ensures broken { W.broken sink.new ≡ (W.broken sink.old || is_err result) }
{
    for agent in ring {
        put_next(sink, &Word::agent(*agent))?;
    }
    Ok(())
}

// The line of a cycle: its time, and the agents in their order.
#[tactic(auto, using(crate::proofs::Fronts::fronts))]
pub(crate) fn put_cycle<W: Sink>(
    sink: &mut W,
    time: Step,
    ring: &[Agent],
) -> Result<(), WriteFailed>
    ensures ok { OnOk result (Appends (W.held sink.old) (W.held sink.new) (line_text (codes "cycle" ∷ decimal time ∷ map decimal ring.now))) }
    ensures err { OnErr result (AppendsFront (W.held sink.old) (W.held sink.new) (line_text (codes "cycle" ∷ decimal time ∷ map decimal ring.now))) }
    ensures broken { W.broken sink.new ≡ (W.broken sink.old || is_err result) }
{
    put_all(sink, b"cycle")?;
    put_next(sink, &Word::time(time))?;
    put_ring(sink, ring)?;
    put_all(sink, b"\n")
}
