//! What all drawings of an agent share: its colour, its pattern and its number.
#![tactic(auto, using(crate::proofs::Growth::growths))]

ghost use Rattle.std.specs.Prelude.{OnOk, ◌≡◌, ◌||◌, is_err};
ghost use Rattle.desk_pictures.specs.Growth.{Grows};

use crate::pieces::{Piece, Written, put_filled};
use desk_report::Sink;
use grid_cells::Agent;

// How many colours there are.
const COLOURS: u32 = 5;

// How many patterns of lines there are.
const PATTERNS: u32 = 4;

/// Puts the beginning of an agent's group: its colour, its pattern and its number.
pub(crate) fn put_group<W: Sink>(sink: &mut W, agent: Agent) -> Written
    ensures ok { OnOk result (Grows (W.held sink.old) (W.held sink.new)) }
    ensures broken { W.broken sink.new ≡ (W.broken sink.old || is_err result) }
{
    let number = agent.number();
    let pieces = [
        Piece::Count(number % COLOURS),
        Piece::Count(number / COLOURS % PATTERNS),
        Piece::Count(number),
    ];
    put_filled(sink, b"<g class='c~ d~'><title>agent ~</title>", &pieces)
}
