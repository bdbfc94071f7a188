ghost use Rattle.std.specs.Prelude.{◌≡◌, ◌⊎◌, ◌↔◌, ◌≢◌, ℕ, ◌+◌, ◌<◌, Option, Some, None, IfSome, IfNone, IsSome, IsTrue, Contains, length, slice_index_or};
ghost use Rattle.grid_cells.specs.Cell.{Point};
ghost use Rattle.where_index.specs.declared.moves.Move.{Move};
ghost use Rattle.where_index.specs.Index.{StandsFor};
ghost use Rattle.conflict_ledger.specs.Sight.{AreOfTwo, IsMoverIn, IsSoleIn, Sees};

use crate::sight::Sight;
use grid_cells::{Agent, Cell, Step};
use mapf_rules::Movers;
use where_index::{Move, WhereIndex};

// All that an index shows.
#[derive(Clone, Copy)]
pub(crate) struct Whole<'a> {
    pub index: &'a WhereIndex,
}

impl Movers for Whole<'_> {
    ghost tells = { λ whole fleet. StandsFor whole.index.now fleet };

    fn sole_mover(&self, time: u32, cell: Cell) -> Option<(Agent, Cell)> {
        let moves = self.index.movers(Step::new(time), cell);
        if moves.is_empty() {
            return None;
        }
        let first = moves[0];
        sole_of(moves, first.agent, Some(first.to))
    }
}

impl Movers for Sight<'_> {
    ghost tells = { λ sight fleet. Sees sight fleet };

    fn sole_mover(&self, time: u32, cell: Cell) -> Option<(Agent, Cell)> {
        let own = self.own_move(time, cell);
        sole_of(self.index.movers(Step::new(time), cell), self.agent, own)
    }
}

// The one move, where the agent's is its own, if any, and the others' are in the list.
fn sole_of(moves: &[Move], agent: Agent, own: Option<Cell>) -> Option<(Agent, Cell)>
    ensures one { IfSome result (λ mover. IsMoverIn moves.now agent own mover.0 mover.1) }
    ensures only { IfSome result (λ mover. IsSoleIn moves.now agent own mover.0) }
    ensures found { (mover : ℕ) (to : Point) → IsMoverIn moves.now agent own mover to → IsSoleIn moves.now agent own mover → IsSome result }
{
    match own {
        Some(to) => sole_with(moves, agent, to),
        None => sole_without(moves, agent),
    }
}

fn sole_with(moves: &[Move], agent: Agent, to: Cell) -> Option<(Agent, Cell)>
    ensures one { IfSome result (λ mover. IsMoverIn moves.now agent (Some to) mover.0 mover.1) }
    ensures only { IfSome result (λ mover. IsSoleIn moves.now agent (Some to) mover.0) }
    ensures found { (mover : ℕ) (goal : Point) → IsMoverIn moves.now agent (Some to) mover goal → IsSoleIn moves.now agent (Some to) mover → IsSome result }
{
    match first_other(moves, agent) {
        Some(_) => None,
        None => Some((agent, to)),
    }
}

fn sole_without(moves: &[Move], agent: Agent) -> Option<(Agent, Cell)>
    ensures one { IfSome result (λ mover. IsMoverIn moves.now agent None mover.0 mover.1) }
    ensures only { IfSome result (λ mover. IsSoleIn moves.now agent None mover.0) }
    ensures found { (mover : ℕ) (goal : Point) → IsMoverIn moves.now agent None mover goal → IsSoleIn moves.now agent None mover → IsSome result }
{
    let mover = first_other(moves, agent)?;
    if no_third(moves, agent, mover.0) {
        Some(mover)
    } else {
        None
    }
}

// The first move in the list that is not the agent's.
fn first_other(moves: &[Move], agent: Agent) -> Option<(Agent, Cell)>
    ensures some { IfSome result (λ mover. (mover.0 ≢ agent) × Contains moves.now (record { agent = mover.0; to = mover.1 })) }
    ensures none { IfNone result ((k : ℕ) (d : Move) → k < length moves.now → (slice_index_or moves.now k d).agent ≡ agent) }
{
    for next in moves {
        if next.agent != agent {
            return Some((next.agent, next.to));
        }
    }
    None
}

// Whether each move in the list is of one of the two agents.
fn no_third(moves: &[Move], agent: Agent, mover: Agent) -> bool
    ensures { IsTrue result ↔ AreOfTwo moves.now agent mover }
{
    for next in moves {
        if next.agent != agent && next.agent != mover {
            return false;
        }
    }
    true
}
