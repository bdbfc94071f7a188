ghost use Rattle.std.specs.Prelude.{◌≡◌, ◌↔◌, ℕ, Option, Some, None, OnOk, Contains, []};
ghost use Rattle.where_index.specs.declared.trails.Hop.{Hop};
ghost use Rattle.where_index.specs.declared.moves.Move.{Move};
ghost use Rattle.where_index.specs.Changes.{HasSpots};
ghost use Rattle.where_index.specs.Crowds.{Moves, IsBeside, AddsStep};
ghost use Rattle.where_index.specs.Moves.{AreByAgent};
ghost use Rattle.where_index.specs.Traffic.{HasTraffic, ChangesLeg};

use crate::crowds::Crowds;
use crate::flows::Flows;
use crate::moves::Move;
use crate::spot_sets::Spot;
use crate::spots::Spots;
use crate::trails::Hop;
use grid_cells::{Agent, Cell, OutOfMemory};
use std::alloc::Global;
use std::slice;

/// Where agents are at each time and one step later, and from when on they rest: by cell, the moves of
/// crowds once more as lists, and how many go each way.
#[derive(Drop)]
pub(crate) struct Traffic {
    pub stands: Spots,
    pub tails: Spots,
    pub crowds: Crowds,
    pub flows: Flows,
}

impl Traffic {
    /// Nobody is anywhere.
    pub(crate) fn new(alloc: Global) -> Traffic
        ensures legs { HasTraffic result (λ _ _. None) }
        ensures tails { result.tails ≡ [] }
    {
        Traffic {
            stands: Spots::new(alloc),
            tails: Spots::new(alloc),
            crowds: Crowds::new(alloc),
            flows: Flows::new(alloc),
        }
    }

    /// The moves out of the cell in the step that begins at the time, by agent.
    pub(crate) fn movers(&self, cell: Cell, time: u32) -> &[Move]
        ensures all { (f : ℕ → ℕ → Option Hop) → HasTraffic self.now f → (m : Move) → Contains result.now m ↔ Moves f cell time m }
        ensures by_agent { AreByAgent result.now }
    {
        if let Some(moves) = self.crowds.at(cell, time) {
            return moves;
        }
        match self.stands.mover(cell, time) {
            Some(step) => slice::from_ref(step),
            None => &[],
        }
    }

    // One of the moves out of the cell in the step, if there is any.
    fn beside(&self, cell: Cell, time: u32) -> Option<Move>
        ensures { (f : ℕ → ℕ → Option Hop) → HasSpots self.now.stands f → IsBeside f cell time result }
    {
        match self.stands.mover(cell, time) {
            Some(step) => Some(*step),
            None => None,
        }
    }

    /// Adds where the agent goes in that step, where nothing is known of it.
    pub(crate) fn add(&mut self, agent: Agent, time: u32, leg: Hop) -> Result<(), OutOfMemory>
        ensures set { OnOk result (ChangesLeg self.old self.new agent time None (Some leg)) }
        ensures tails { self.new.tails ≡ self.old.tails }
    {
        let (cell, to) = (leg.from, leg.to);
        let beside = self.beside(cell, time);
        self.flows.add(agent, time, &leg)?;
        crowd(&mut self.crowds, cell, time, beside, Move { agent, to })?;
        let step = Move { agent, to };
        self.stands.add(cell, Spot { time, step })
    }

    /// Takes out where the agent goes in that step.
    pub(crate) fn lose(&mut self, agent: Agent, time: u32, leg: Hop)
        ensures set { ChangesLeg self.old self.new agent time (Some leg) None }
        ensures tails { self.new.tails ≡ self.old.tails }
    {
        let (cell, to) = (leg.from, leg.to);
        let step = Move { agent, to };
        self.flows.lose(agent, time, &leg);
        self.stands.lose(cell, &Spot { time, step });
        self.crowds.leave(cell, time, agent);
    }
}

// Keeps the step with the others out of its cell then, if it is a move, and one of them is told.
fn crowd(
    crowds: &mut Crowds,
    cell: Cell,
    time: u32,
    beside: Option<Move>,
    step: Move,
) -> Result<(), OutOfMemory>
    ensures { OnOk result (AddsStep crowds.old crowds.new cell time beside step) }
{
    if step.to == cell {
        return Ok(());
    }
    crowds.join(cell, time, beside, step)
}
