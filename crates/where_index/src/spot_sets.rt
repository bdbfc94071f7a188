ghost use Rattle.std.specs.Prelude.{◌≡◌, ◌↔◌, [], OnOk, OnErr, IsTrue};
ghost use Rattle.std.specs.Bool.{OnTrue};
ghost use Rattle.grid_cells.specs.Cell.{point};
ghost use Rattle.where_index.specs.Spots.{spot, AreFrom, AreRising, HasAt};
ghost use Rattle.plan_table.specs.Sets.{Gains, Loses};

use crate::moves::Move;
use grid_cells::{Agent, Cell, OutOfMemory};
use std::alloc::Global;
use std::collections::BTreeSet;
use std::collections::btree_set::Range;
use std::marker::Model;

/// An agent that is in a cell at a time, and where it is one step later: in the same cell, if it
/// waits. Spots compare by time, agent and the cell that the agent goes to.
#[derive(Clone, Copy, PartialEq, Eq, PartialOrd, Ord)]
pub struct Spot {
    pub time: u32,
    pub step: Move,
}

/// The spots of one cell, in their order.
#[derive(Drop)]
pub(crate) struct SpotSet {
    spots: BTreeSet<Spot>,
}

impl Model for SpotSet {
    ghost use Rattle.std.specs.Prelude.{List};
    ghost use Rattle.where_index.specs.declared.spot_sets.Spot.{Spot};

    ghost Value = { List Spot };

    ghost view = { λ s. s.spots.keys };
}

impl SpotSet {
    /// No spots.
    pub(crate) fn new(alloc: Global) -> SpotSet
        ensures { result ≡ [] }
    {
        SpotSet {
            spots: BTreeSet::new(alloc),
        }
    }

    /// Adds the spot.
    pub(crate) fn add(&mut self, spot: Spot) -> Result<(), OutOfMemory>
        ensures gains { OnOk result (Gains self.old self.new spot) }
        ensures refused { OnErr result (self.new ≡ self.old) }
    {
        self.spots.insert(spot)?;
        Ok(())
    }

    /// Takes the spot out, if it is there, and answers whether none is left.
    pub(crate) fn lose(&mut self, spot: &Spot) -> bool
        ensures loses { Loses self.old self.new spot.now }
        ensures empty { OnTrue result (self.new ≡ []) }
    {
        self.spots.remove(spot);
        self.spots.is_empty()
    }

    /// Whether the agent is there at the time.
    pub(crate) fn has(&self, time: u32, agent: Agent) -> bool
        ensures { IsTrue result ↔ HasAt self.now time agent }
    {
        let low = spot_of(time, agent, least_cell());
        match self.spots.range(low..).next() {
            Some(first) => is_there(first, time, agent),
            None => false,
        }
    }

    /// The spots from that time on, in order.
    pub(crate) fn from(&self, time: u32) -> Range<'_, Spot>
        ensures all { AreFrom self.now time result }
        ensures rising { AreRising result }
    {
        self.spots
            .range(spot_of(time, Agent::LEAST, least_cell())..)
    }
}

// The agent at the time, on its way to a cell.
fn spot_of(time: u32, agent: Agent, to: Cell) -> Spot
    ensures { result ≡ spot time agent to }
{
    Spot {
        time,
        step: Move { agent, to },
    }
}

// Whether the one that was found is the agent's at that time.
fn is_there(found: &Spot, time: u32, agent: Agent) -> bool
    ensures { IsTrue result ↔ (found.now ≡ spot time agent found.now.step.to) }
{
    found.time == time && found.step.agent == agent
}

// The cell that no other comes before.
fn least_cell() -> Cell
    ensures { result ≡ point 0 0 }
{
    match Cell::new(0, 0) {
        Some(cell) => cell,
        None => unreachable!(),
    }
}
