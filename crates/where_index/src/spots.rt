ghost use Rattle.std.specs.Prelude.{◌≡◌, ◌↔◌, [], OnOk, OnErr, IfSome, IfNone, IsTrue};
ghost use Rattle.std.specs.Bool.{OnTrue};
ghost use Rattle.where_index.specs.declared.moves.Move.{Move};
ghost use Rattle.where_index.specs.Spots.{AreFrom, AreRising, HasAt, IsMover};
ghost use Rattle.where_index.specs.ByCell.{spots_at, AreWithin, GainsAt, LosesAt, HaveSame};

use crate::moves::Move;
use crate::spot_sets::{Spot, SpotSet};
use grid_cells::{Agent, Cell, OutOfMemory};
use std::alloc::Global;
use std::collections::HashMap;
use std::collections::btree_set::Range;
use std::marker::Model;

/// The spots of each cell. What is asked of a cell costs what follows the number of spots there.
#[derive(Drop)]
pub(crate) struct Spots {
    alloc: Global,
    none: SpotSet,
    sets: HashMap<Cell, SpotSet>,
}

impl Model for Spots {
    ghost use Rattle.std.specs.Prelude.{◌≡◌, []};
    ghost use Rattle.where_index.specs.ByCell.{ByCell, AreWithin};

    ghost Value = { ByCell };

    ghost view = { λ s. s.sets.entries };

    ghost invariant = { λ s. (s.none ≡ []) × AreWithin s.sets.entries };
}

impl Spots {
    /// No spots.
    pub(crate) fn new(alloc: Global) -> Spots
        ensures { result ≡ [] }
    {
        Spots {
            alloc,
            none: SpotSet::new(alloc),
            sets: HashMap::new(alloc),
        }
    }

    /// Adds the spot to those at the cell.
    ///
    /// # Errors
    ///
    /// Want of memory.
    pub(crate) fn add(&mut self, cell: Cell, spot: Spot) -> Result<(), OutOfMemory>
        ensures { OnOk result (GainsAt self.old self.new cell spot) }
    {
        let step = spot.step;
        let _number = step.agent.number();
        add_in(&mut self.sets, self.alloc, cell, spot)?;
        Ok(())
    }

    /// Takes the spot out of those at the cell, if it is there.
    pub(crate) fn lose(&mut self, cell: Cell, spot: &Spot)
        ensures { LosesAt self.old self.new cell spot.now }
    {
        if lose_in(&mut self.sets, cell, spot) {
            drop_set(&mut self.sets, cell);
        }
    }

    /// Whether the agent is at the cell at the time.
    pub(crate) fn has(&self, cell: Cell, time: u32, agent: Agent) -> bool
        ensures { IsTrue result ↔ HasAt (spots_at self.now cell) time agent }
    {
        set_at(&self.sets, &self.none, cell).has(time, agent)
    }

    /// The spots are of agents that have a number.
    pub(crate) fn are_within(&self)
        ensures { AreWithin self.now }
    {
        let _sets = &self.sets;
    }

    /// The spots at the cell from one time on, by time, then agent.
    pub(crate) fn from(&self, cell: Cell, time: u32) -> Range<'_, Spot>
        ensures all { AreFrom (spots_at self.now cell) time result }
        ensures rising { AreRising result }
    {
        set_at(&self.sets, &self.none, cell).from(time)
    }

    /// A step out of the cell at the time, if any agent moves out of it.
    pub(crate) fn mover(&self, cell: Cell, time: u32) -> Option<&Move>
        ensures some { IfSome result (λ step. IsMover (spots_at self.now cell) cell time step.now) }
        ensures none { IfNone result ((step : Move) → IsMover (spots_at self.now cell) cell time step → ⊥) }
    {
        for spot in self.from(cell, time) {
            if spot.time != time {
                return None;
            }
            if spot.step.to != cell {
                return Some(&spot.step);
            }
        }
        None
    }
}

// The spots at the cell, or none.
fn set_at<'a>(sets: &'a HashMap<Cell, SpotSet>, none: &'a SpotSet, cell: Cell) -> &'a SpotSet
    requires { none.now ≡ [] }
    ensures { result.now ≡ spots_at sets.now.entries cell }
{
    sets.get(&cell).unwrap_or(none)
}

// Adds the spot to those at the cell.
fn add_in(
    sets: &mut HashMap<Cell, SpotSet>,
    alloc: Global,
    cell: Cell,
    spot: Spot,
) -> Result<(), OutOfMemory>
    ensures gains { OnOk result (GainsAt sets.old.entries sets.new.entries cell spot) }
    ensures refused { OnErr result (HaveSame sets.old.entries sets.new.entries) }
{
    if let Some(set) = sets.get_mut(&cell) {
        return set.add(spot);
    }
    let mut set = SpotSet::new(alloc);
    set.add(spot)?;
    sets.insert(cell, set)?;
    Ok(())
}

// Takes the spot out of those at the cell, and answers whether none is left there.
fn lose_in(sets: &mut HashMap<Cell, SpotSet>, cell: Cell, spot: &Spot) -> bool
    ensures loses { LosesAt sets.old.entries sets.new.entries cell spot.now }
    ensures empty { OnTrue result (spots_at sets.new.entries cell ≡ []) }
{
    match sets.get_mut(&cell) {
        Some(set) => set.lose(spot),
        None => false,
    }
}

// Takes an empty set out.
fn drop_set(sets: &mut HashMap<Cell, SpotSet>, cell: Cell)
    requires { spots_at sets.old.entries cell ≡ [] }
    ensures { HaveSame sets.old.entries sets.new.entries }
{
    let _ = sets.remove(&cell);
}
