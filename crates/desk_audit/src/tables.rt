//! Sightings of agents, filed under a cell and a number: each bucket is a chain of slots, the one
//! filed last first, so that a look-up goes over the slots of one bucket alone.
ghost use Rattle.std.specs.Prelude.{◌≡◌, ◌≢◌, ◌↔◌, IsTrue, ℕ, ◌<◌, ◌≤◌, IfOk, OnOk, Contains, length};
ghost use Rattle.desk_audit.specs.Filing.{bucket_of, IsFiled, Files, HasFiled, KeepsFiled};

use crate::links::Link;
use grid_cells::{Agent, Cell, OutOfMemory};
use std::alloc::Global;

/// An agent, and a time at which it is in a cell that is known.
#[derive(Clone, Copy)]
pub(crate) struct Pass {
    pub time: u32,
    pub agent: Agent,
}

/// What is filed under a cell and a number, and the slot that was filed before it in its bucket.
#[derive(Clone, Copy)]
pub(crate) struct Slot {
    pub cell: Cell,
    pub number: u32,
    pub pass: Pass,
    pub before: Link,
}

/// Slots in buckets, and the last slot of each bucket.
#[derive(Drop)]
pub(crate) struct Table {
    pub heads: Vec<Link>,
    pub slots: Vec<Slot>,
}

impl Slot {
    // Whether it is filed under the cell and the number.
    fn is_under(&self, cell: Cell, number: u32) -> bool
        ensures { IsTrue result ↔ ((self.now.cell ≡ cell) × (self.now.number ≡ number)) }
    {
        self.cell == cell && self.number == number
    }

    // Whether it is filed under the cell and the number, and is of another agent than that one.
    fn is_other(&self, cell: Cell, number: u32, agent: Agent) -> bool
        ensures { IsTrue result ↔ ((self.now.cell ≡ cell) × (self.now.number ≡ number) × (self.now.pass.agent ≢ agent)) }
    {
        self.cell == cell && self.number == number && self.pass.agent != agent
    }
}

// The bucket of the cell and the number, of that many. Cells of a row lie 769 apart and rows further
// than a row is long on most maps, so that places of paths of fewer steps meet only by the remainder.
#[tactic(auto, unfolding(crate::specs::Filing::bucket_of))]
pub(crate) fn bucket(many: usize, cell: Cell, number: u32) -> usize
    requires { 0 < many }
    ensures is { result ≡ bucket_of many cell number }
    ensures bound { result < many }
{
    let place = u64::from(cell.y()) * 196_613 + u64::from(cell.x()) * 769;
    ((place + u64::from(number)) % many as u64) as usize
}

impl Table {
    // A table of about that many buckets, with room for that many slots, in which nothing is filed.
    // The number of buckets is odd: with a power of two the cells of a column would meet in a few.
    pub(crate) fn new(alloc: Global, buckets: usize, room: usize) -> Result<Table, OutOfMemory>
        ensures { IfOk result IsFiled }
    {
        Ok(Table {
            heads: vec![in alloc; Link::NONE; buckets / 2 * 2 + 1]?,
            slots: Vec::with_capacity(alloc, room)?,
        })
    }

    // Files the agent, at the time, under the cell and the number. A table holds at most
    // `u32::MAX` slots, far more than a scene has cells on its paths.
    pub(crate) fn file(&mut self, cell: Cell, number: u32, pass: Pass) -> Result<(), OutOfMemory>
        requires { IsFiled self.old }
        ensures filed { OnOk result (IsFiled self.new) }
        ensures keeps { OnOk result (KeepsFiled self.old self.new) }
        ensures has { OnOk result (Files self.new cell number pass) }
    {
        let Ok(place) = u32::try_from(self.slots.len()) else {
            return Err(OutOfMemory);
        };
        let Some(link) = Link::to(place) else {
            return Err(OutOfMemory);
        };
        let bucket = bucket(self.heads.len(), cell, number);
        let before = self.heads[bucket];
        self.slots.push(Slot {
            cell,
            number,
            pass,
            before,
        })?;
        self.heads[bucket] = link;
        Ok(())
    }

    // Whether anything is filed under the cell and the number.
    pub(crate) fn has(&self, cell: Cell, number: u32) -> bool
        requires { IsFiled self.now }
        ensures { IsTrue result ↔ HasFiled self.now cell number }
    {
        let mut next = self.heads[bucket(self.heads.len(), cell, number)].place();
        while let Some(place) = next {
            let slot = &self.slots[place as usize];
            if slot.is_under(cell, number) {
                return true;
            }
            next = slot.before.place();
        }
        false
    }

    // Adds what is filed under the cell and the number, of other agents than that one.
    pub(crate) fn add_others(
        &self,
        found: &mut Vec<Pass>,
        cell: Cell,
        number: u32,
        agent: Agent,
    ) -> Result<(), OutOfMemory>
        requires { IsFiled self.now }
        ensures keeps { OnOk result ((pass : Pass) → Contains found.old.items pass → Contains found.new.items pass) }
        ensures has { OnOk result ((pass : Pass) → Files self.now cell number pass → pass.agent ≢ agent → Contains found.new.items pass) }
    {
        let mut next = self.heads[bucket(self.heads.len(), cell, number)].place();
        while let Some(place) = next {
            let slot = &self.slots[place as usize];
            if slot.is_other(cell, number, agent) {
                found.push(slot.pass)?;
            }
            next = slot.before.place();
        }
        Ok(())
    }
}
