ghost use Rattle.std.specs.Prelude.{◌≡◌, ◌↔◌, ℕ, List, Some, None, IfOk, IsTrue, length};
ghost use Rattle.plan_table.specs.Route.{Fleet};
ghost use Rattle.where_index.specs.Index.{StandsFor};
ghost use Rattle.mapf_rules.specs.ConflictList.{AreConflicts, IsListed};
ghost use Rattle.mapf_rules.specs.Cycles.{IsRingAt};
ghost use Rattle.conflict_ledger.specs.Kept.{HasEntries, HasKind, many_of};

mod tracks;

use crate::least::least_of;
use crate::movers::Whole;
use grid_cells::{Cell, List, OutOfMemory, Step};
use mapf_rules::{Conflict, Kind, Ring, ring_out_of};
use std::alloc::Global;
use std::collections::BTreeSet;
use std::marker::Model;
use where_index::WhereIndex;

/// The conflict entries of the fleet of an index, kept while agents come, go and change tracks.
pub struct ConflictLedger {
    alloc: Global,
    kept: BTreeSet<Conflict>,
}

impl Drop for ConflictLedger {
    fn drop(self) {
        let ConflictLedger {
            alloc: _,
            kept: _kept,
        } = self;
    }
}

impl Model for ConflictLedger {
    ghost use Rattle.std.specs.Prelude.{List};
    ghost use Rattle.mapf_rules.specs.declared.entries.Conflict.{Conflict};

    ghost Value = { List Conflict };

    ghost view = { λ l. l.kept.keys };
}

impl ConflictLedger {
    /// The ledger of no agents: it has no entries.
    pub fn new(alloc: Global) -> ConflictLedger
        ensures { HasEntries result (λ _. None) }
    {
        ConflictLedger {
            alloc,
            kept: BTreeSet::new(alloc),
        }
    }

    /// The entries, in their order: by kind, time, agents and cells.
    ///
    /// # Errors
    ///
    /// Want of memory.
    pub fn listed(&self) -> Result<List<Conflict>, OutOfMemory>
        ensures { IfOk result (λ entries. (fleet : Fleet) → HasEntries self.now fleet → AreConflicts fleet entries) }
    {
        let mut entries = Vec::new(self.alloc);
        for entry in self.kept.iter() {
            entries.push(entry.clone()?)?;
        }
        Ok(List::new(entries))
    }

    /// The ring at that step with a member that moves out of that cell, in the fleet of the index.
    ///
    /// # Errors
    ///
    /// Want of memory.
    pub fn ring_at(
        &self,
        step: Step,
        cell: Cell,
        index: &WhereIndex,
    ) -> Result<Option<Ring>, OutOfMemory>
        ensures { IfOk result (λ found. (fleet : Fleet) → StandsFor index.now fleet → (ring : List ℕ) → (found ≡ Some ring) ↔ IsRingAt fleet step cell ring) }
    {
        if step.number() >= index.horizon() {
            return Ok(None);
        }
        let found = ring_out_of(self.alloc, &Whole { index }, step.number(), cell)?;
        Ok(found)
    }

    /// How many entries it has.
    pub fn len(&self) -> usize
        ensures { result ≡ length self.now }
    {
        self.kept.len()
    }

    /// How many entries of that kind it has.
    pub fn count(&self, kind: Kind) -> u64
        ensures kept { result ≡ many_of kind self.now }
        ensures listed { (fleet : Fleet) (entries : List Conflict) → HasEntries self.now fleet → AreConflicts fleet entries → result ≡ many_of kind entries }
    {
        self.kept
            .iter()
            .filter(|entry| entry.kind() == kind)
            .count() as u64
    }

    /// Whether it has an entry of that kind. No other entry is looked at.
    pub fn has(&self, kind: Kind) -> bool
        ensures has { IsTrue result ↔ HasKind kind self.now }
        ensures once { IsListed self.now }
    {
        match self.kept.range(least_of(self.alloc, kind)..).next() {
            Some(entry) => entry.kind() == kind,
            None => false,
        }
    }
}
