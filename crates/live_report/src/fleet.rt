ghost use Rattle.std.specs.Prelude.{◌≡◌, ◌+◌, ℕ, List, min, Some, None, IfOk, IfNone};
ghost use Rattle.plan_table.specs.Path.{SamePlaces};
ghost use Rattle.plan_table.specs.Route.{Fleet, route_of, tracks_of};
ghost use Rattle.plan_table.specs.declared.plans.Row.{Row};
ghost use Rattle.plan_table.specs.declared.tracks.Mode.{Mode};
ghost use Rattle.where_index.specs.Records.{nothing, records_apart};
ghost use Rattle.mapf_rules.specs.ConflictList.{AreConflicts};
ghost use Rattle.cost_ledger.specs.Through.{AreThrough};
ghost use Rattle.change_history.specs.Moved.{Follows};
ghost use Rattle.scene_edits.specs.Since.{IsSince};
ghost use Rattle.live_report.specs.Fleet.{AreOfFleet, Reroutes};

use crate::visitors::visits_to;
use change_history::Moves;
use conflict_ledger::ConflictLedger;
use grid_cells::{Agent, Cell, List, OutOfMemory, Step};
use mapf_rules::{Conflict, Visit};
use plan_table::Track;
use scene_edits::first_difference;
use std::alloc::Global;
use std::marker::Model;
use where_index::WhereIndex;

/// Where the agents of a fleet stand and move, and the conflict entries of their tracks, kept
/// together while tracks come, go and change.
#[derive(Drop)]
pub struct FleetBooks {
    pub(crate) index: WhereIndex,
    conflicts: ConflictLedger,
}

impl Model for FleetBooks {
    ghost use Rattle.live_report.specs.Fleet.{FleetState};

    ghost Value = { FleetState };

    ghost view = { λ b. record { index = b.index; conflicts = b.conflicts } };
}

impl FleetBooks {
    /// The books of no agents.
    pub fn new(alloc: Global) -> FleetBooks
        ensures books { AreOfFleet (λ _. None) result }
        ensures touched { result.index.touched ≡ 0 }
    {
        FleetBooks {
            index: WhereIndex::new(alloc),
            conflicts: ConflictLedger::new(alloc),
        }
    }

    /// Takes in an agent that the fleet doesn't have, with its track, and notes the entries that come and
    /// go.
    ///
    /// # Errors
    ///
    /// Want of memory: the books are gone then.
    pub fn admit(
        self,
        agent: Agent,
        track: Track<'_>,
        moves: &mut Moves<Conflict>,
    ) -> Result<FleetBooks, OutOfMemory>
        ensures books { IfOk result (Reroutes agent None (Some (route_of track.entry)) self) }
        ensures touched { IfOk result (λ books. books.index.touched ≡ min (self.index.touched + records_apart nothing (route_of track.entry)) u64.MAX) }
        ensures follows { IfOk result (λ books. Follows self.conflicts books.conflicts moves.old moves.new) }
    {
        let FleetBooks { index, conflicts } = self;
        let Ok(index) = index.put(agent, track) else {
            drop(conflicts);
            return Err(OutOfMemory);
        };
        let Ok(conflicts) = conflicts.admit_noting(agent, track, &index, moves) else {
            drop(index);
            return Err(OutOfMemory);
        };
        Ok(FleetBooks { index, conflicts })
    }

    /// Lets go an agent that the fleet has with that track, and notes the entries that come and go.
    ///
    /// # Errors
    ///
    /// Want of memory, since a removal can make a ring: the books are gone then.
    pub fn retract(
        self,
        agent: Agent,
        track: Track<'_>,
        moves: &mut Moves<Conflict>,
    ) -> Result<FleetBooks, OutOfMemory>
        ensures books { IfOk result (Reroutes agent (Some (route_of track.entry)) None self) }
        ensures touched { IfOk result (λ books. books.index.touched ≡ min (self.index.touched + records_apart (route_of track.entry) nothing) u64.MAX) }
        ensures follows { IfOk result (λ books. Follows self.conflicts books.conflicts moves.old moves.new) }
    {
        let FleetBooks { index, conflicts } = self;
        let index = index.take(agent, track);
        let Ok(conflicts) = conflicts.retract_noting(agent, track, &index, moves) else {
            drop(index);
            return Err(OutOfMemory);
        };
        Ok(FleetBooks { index, conflicts })
    }

    /// Gives an agent that the fleet has with the old track the new one, and notes the entries that come
    /// and go. Where the positions on the two never differ the books stay as they are. They are compared from the time on below which
    /// their paths are known to be in the same cells.
    ///
    /// # Errors
    ///
    /// Want of memory: the books are gone then.
    pub fn revise(
        self,
        agent: Agent,
        old: Track<'_>,
        new: Track<'_>,
        known: u32,
        moves: &mut Moves<Conflict>,
    ) -> Result<FleetBooks, OutOfMemory>
        requires { SamePlaces old.plan.now new.plan.now known }
        ensures books { IfOk result (Reroutes agent (Some (route_of old.entry)) (Some (route_of new.entry)) self) }
        ensures touched { IfOk result (λ books.
            books.index.touched ≡ min (self.index.touched + records_apart (route_of old.entry) (route_of new.entry)) u64.MAX) }
        ensures follows { IfOk result (λ books. Follows self.conflicts books.conflicts moves.old moves.new) }
    {
        let _touched = self.touched();
        let Some(since) = since_of(old, new, known) else {
            return Ok(self);
        };
        let FleetBooks { index, conflicts } = self;
        let Ok(index) = index.swap(agent, old, new, since) else {
            drop(conflicts);
            return Err(OutOfMemory);
        };
        let Ok(conflicts) = conflicts.revise_noting(agent, old, new, since, &index, moves) else {
            drop(index);
            return Err(OutOfMemory);
        };
        Ok(FleetBooks { index, conflicts })
    }

    /// The conflict list of the fleet: each entry that stands, and no other, by kind, time, agents and
    /// cells.
    ///
    /// # Errors
    ///
    /// Want of memory.
    pub fn conflicts(&self) -> Result<List<Conflict>, OutOfMemory>
        ensures { IfOk result (λ entries. (fleet : Fleet) → AreOfFleet fleet self.now → AreConflicts fleet entries) }
    {
        self.conflicts.listed()
    }

    /// The conflict entries of the fleet.
    pub fn entries(&self) -> &ConflictLedger
        ensures { result.now ≡ self.now.conflicts }
    {
        &self.conflicts
    }

    /// When which agents come through the cell, up to the last indices of their paths. The cost follows
    /// their number.
    ///
    /// # Errors
    ///
    /// Want of memory.
    pub fn visits(&self, alloc: Global, cell: Cell) -> Result<Vec<Visit>, OutOfMemory>
        ensures { IfOk result (λ visits. (mode : Mode) (rows : List (ℕ × Row)) → AreOfFleet (tracks_of mode rows) self.now
            → AreThrough rows cell visits.items) }
    {
        let passings = self.index.coming_through(cell, Step::new(0))?;
        visits_to(alloc, cell, passings.items())
    }

    /// How many records of tracks were put in or taken out since the books were made, held at the
    /// greatest u64.
    pub fn touched(&self) -> u64
        ensures { result ≡ self.now.index.touched }
    {
        self.index.touched()
    }
}

// The least time at which the positions on the two tracks differ, and none where they are one track. Their paths are known to be
// in the same cells at times below `known`.
fn since_of(old: Track<'_>, new: Track<'_>, known: u32) -> Option<u32>
    requires { SamePlaces old.plan.now new.plan.now known }
    ensures differ { IsSince (route_of old.entry) (route_of new.entry) result }
    ensures one { IfNone result (route_of old.entry ≡ route_of new.entry) }
{
    let (_old, _new) = (old.plan.last(), new.plan.last());
    first_difference(old, new, known)
}
