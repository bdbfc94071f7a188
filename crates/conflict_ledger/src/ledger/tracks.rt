//! How a ledger changes where an agent comes, goes or gets another track.
ghost use Rattle.std.specs.Prelude.{◌≡◌, ℕ, ◌<◌, Some, None, IfOk};
ghost use Rattle.plan_table.specs.Route.{position, route_of};
ghost use Rattle.change_history.specs.Moved.{Follows};
ghost use Rattle.conflict_ledger.specs.Mending.{KeepsUp};

use super::ConflictLedger;
use crate::changes::{enter, leave, share_of};
use crate::spans::Span;
use change_history::Moves;
use grid_cells::{Agent, OutOfMemory};
use mapf_rules::Conflict;
use plan_table::Track;
use where_index::WhereIndex;

impl ConflictLedger {
    /// Takes in an agent that the index has with that track. Before, the ledger has the entries of the
    /// other agents; after, those of the index.
    ///
    /// # Errors
    ///
    /// Want of memory: the ledger is gone then.
    pub fn admit(
        self,
        agent: Agent,
        track: Track<'_>,
        index: &WhereIndex,
    ) -> Result<ConflictLedger, OutOfMemory>
        ensures { IfOk result (λ ledger. KeepsUp index.now agent None (Some (route_of track.entry)) self ledger) }
    {
        let mut unfollowed = Moves::unfollowed(self.alloc);
        self.admit_noting(agent, track, index, &mut unfollowed)
    }

    /// Takes in an agent as `admit` does, and notes the entries that come and go.
    ///
    /// # Errors
    ///
    /// Want of memory: the ledger is gone then.
    pub fn admit_noting(
        mut self,
        agent: Agent,
        track: Track<'_>,
        index: &WhereIndex,
        moves: &mut Moves<Conflict>,
    ) -> Result<ConflictLedger, OutOfMemory>
        ensures kept { IfOk result (λ ledger. KeepsUp index.now agent None (Some (route_of track.entry)) self ledger) }
        ensures follows { IfOk result (λ ledger. Follows self ledger moves.old moves.new) }
    {
        let share = share_of(self.alloc, agent, track, &Span::whole(), index)?;
        enter(&mut self.kept, moves, share)?;
        Ok(self)
    }

    /// Lets go an agent with that track, which the index no longer has. Before, the ledger has the
    /// entries of all; after, those of the index.
    ///
    /// # Errors
    ///
    /// Want of memory, since a removal can make a ring: the ledger is gone then.
    pub fn retract(
        self,
        agent: Agent,
        track: Track<'_>,
        index: &WhereIndex,
    ) -> Result<ConflictLedger, OutOfMemory>
        ensures { IfOk result (λ ledger. KeepsUp index.now agent (Some (route_of track.entry)) None self ledger) }
    {
        let mut unfollowed = Moves::unfollowed(self.alloc);
        self.retract_noting(agent, track, index, &mut unfollowed)
    }

    /// Lets go an agent as `retract` does, and notes the entries that come and go.
    ///
    /// # Errors
    ///
    /// Want of memory: the ledger is gone then.
    pub fn retract_noting(
        mut self,
        agent: Agent,
        track: Track<'_>,
        index: &WhereIndex,
        moves: &mut Moves<Conflict>,
    ) -> Result<ConflictLedger, OutOfMemory>
        ensures kept { IfOk result (λ ledger. KeepsUp index.now agent (Some (route_of track.entry)) None self ledger) }
        ensures follows { IfOk result (λ ledger. Follows self ledger moves.old moves.new) }
    {
        let share = share_of(self.alloc, agent, track, &Span::whole(), index)?;
        leave(&mut self.kept, moves, share)?;
        Ok(self)
    }

    /// Gives an agent that had the old track the new one, which the index has. Below `since` the
    /// positions on the two tracks are equal. Before, the ledger has the entries of the same tracks
    /// with the old one; after, those of the index. The cost follows the times that tell the tracks
    /// apart.
    ///
    /// # Errors
    ///
    /// Want of memory: the ledger is gone then.
    pub fn revise(
        self,
        agent: Agent,
        old: Track<'_>,
        new: Track<'_>,
        since: u32,
        index: &WhereIndex,
    ) -> Result<ConflictLedger, OutOfMemory>
        requires { (t : ℕ) → t < since → position (route_of old) t ≡ position (route_of new) t }
        ensures { IfOk result (λ ledger. KeepsUp index.now agent (Some (route_of old.entry)) (Some (route_of new.entry)) self ledger) }
    {
        let mut unfollowed = Moves::unfollowed(self.alloc);
        self.revise_noting(agent, old, new, since, index, &mut unfollowed)
    }

    /// Gives an agent another track as `revise` does, and notes the entries that come and go.
    ///
    /// # Errors
    ///
    /// Want of memory: the ledger is gone then.
    pub fn revise_noting(
        mut self,
        agent: Agent,
        old: Track<'_>,
        new: Track<'_>,
        since: u32,
        index: &WhereIndex,
        moves: &mut Moves<Conflict>,
    ) -> Result<ConflictLedger, OutOfMemory>
        requires { (t : ℕ) → t < since → position (route_of old) t ≡ position (route_of new) t }
        ensures kept { IfOk result (λ ledger. KeepsUp index.now agent (Some (route_of old.entry)) (Some (route_of new.entry)) self ledger) }
        ensures follows { IfOk result (λ ledger. Follows self ledger moves.old moves.new) }
    {
        let span = Span::apart(old, new, since);
        let gone = share_of(self.alloc, agent, old, &span, index)?;
        leave(&mut self.kept, moves, gone)?;
        let come = share_of(self.alloc, agent, new, &span, index)?;
        enter(&mut self.kept, moves, come)?;
        Ok(self)
    }
}
