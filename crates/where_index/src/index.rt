ghost use Rattle.std.specs.Prelude.{◌≡◌, ℕ, ◌+◌, ◌<◌, ◌≤◌, min, max, Option, Some, None, IfOk};
ghost use Rattle.std.specs.Option.{unwrap_or};
ghost use Rattle.plan_table.specs.Path.{last_index};
ghost use Rattle.plan_table.specs.Route.{Route, Fleet, position, last_of, route_of};
ghost use Rattle.where_index.specs.Records.{nothing, apart_below, records_apart};
ghost use Rattle.where_index.specs.Changes.{DifferWithin};
ghost use Rattle.where_index.specs.Ends.{IsEndOfRoute};
ghost use Rattle.where_index.specs.Index.{StandsFor, ChangesRoute};
ghost use Rattle.where_index.specs.Asked.{CountsAgents};

use crate::ends::End;
use crate::records::change_records;
use crate::traffic::Traffic;
use crate::trails::Trail;
use grid_cells::{Agent, OutOfMemory};
use plan_table::Track;
use std::alloc::Global;
use std::collections::BTreeMap;
use std::marker::Model;

/// Which agents stand and move where: it stands for a finite map from agents to tracks.
pub struct WhereIndex {
    pub(crate) alloc: Global,
    pub(crate) traffic: Traffic,
    pub(crate) ends: BTreeMap<Agent, End>,
    pub(crate) horizon: u32,
    touched: u64,
}

impl Drop for WhereIndex {
    fn drop(self) {
        let WhereIndex {
            alloc: _,
            traffic: _traffic,
            ends: _ends,
            horizon: _,
            touched: _,
        } = self;
    }
}

impl Model for WhereIndex {
    ghost use Rattle.where_index.specs.Index.{Contents};

    ghost Value = { Contents };

    ghost view = { λ i. record { traffic = i.traffic; ends = i.ends.entries; horizon = i.horizon; touched = i.touched } };
}

impl WhereIndex {
    /// No agent is in it.
    pub fn new(alloc: Global) -> WhereIndex
        ensures empty { StandsFor result (λ _. None) }
        ensures horizon { result.horizon ≡ 0 }
        ensures touched { result.touched ≡ 0 }
    {
        WhereIndex {
            alloc,
            traffic: Traffic::new(alloc),
            ends: BTreeMap::new(alloc),
            horizon: 0,
            touched: 0,
        }
    }

    /// Puts in an agent that isn't in it.
    ///
    /// # Errors
    ///
    /// Want of memory: the index is gone then.
    pub fn put(self, agent: Agent, track: Track<'_>) -> Result<WhereIndex, OutOfMemory>
        ensures stands { IfOk result (λ index. ChangesRoute self index agent None (Some (route_of track.entry))) }
        ensures horizon { IfOk result (λ index. index.horizon ≡ max self.horizon (last_index track.entry.plan.now)) }
        ensures touched { IfOk result (λ index. index.touched ≡ min (self.touched + records_apart nothing (route_of track.entry)) u64.MAX) }
    {
        let to = track.plan.last() + 1;
        let trail = Trail::of(&track);
        self.replace(agent, &Trail::none(), &trail, End::of(&track), 0, to)
    }

    /// Takes out an agent that is in it with that track.
    pub fn take(mut self, agent: Agent, track: Track<'_>) -> WhereIndex
        ensures stands { ChangesRoute self result agent (Some (route_of track.entry)) None }
        ensures horizon { result.horizon ≡ self.horizon }
        ensures touched { result.touched ≡ min (self.touched + records_apart (route_of track.entry) nothing) u64.MAX }
    {
        let last = track.plan.last();
        let trail = Trail::of(&track);
        let nothing = Trail::none();
        let changed = change_records(&mut self.traffic, agent, &trail, &nothing, 0, last + 1);
        let count = match changed {
            Ok(count) => count,
            Err(_) => unreachable!(),
        };
        self.ends.remove(&agent);
        self.touched = self.touched.saturating_add(u64::from(count));
        self
    }

    /// Gives an agent that is in it with the old track the new one. Below `since` the positions on
    /// the two tracks are equal.
    ///
    /// # Errors
    ///
    /// Want of memory: the index is gone then.
    pub fn swap(
        self,
        agent: Agent,
        old: Track<'_>,
        new: Track<'_>,
        since: u32,
    ) -> Result<WhereIndex, OutOfMemory>
        requires { (t : ℕ) → t < since → position (route_of old) t ≡ position (route_of new) t }
        ensures stands { IfOk result (λ index. ChangesRoute self index agent (Some (route_of old.entry)) (Some (route_of new.entry))) }
        ensures horizon { IfOk result (λ index. index.horizon ≡ max self.horizon (last_index new.entry.plan.now)) }
        ensures touched { IfOk result (λ index. index.touched ≡ min (self.touched + records_apart (route_of old.entry) (route_of new.entry)) u64.MAX) }
    {
        let least = old.plan.last().min(new.plan.last());
        let most = old.plan.last().max(new.plan.last());
        // The record one step before `since` can change its kind, and so can those at an end.
        let from = since.min(least).saturating_sub(1);
        let before = Trail::of(&old);
        let after = Trail::of(&new);
        self.replace(agent, &before, &after, End::of(&new), from, most + 1)
    }

    // Gives an agent one trail in the place of another, from one time to another, and its end.
    fn replace(
        mut self,
        agent: Agent,
        old: &Trail<'_>,
        new: &Trail<'_>,
        end: End,
        from: u32,
        to: u32,
    ) -> Result<WhereIndex, OutOfMemory>
        requires within { DifferWithin old.now new.now from to }
        requires end { IsEndOfRoute end new.now }
        ensures stands { IfOk result (λ index. (was : Option Route) → old.now ≡ unwrap_or was nothing → ChangesRoute self index agent was (Some new.now)) }
        ensures horizon { IfOk result (λ index. index.horizon ≡ max self.horizon end.last) }
        ensures touched { IfOk result (λ index. index.touched ≡ min (self.touched + apart_below old.now new.now to) u64.MAX) }
    {
        let last = end.last;
        let count = change_records(&mut self.traffic, agent, old, new, from, to)?;
        self.ends.insert(agent, end)?;
        self.horizon = self.horizon.max(last);
        self.touched = self.touched.saturating_add(u64::from(count));
        Ok(self)
    }

    /// How many agents are in it.
    pub fn count(&self) -> usize
        ensures { (fleet : Fleet) → StandsFor self.now fleet → CountsAgents fleet result }
    {
        self.ends.len()
    }

    /// A time that is no less than the last index of any path in it, and 0 in a new one.
    pub fn horizon(&self) -> u32
        ensures is { result ≡ self.now.horizon }
        ensures above { (fleet : Fleet) → StandsFor self.now fleet → (agent : ℕ) → last_of fleet agent ≤ result }
    {
        self.horizon
    }

    /// How many records of tracks were put in or taken out since it was made, held at the greatest
    /// u64.
    pub fn touched(&self) -> u64
        ensures { result ≡ self.now.touched }
    {
        self.touched
    }
}
