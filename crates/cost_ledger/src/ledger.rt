ghost use Rattle.std.specs.Prelude.{◌≡◌, ◌↔◌, [], None, Some, OnOk, IfOk, IfSome, IfNone, IsTrue, Contains, length};
ghost use Rattle.grid_cells.specs.Grid.{Chart};
ghost use Rattle.plan_table.specs.Plans.{row_of, ChangesRow, IsByAgent};
ghost use Rattle.mapf_rules.specs.Costs.{IsSumOfCosts, IsMakespan};
ghost use Rattle.mapf_rules.specs.Visits.{AreVisits};
ghost use Rattle.mapf_rules.specs.declared.visits.Visit.{Visit};
ghost use Rattle.cost_ledger.specs.Ledger.{StandsForMap, IsSettleOf, IsFinishedIn, IsUnfinishedCount};

mod flips;
mod plans;

use crate::agents::of_agent;
use crate::along::{listed, unblock};
use crate::rests::{Rest, greatest};
use crate::rows::{Rows, elsewhere};
use grid_cells::{Agent, Cell, List, OutOfMemory};
use mapf_rules::{Visit, is_finished, settle_time};
use std::alloc::Global;
use std::collections::BTreeSet;
use std::marker::Model;

/// The costs and the blocked visits of the rows put into it, kept under changes.
#[derive(Drop)]
pub struct CostLedger {
    alloc: Global,
    rows: Rows,
    blocked: BTreeSet<Visit>,
    rests: BTreeSet<Rest>,
    total: u64,
    elsewhere: u32,
}

impl Model for CostLedger {
    ghost use Rattle.cost_ledger.specs.Ledger.{Ledger};
    ghost use Rattle.cost_ledger.specs.Kept.{Keeps};

    ghost Value = { Ledger };

    ghost view = { λ l. record { rows = l.rows; visits = l.blocked.keys } };

    ghost invariant = { λ l. Keeps l.rows l.rests.keys l.total l.elsewhere };
}

impl CostLedger {
    /// A ledger with no agent, for every map.
    pub fn new(alloc: Global) -> CostLedger
        ensures rows { result.rows ≡ [] }
        ensures stands { (grid : Chart) → StandsForMap result grid }
    {
        CostLedger {
            alloc,
            rows: Rows::new(alloc),
            blocked: BTreeSet::new(alloc),
            rests: BTreeSet::new(alloc),
            total: 0,
            elsewhere: 0,
        }
    }

    /// Takes the agent out, if it is in it.
    pub fn take(&mut self, agent: Agent)
        ensures row { ChangesRow self.old.rows self.new.rows agent None }
        ensures by_agent { IsByAgent self.new.rows }
        ensures stands { (grid : Chart) → StandsForMap self.old grid → StandsForMap self.new grid }
        ensures none { row_of self.old.rows agent ≡ None → self.new ≡ self.old }
    {
        let Some(row) = self.rows.remove(agent) else {
            return;
        };
        let last = row.plan.last();
        unblock(&mut self.blocked, agent, &row.plan, 0);
        self.rests.remove(&Rest { time: last, agent });
        self.total -= u64::from(last);
        self.elsewhere -= elsewhere(&row);
        let _count = self.blocked.len();
    }

    /// Gives the agent another goal, if it is in it.
    pub fn aim(&mut self, agent: Agent, goal: Cell)
        ensures row { IfSome (row_of self.old.rows agent) (λ row. ChangesRow self.old.rows self.new.rows agent (Some (record row { goal = goal }))) }
        ensures by_agent { IsByAgent self.new.rows }
        ensures stands { (grid : Chart) → StandsForMap self.old grid → StandsForMap self.new grid }
        ensures none { IfNone (row_of self.old.rows agent) (self.new ≡ self.old) }
    {
        let Some((before, after)) = self.rows.aim(agent, goal) else {
            return;
        };
        self.elsewhere = self.elsewhere - before + after;
    }

    /// The agent's settle time in steps, if it is in it.
    pub fn settle(&self, agent: Agent) -> Option<u32>
        ensures is { IsSettleOf self.now.rows agent result }
        ensures by_agent { IsByAgent self.now.rows }
    {
        match self.rows.row(agent) {
            Some(row) => Some(settle_time(&row.plan)),
            None => None,
        }
    }

    /// Whether the agent is in it and comes to rest in its goal.
    pub fn finished(&self, agent: Agent) -> bool
        ensures is { IsTrue result ↔ IsFinishedIn self.now.rows agent }
        ensures by_agent { IsByAgent self.now.rows }
    {
        match self.rows.row(agent) {
            Some(row) => is_finished(row),
            None => false,
        }
    }

    /// The sum of the costs in steps, if every agent is finished.
    pub fn sum(&self) -> Option<u64>
        ensures is { IsSumOfCosts self.now.rows result }
        ensures by_agent { IsByAgent self.now.rows }
    {
        if self.elsewhere == 0 {
            Some(self.total)
        } else {
            None
        }
    }

    /// The greatest of the costs in steps, if every agent is finished.
    pub fn makespan(&self) -> Option<u32>
        ensures is { IsMakespan self.now.rows result }
        ensures by_agent { IsByAgent self.now.rows }
    {
        if self.elsewhere == 0 {
            Some(greatest(&self.rests))
        } else {
            None
        }
    }

    /// How many agents aren't finished.
    pub fn unfinished(&self) -> u32
        ensures is { IsUnfinishedCount self.now.rows result }
        ensures by_agent { IsByAgent self.now.rows }
    {
        self.elsewhere
    }

    /// How many blocked visits the agents have.
    pub fn visits(&self) -> usize
        ensures is { result ≡ length self.now.visits }
        ensures by_agent { IsByAgent self.now.rows }
    {
        self.blocked.len()
    }

    /// The blocked visits of the agent. The cost follows their number.
    ///
    /// # Errors
    ///
    /// Want of memory.
    pub fn visits_of(&self, agent: Agent) -> Result<List<Visit>, OutOfMemory>
        ensures { IfOk result (λ visits. (visit : Visit) → Contains visits visit ↔ (Contains self.now.visits visit × (visit.agent ≡ agent))) }
    {
        of_agent(self.alloc, &self.blocked, agent)
    }

    /// The blocked visits of the agents, by agent, then time.
    pub fn blocked_visits(&self) -> Result<List<Visit>, OutOfMemory>
        ensures is { IfOk result (λ visits. visits ≡ self.now.visits) }
        ensures blocked { IfOk result (λ visits. (grid : Chart) → StandsForMap self.now grid → AreVisits grid self.now.rows visits) }
        ensures by_agent { IsByAgent self.now.rows }
    {
        listed(self.alloc, &self.blocked)
    }
}
