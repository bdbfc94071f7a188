ghost use Rattle.std.specs.Prelude.{◌≡◌, ◌+◌, ◌<◌, ◌≤◌, [], None, Some, length, IfOk, IfErr, IfSome, IfNone, OnOk, OnSome, IsSome, slice_get};
ghost use Rattle.std.specs.Option.{option_copied};
ghost use Rattle.std.specs.Prelude.{ℕ, slice_set, slice_index_or, vec_capacity, vec_len};
ghost use Rattle.plan_table.specs.declared.plans.Row.{Row};
ghost use Rattle.plan_table.specs.Plans.{with_goal, with_plan, plan_in, IsByAgent, IsAt, IsGapFor, agents_of, row_of, ChangesRow};

use crate::paths::Plan;
use grid_cells::{Agent, Cell, MOST_AGENT, OutOfMemory};
use std::alloc::Global;
use std::marker::Model;
use std::mem;

/// An agent's goal and plan.
#[derive(Debug, Drop)]
pub struct Row {
    pub goal: Cell,
    pub plan: Plan,
}

/// The rows of agents, by agent.
#[derive(Debug)]
pub struct Plans {
    pub(crate) rows: Vec<(Agent, Row)>,
}

impl Drop for Plans {
    fn drop(self) {
        let Plans { rows: _rows } = self;
    }
}

impl Model for Plans {
    ghost use Rattle.std.specs.Prelude.{◌-◌, vec_len, vec_capacity};
    ghost use Rattle.plan_table.specs.Plans.{Table, AreRows};

    ghost Value = { Table };

    ghost view = { λ p. record { rows = p.rows.items; room = vec_capacity p.rows - vec_len p.rows } };

    ghost invariant = { λ p. AreRows p.rows.items };
}

impl Plans {
    /// No rows.
    pub fn new(alloc: Global) -> Plans
        ensures { result.rows ≡ [] }
    {
        Plans {
            rows: Vec::new(alloc),
        }
    }

    /// The agent's row, if it has one.
    pub fn row(&self, agent: Agent) -> Option<&Row>
        ensures { option_copied result ≡ row_of self.now.rows agent }
    {
        match self.search(agent) {
            Ok(at) => Some(&self.rows[at].1),
            Err(_) => None,
        }
    }

    /// How many agents have a row.
    pub fn count(&self) -> u32
        ensures is { result ≡ length self.now.rows }
        ensures by_agent { IsByAgent self.now.rows }
        ensures few { result ≤ MOST_AGENT + 1 }
    {
        self.rows.len() as u32
    }

    /// The agent at that rank, from 0, in the order of the agents.
    pub fn agent_at(&self, rank: u32) -> Option<Agent>
        ensures is { result ≡ slice_get (agents_of self.now.rows) rank }
        ensures by_agent { IsByAgent self.now.rows }
    {
        let rank = rank as usize;
        if rank < self.rows.len() {
            Some(self.rows[rank].0)
        } else {
            None
        }
    }

    /// The agent and the row at that rank, from 0, in the order of the agents.
    pub fn entry_at(&self, rank: u32) -> (Agent, &Row)
        requires { rank < length self.now.rows }
        ensures { slice_get self.now.rows rank ≡ Some (result.0, result.1.now) }
    {
        let entry = &self.rows[rank as usize];
        (entry.0, &entry.1)
    }

    /// Makes room for one more row.
    pub fn make_room(&mut self) -> Result<(), OutOfMemory>
        ensures rows { self.new.rows ≡ self.old.rows }
        ensures room { OnOk result (0 < self.new.room) }
        ensures no_less { self.old.room ≤ self.new.room }
    {
        self.rows.reserve(1)?;
        Ok(())
    }

    /// Adds an agent's row. It takes no memory.
    pub fn insert(&mut self, agent: Agent, row: Row)
        requires absent { row_of self.old.rows agent ≡ None }
        requires room { 0 < self.old.room }
        ensures row { ChangesRow self.old.rows self.new.rows agent (Some row) }
        ensures room { self.new.room + 1 ≡ self.old.room }
        ensures by_agent { IsByAgent self.old.rows × IsByAgent self.new.rows }
    {
        let _number = agent.number();
        match self.search(agent) {
            Ok(_) => unreachable!(),
            Err(at) => match self.rows.insert(at, (agent, row)) {
                Ok(()) => {}
                Err(_) => unreachable!(),
            },
        }
    }

    /// Takes an agent's row out, if it has one.
    pub fn remove(&mut self, agent: Agent) -> Option<Row>
        ensures value { result ≡ row_of self.old.rows agent }
        ensures gone { ChangesRow self.old.rows self.new.rows agent None }
        ensures room { OnSome result (self.new.room ≡ self.old.room + 1) }
        ensures none { IfNone result (self.new ≡ self.old) }
        ensures by_agent { IsByAgent self.old.rows × IsByAgent self.new.rows }
    {
        match self.search(agent) {
            Ok(at) => {
                let (_, row) = self.rows.remove(at);
                Some(row)
            }
            Err(_) => None,
        }
    }

    /// Gives an agent with a row another goal, and answers the one before.
    pub fn set_goal(&mut self, agent: Agent, goal: Cell) -> Cell
        requires { IsSome (row_of self.old.rows agent) }
        ensures changed { IfSome (row_of self.old.rows agent) (λ row. ChangesRow self.old.rows self.new.rows agent (Some (record row { goal = goal }))) }
        ensures before { IfSome (row_of self.old.rows agent) (λ row. result ≡ row.goal) }
        ensures room { self.new.room ≡ self.old.room }
        ensures by_agent { IsByAgent self.old.rows × IsByAgent self.new.rows }
    {
        match self.search(agent) {
            Ok(at) => {
                let before = self.rows[at].1.goal;
                put_goal(&mut self.rows, at, goal);
                before
            }
            Err(_) => unreachable!(),
        }
    }

    /// Gives an agent with a row another plan, and answers the one before.
    pub fn set_plan(&mut self, agent: Agent, plan: Plan) -> Plan
        requires { IsSome (row_of self.old.rows agent) }
        ensures changed { IfSome (row_of self.old.rows agent) (λ row. ChangesRow self.old.rows self.new.rows agent (Some (record row { plan = plan }))) }
        ensures before { IfSome (row_of self.old.rows agent) (λ row. result ≡ row.plan) }
        ensures room { self.new.room ≡ self.old.room }
        ensures by_agent { IsByAgent self.old.rows × IsByAgent self.new.rows }
    {
        match self.search(agent) {
            Ok(at) => put_plan(&mut self.rows, at, plan),
            Err(_) => unreachable!(),
        }
    }

    // Where the agent's row is, or where it would go.
    fn search(&self, agent: Agent) -> Result<usize, usize>
        ensures found { IfOk result (IsAt self.now.rows agent) }
        ensures absent { IfErr result (IsGapFor self.now.rows agent) }
        ensures by_agent { IsByAgent self.now.rows }
    {
        self.rows.binary_search_by_key(&agent, |entry| entry.0)
    }
}

// Writes the goal into the row at the place.
fn put_goal(rows: &mut Vec<(Agent, Row)>, at: usize, goal: Cell)
    requires { at < length rows.old.items }
    ensures rows { (d : ℕ × Row) → rows.new.items ≡ slice_set rows.old.items at (with_goal (slice_index_or rows.old.items at d) goal) }
    ensures capacity { vec_capacity rows.new ≡ vec_capacity rows.old }
    ensures len { vec_len rows.new ≡ vec_len rows.old }
{
    rows[at].1.goal = goal;
}

// Writes the plan into the row at the place, and answers the one before.
fn put_plan(rows: &mut Vec<(Agent, Row)>, at: usize, plan: Plan) -> Plan
    requires { at < length rows.old.items }
    ensures rows { (d : ℕ × Row) → rows.new.items ≡ slice_set rows.old.items at (with_plan (slice_index_or rows.old.items at d) plan) }
    ensures before { (d : ℕ × Row) → result ≡ plan_in (slice_index_or rows.old.items at d) }
    ensures capacity { vec_capacity rows.new ≡ vec_capacity rows.old }
    ensures len { vec_len rows.new ≡ vec_len rows.old }
{
    mem::replace(&mut rows[at].1.plan, plan)
}
