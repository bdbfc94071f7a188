ghost use Rattle.std.specs.Prelude.{◌≡◌, ◌+◌, ℕ, [], None, OnOk, IfOk, IfSome, IfNone};
ghost use Rattle.std.specs.Option.{option_copied};
ghost use Rattle.plan_table.specs.Plans.{row_of, ChangesRow, IsByAgent};
ghost use Rattle.plan_table.specs.declared.plans.Row.{Row};
ghost use Rattle.cost_ledger.specs.Kept.{ends_elsewhere, sum_of_rows, AimsRow, GainsRow};
ghost use Rattle.cost_ledger.specs.Through.{AreThrough};

use crate::along::add_through;
use grid_cells::{Agent, Cell, OutOfMemory, Step};
use mapf_rules::Visit;
use plan_table::Row;
use std::alloc::Global;
use std::collections::BTreeMap;
use std::marker::Model;

/// The rows of agents, by agent.
#[derive(Drop)]
pub(crate) struct Rows {
    rows: BTreeMap<Agent, Row>,
}

impl Model for Rows {
    ghost use Rattle.std.specs.Prelude.{List, ℕ};
    ghost use Rattle.plan_table.specs.declared.plans.Row.{Row};

    ghost Value = { List (ℕ × Row) };

    ghost view = { λ r. r.rows.entries };
}

impl Rows {
    /// No rows.
    pub(crate) fn new(alloc: Global) -> Rows
        ensures { result ≡ [] }
    {
        Rows {
            rows: BTreeMap::new(alloc),
        }
    }

    /// The agent's row, if it has one.
    pub(crate) fn row(&self, agent: Agent) -> Option<&Row>
        ensures { option_copied result ≡ row_of self.now agent }
    {
        self.rows.get(&agent)
    }

    /// The visits of the rows' paths to the cell. It goes along all of them.
    pub(crate) fn through(&self, alloc: Global, cell: Cell) -> Result<Vec<Visit>, OutOfMemory>
        ensures { IfOk result (λ visits. AreThrough self.now cell visits.items) }
    {
        let mut found = Vec::new(alloc);
        for (agent, row) in &self.rows {
            add_through(&mut found, *agent, &row.plan, cell)?;
        }
        Ok(found)
    }

    /// Adds an agent's row.
    pub(crate) fn insert(&mut self, agent: Agent, row: Row) -> Result<(), OutOfMemory>
        requires absent { row_of self.old agent ≡ None }
        ensures { OnOk result (GainsRow self.old self.new agent row) }
    {
        self.rows.insert(agent, row)?;
        Ok(())
    }

    /// Takes an agent's row out, if it has one.
    pub(crate) fn remove(&mut self, agent: Agent) -> Option<Row>
        ensures value { result ≡ row_of self.old agent }
        ensures gone { ChangesRow self.old self.new agent None }
        ensures sums { IfSome result (λ row. (number : Row → ℕ) → sum_of_rows number self.new + number row ≡ sum_of_rows number self.old) }
        ensures none { IfNone result (self.new ≡ self.old) }
        ensures by_agent { IsByAgent self.new }
    {
        self.rows.remove(&agent)
    }

    /// Gives an agent's row another goal, and answers how many paths of that row ended elsewhere
    /// than at its goal, before and after.
    pub(crate) fn aim(&mut self, agent: Agent, goal: Cell) -> Option<(u32, u32)>
        ensures none { IfNone result ((row_of self.old agent ≡ None) × (self.new ≡ self.old)) }
        ensures some { IfSome result (AimsRow self.old self.new agent goal) }
        ensures by_agent { IsByAgent self.new }
    {
        let Some(row) = self.rows.get_mut(&agent) else {
            return None;
        };
        let before = elsewhere(row);
        row.goal = goal;
        Some((before, elsewhere(row)))
    }
}

/// 0 where the row's path ends at its goal, and 1 otherwise.
pub(crate) fn elsewhere(row: &Row) -> u32
    ensures { result ≡ ends_elsewhere row.now }
{
    let end = row.plan.at(Step::new(row.plan.last()));
    if end == row.goal { 0 } else { 1 }
}
