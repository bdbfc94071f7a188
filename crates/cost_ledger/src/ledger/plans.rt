//! How a ledger changes where an agent gets a plan.
ghost use Rattle.std.specs.Prelude.{◌≡◌, None, Some, IfOk, IfSome, IfNone};
ghost use Rattle.plan_table.specs.Path.{SamePlaces};
ghost use Rattle.plan_table.specs.Plans.{row_of, ChangesRow, IsByAgent};
ghost use Rattle.cost_ledger.specs.Ledger.{StandsForMap};

use super::CostLedger;
use crate::along::unblock;
use crate::replans::{Planned, add_row};
use crate::rests::Rest;
use crate::rows::elsewhere;
use grid_cells::{Agent, Cell, Grid, OutOfMemory};
use plan_table::Plan;

impl CostLedger {
    /// Puts in an agent that is not in it. The grid is the one that the ledger stands for.
    ///
    /// # Errors
    ///
    /// Want of memory. The ledger is gone then.
    pub fn put(
        mut self,
        agent: Agent,
        goal: Cell,
        plan: &Plan,
        grid: &Grid,
    ) -> Result<CostLedger, OutOfMemory>
        requires absent { row_of self.rows agent ≡ None }
        ensures row { IfOk result (λ ledger. ChangesRow self.rows ledger.rows agent (Some (record { goal = goal; plan = plan.now }))) }
        ensures by_agent { IfOk result (λ ledger. IsByAgent ledger.rows) }
        ensures stands { IfOk result (λ ledger. StandsForMap self grid.now → StandsForMap ledger grid.now) }
    {
        let _number = agent.number();
        let planned = Planned {
            agent,
            goal,
            plan,
            grid,
        };
        match add_row(
            &mut self.rows,
            &mut self.blocked,
            &mut self.rests,
            &planned,
            0,
        ) {
            Ok(away) => {
                self.total += u64::from(plan.last());
                self.elsewhere += away;
                let _count = self.blocked.len();
                Ok(self)
            }
            Err(refused) => {
                drop((self.rows, self.blocked, self.rests));
                Err(refused)
            }
        }
    }

    /// Gives the agent another plan, if it is in it. The grid is the one that the ledger stands for.
    /// What is kept changes from the first time on at which the plans differ.
    ///
    /// # Errors
    ///
    /// Want of memory. The ledger is gone then.
    pub fn set_plan(self, agent: Agent, plan: &Plan, grid: &Grid) -> Result<Self, OutOfMemory>
        ensures row { IfOk result (λ ledger.
            IfSome (row_of self.rows agent) (λ row. ChangesRow self.rows ledger.rows agent (Some (record row { plan = plan.now })))) }
        ensures by_agent { IfOk result (λ ledger. IsByAgent ledger.rows) }
        ensures stands { IfOk result (λ ledger. StandsForMap self grid.now → StandsForMap ledger grid.now) }
        ensures none { IfNone (row_of self.rows agent) (IfOk result (λ ledger. ledger ≡ self)) }
    {
        self.follow_plan(agent, plan, 0, grid)
    }

    /// Gives the agent another plan, as `set_plan` does. It compares the plans from the time on below
    /// which they are known to be in the same cells.
    ///
    /// # Errors
    ///
    /// Want of memory. The ledger is gone then.
    pub fn follow_plan(
        mut self,
        agent: Agent,
        plan: &Plan,
        known: u32,
        grid: &Grid,
    ) -> Result<Self, OutOfMemory>
        requires { IfSome (row_of self.rows agent) (λ row. SamePlaces row.plan plan.now known) }
        ensures row { IfOk result (λ ledger.
            IfSome (row_of self.rows agent) (λ row. ChangesRow self.rows ledger.rows agent (Some (record row { plan = plan.now })))) }
        ensures by_agent { IfOk result (λ ledger. IsByAgent ledger.rows) }
        ensures stands { IfOk result (λ ledger. StandsForMap self grid.now → StandsForMap ledger grid.now) }
        ensures none { IfNone (row_of self.rows agent) (IfOk result (λ ledger. ledger ≡ self)) }
    {
        let Some(old) = self.rows.remove(agent) else {
            return Ok(self);
        };
        let planned = Planned {
            agent,
            goal: old.goal,
            plan,
            grid,
        };
        let since = old.plan.same_front(plan, known);
        unblock(&mut self.blocked, agent, &old.plan, since);
        let last = old.plan.last();
        self.rests.remove(&Rest { time: last, agent });
        match add_row(
            &mut self.rows,
            &mut self.blocked,
            &mut self.rests,
            &planned,
            since,
        ) {
            Ok(stays_away) => {
                self.total = self.total - u64::from(last) + u64::from(plan.last());
                self.elsewhere = self.elsewhere - elsewhere(&old) + stays_away;
                let _count = self.blocked.len();
                drop(old);
                Ok(self)
            }
            Err(refused) => {
                drop(old);
                drop((self.rows, self.blocked, self.rests));
                Err(refused)
            }
        }
    }
}
