ghost use Rattle.std.specs.Prelude.{◌≡◌, None, Some, All, IfOk, IfSome};
ghost use Rattle.grid_cells.specs.Size.{Holds};
ghost use Rattle.grid_cells.specs.Grid.{Chart};
ghost use Rattle.plan_table.specs.Path.{SamePlaces};
ghost use Rattle.plan_table.specs.Plans.{row_of};
ghost use Rattle.plan_table.specs.declared.plans.Row.{Row};
ghost use Rattle.goal_fields.specs.Target.{Covers};
ghost use Rattle.goal_fields.specs.Held.{StandFor};
ghost use Rattle.plan_table.specs.declared.tracks.Mode.{Mode};
ghost use Rattle.live_report.specs.Prices.{Rows, with_row_in, AimsAt, AreOfRows};
ghost use Rattle.live_report.specs.Books.{Keep};

use crate::fleet::FleetBooks;
use crate::goals::Goals;
use crate::price_flips::flip_all;
use cost_ledger::CostLedger;
use goal_fields::Fields;
use grid_cells::{Agent, Cell, Grid, OutOfMemory};
use plan_table::Plan;
use std::alloc::Global;
use std::marker::Model;

/// The costs, the blocked visits and the distances to the goals of a fleet's rows on a map, kept
/// together while rows and cells change.
#[derive(Drop)]
pub struct PriceBooks {
    costs: CostLedger,
    goals: Goals,
}

impl Model for PriceBooks {
    ghost use Rattle.live_report.specs.Prices.{Prices};

    ghost Value = { Prices };

    ghost view = { λ b. record { costs = b.costs; aims = b.goals.aims; fields = b.goals.fields } };
}

impl PriceBooks {
    /// Books of no rows, for every map.
    pub fn new(alloc: Global) -> PriceBooks
        ensures { (grid : Chart) → AreOfRows grid (λ _. None) result }
    {
        PriceBooks {
            costs: CostLedger::new(alloc),
            goals: Goals::new(alloc),
        }
    }

    /// The costs and the blocked visits of the rows.
    pub fn costs(&self) -> &CostLedger
        ensures { result.now ≡ self.now.costs }
    {
        &self.costs
    }

    /// The distances to the goals of the rows.
    pub fn fields(&self) -> &Fields
        ensures { result.now.fields ≡ self.now.fields }
    {
        self.goals.fields()
    }

    /// Puts in the row of an agent that has none. The grid is the one that the books are for.
    ///
    /// # Errors
    ///
    /// Want of memory. The books are gone then.
    pub fn put(
        self,
        agent: Agent,
        goal: Cell,
        plan: &Plan,
        grid: &Grid,
    ) -> Result<PriceBooks, OutOfMemory>
        requires absent { row_of self.costs.rows agent ≡ None }
        requires inside { Holds grid.now.size goal }
        requires stand { StandFor grid.now self.fields }
        ensures kept { IfOk result (λ books. (fleet : Rows) → AreOfRows grid.now fleet self
            → AreOfRows grid.now (with_row_in fleet agent (Some (record { goal = goal; plan = plan.now }))) books) }
        ensures stand { IfOk result (λ books. StandFor grid.now books.fields) }
    {
        let PriceBooks { costs, goals } = self;
        let Ok(costs) = costs.put(agent, goal, plan, grid) else {
            drop(goals);
            return Err(OutOfMemory);
        };
        let Ok(goals) = goals.add(agent, goal, grid) else {
            drop(costs);
            return Err(OutOfMemory);
        };
        Ok(PriceBooks { costs, goals })
    }

    /// Takes the agent's row out. The goal is that of the row.
    pub fn take(&mut self, agent: Agent, goal: Cell)
        ensures kept { (grid : Chart) (fleet : Rows) → AreOfRows grid fleet self.old → AimsAt fleet agent goal
            → AreOfRows grid (with_row_in fleet agent None) self.new }
        ensures stand { (grid : Chart) → StandFor grid self.old.fields → StandFor grid self.new.fields }
    {
        self.costs.take(agent);
        self.goals.lose(agent, goal);
    }

    /// Gives the agent's row another goal in place of the one before. The grid is the one that the
    /// books are for.
    ///
    /// # Errors
    ///
    /// Want of memory. The books are gone then.
    pub fn aim(
        self,
        agent: Agent,
        before: Cell,
        goal: Cell,
        grid: &Grid,
    ) -> Result<PriceBooks, OutOfMemory>
        requires inside { Holds grid.now.size goal }
        requires stand { StandFor grid.now self.fields }
        ensures kept { IfOk result (λ books. (fleet : Rows) (row : Row) → AreOfRows grid.now fleet self
            → fleet agent ≡ Some row → row.goal ≡ before → AreOfRows grid.now (with_row_in fleet agent (Some (record row { goal = goal }))) books) }
        ensures stand { IfOk result (λ books. StandFor grid.now books.fields) }
    {
        if before == goal {
            return Ok(self);
        }
        let PriceBooks { mut costs, goals } = self;
        costs.aim(agent, goal);
        let Ok(mut goals) = goals.add(agent, goal, grid) else {
            drop(costs);
            return Err(OutOfMemory);
        };
        goals.lose(agent, before);
        Ok(PriceBooks { costs, goals })
    }

    /// Gives the agent's row another plan. The goal is that of the row, and the grid is the one that
    /// the books are for. The plans are compared from the time on below which they are known to be in
    /// the same cells.
    ///
    /// # Errors
    ///
    /// Want of memory. The books are gone then.
    pub fn follow_plan(
        self,
        agent: Agent,
        goal: Cell,
        plan: &Plan,
        known: u32,
        grid: &Grid,
    ) -> Result<PriceBooks, OutOfMemory>
        requires { IfSome (row_of self.costs.rows agent) (λ row. SamePlaces row.plan plan.now known) }
        ensures kept { IfOk result (λ books. (fleet : Rows) → AreOfRows grid.now fleet self → AimsAt fleet agent goal
            → AreOfRows grid.now (with_row_in fleet agent (Some (record { goal = goal; plan = plan.now }))) books) }
        ensures fields { IfOk result (λ books. books.fields ≡ self.fields) }
    {
        let PriceBooks { costs, goals } = self;
        let Ok(costs) = costs.follow_plan(agent, plan, known, grid) else {
            drop(goals);
            return Err(OutOfMemory);
        };
        Ok(PriceBooks { costs, goals })
    }

    /// Goes over to another grid of the same size, whose state differs at most at the cells from
    /// that of the one that the books are for. The fleet is that of the rows.
    ///
    /// # Errors
    ///
    /// Want of memory. The books are gone then.
    pub fn flip(
        self,
        alloc: Global,
        cells: &[Cell],
        fleet: &FleetBooks,
        grid: &Grid,
    ) -> Result<PriceBooks, OutOfMemory>
        requires same_size { All (λ field. grid.now.size ≡ field.grid.size) self.fields }
        requires covered { All (λ field. Covers cells.now field.grid grid.now) self.fields }
        ensures kept { IfOk result (λ books. (mode : Mode) (old : Chart) (rows : Rows)
            → Keep mode old rows (record { fleet = fleet.now; prices = self; lines = None })
            → old.size ≡ grid.now.size → Covers cells.now old grid.now → AreOfRows grid.now rows books) }
        ensures stand { IfOk result (λ books. StandFor grid.now books.fields) }
    {
        let PriceBooks { costs, mut goals } = self;
        let Ok(costs) = flip_all(alloc, costs, cells, fleet, grid) else {
            drop(goals);
            return Err(OutOfMemory);
        };
        goals.repair(grid, cells);
        Ok(PriceBooks { costs, goals })
    }
}
