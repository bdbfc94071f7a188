ghost use Rattle.std.specs.Prelude.{◌≡◌, [], All, IfOk, length};
ghost use Rattle.grid_cells.specs.Size.{Holds};
ghost use Rattle.grid_cells.specs.Grid.{Chart};
ghost use Rattle.goal_fields.specs.Target.{Covers};
ghost use Rattle.goal_fields.specs.Held.{StandFor};
ghost use Rattle.plan_table.specs.Sets.{Gains, Loses};
ghost use Rattle.live_report.specs.Aims.{aim};
ghost use Rattle.live_report.specs.Goals.{HoldAimed};

use crate::aims::Aims;
use goal_fields::Fields;
use grid_cells::{Agent, Cell, Grid, OutOfMemory};
use std::alloc::Global;
use std::marker::Model;

/// The goals that agents aim at, each with the field of its distances.
#[derive(Drop)]
pub(crate) struct Goals {
    aims: Aims,
    fields: Fields,
}

impl Model for Goals {
    ghost use Rattle.live_report.specs.Goals.{Aimed, HoldAimed};

    ghost Value = { Aimed };

    ghost view = { λ g. record { aims = g.aims; fields = g.fields.fields } };

    ghost invariant = { λ g. HoldAimed g.aims g.fields.fields };
}

impl Goals {
    /// No goals.
    pub(crate) fn new(alloc: Global) -> Goals
        ensures aims { result.aims ≡ [] }
        ensures fields { result.fields ≡ [] }
    {
        Goals {
            aims: Aims::new(alloc),
            fields: Fields::new(alloc),
        }
    }

    /// The fields of the goals.
    pub(crate) fn fields(&self) -> &Fields
        ensures { result.now.fields ≡ self.now.fields }
    {
        &self.fields
    }

    /// The agent aims at the goal: where no agent did so yet, its field on the grid is made.
    pub(crate) fn add(self, agent: Agent, goal: Cell, grid: &Grid) -> Result<Goals, OutOfMemory>
        requires inside { Holds grid.now.size goal }
        requires stand { StandFor grid.now self.fields }
        ensures aims { IfOk result (λ goals. Gains self.aims goals.aims (aim goal agent)) }
        ensures stand { IfOk result (λ goals. StandFor grid.now goals.fields) }
        ensures held { IfOk result (λ goals. HoldAimed goals.aims goals.fields) }
    {
        let Goals { mut aims, fields } = self;
        let fields = fields.hold(grid, goal)?;
        aims.add(goal, agent)?;
        Ok(Goals { aims, fields })
    }

    /// The agent aims at the goal no longer: where no other agent does so, its field goes.
    pub(crate) fn lose(&mut self, agent: Agent, goal: Cell)
        ensures aims { Loses self.old.aims self.new.aims (aim goal agent) }
        ensures stand { (grid : Chart) → StandFor grid self.old.fields → StandFor grid self.new.fields }
        ensures held { HoldAimed self.new.aims self.new.fields }
    {
        self.aims.lose(goal, agent);
        if !self.aims.has_goal(goal) {
            self.fields.release(goal);
        }
    }

    /// Repairs each field for another grid of the same size, whose state differs at most at the
    /// cells.
    pub(crate) fn repair(&mut self, grid: &Grid, cells: &[Cell])
        requires same_size { All (λ field. grid.now.size ≡ field.grid.size) self.old.fields }
        requires covered { All (λ field. Covers cells.now field.grid grid.now) self.old.fields }
        ensures aims { self.new.aims ≡ self.old.aims }
        ensures stand { StandFor grid.now self.new.fields }
        ensures held { HoldAimed self.new.aims self.new.fields }
    {
        if cells.is_empty() {
            stay(&self.fields, grid, cells);
            return;
        }
        let _taken = self.fields.repair(grid, cells);
    }
}

// Where no cell differs the fields stand for the grid as they are, and none is looked at.
fn stay(fields: &Fields, grid: &Grid, cells: &[Cell])
    requires none { length cells.now ≡ 0 }
    requires same_size { All (λ field. grid.now.size ≡ field.grid.size) fields.now.fields }
    requires covered { All (λ field. Covers cells.now field.grid grid.now) fields.now.fields }
    ensures { StandFor grid.now fields.now.fields }
{
    let _size = grid.size();
    let _count = fields.count();
}
