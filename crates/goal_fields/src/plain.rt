ghost use Rattle.std.specs.Prelude.{◌≡◌, IfOk, None};
ghost use Rattle.grid_cells.specs.Size.{Holds};
ghost use Rattle.grid_cells.specs.Walks.{IsDistance};

use crate::distances::{distance_by, found};
use grid_cells::{Cell, Grid, OutOfMemory};
use std::alloc::Global;
use std::marker::Model;

/// The distances of all cells to one goal on a grid that doesn't change, by breadth-first search.
#[derive(Drop)]
pub struct PlainField {
    grid: Grid,
    goal: Cell,
    g: Vec<u32>,
}

// Clauses see the grid that the field stands for, and the goal.
impl Model for PlainField {
    ghost use Rattle.goal_fields.specs.Target.{Target};

    ghost Value = { Target };

    ghost use Rattle.goal_fields.specs.Rest.{IsAtRest};

    ghost view = { λ field. record { grid = field.grid; goal = field.goal } };

    ghost invariant = { λ field. IsAtRest field.grid field.goal field.g.items };
}

impl PlainField {
    pub fn new(alloc: Global, grid: &Grid, goal: Cell) -> Result<PlainField, OutOfMemory>
        requires { Holds grid.now.size goal }
        ensures { IfOk result (λ field. field ≡ record { grid = grid.now; goal = goal }) }
    {
        let (grid, g) = found(alloc, grid, goal)?;
        Ok(PlainField { grid, goal, g })
    }

    /// The distance from the cell to the goal in steps; none where there is no walk, and outside the
    /// map.
    pub fn distance(&self, cell: Cell) -> Option<u32>
        ensures inside { Holds self.now.grid.size cell → IsDistance self.now.grid cell self.now.goal result }
        ensures outside { (Holds self.now.grid.size cell → ⊥) → result ≡ None }
    {
        distance_by(&self.grid, &self.g, cell)
    }
}
