ghost use Rattle.std.specs.Prelude.{◌≡◌, ◌*◌, ◌≤◌, IfOk, None};
ghost use Rattle.grid_cells.specs.Size.{Holds};
ghost use Rattle.grid_cells.specs.Walks.{IsDistance};
ghost use Rattle.grid_cells.specs.declared.sizes.TheConstants.{MOST_CELLS};
ghost use Rattle.goal_fields.specs.Target.{Covers, IsSound};
ghost use Rattle.goal_fields.specs.Changes.{IsRepaired};

use crate::distances::{distance_by, found};
use crate::lifelong::Lifelong;
use crate::maps::adopt;
use grid_cells::{Cell, Grid, OutOfMemory};
use std::alloc::Global;
use std::marker::Model;

/// The distances of all cells to one goal, mended by Lifelong Planning A* (Koenig, Likhachev, Furcy
/// 2004) as cells open and close. It has room of its own for that.
#[derive(Drop)]
pub struct Field {
    goal: Cell,
    g: Vec<u32>,
    room: Lifelong,
}

// Clauses see the grid that the field stands for, the goal, and how many cells its queue has taken since
// the last repair began, and in all.
impl Model for Field {
    ghost use Rattle.goal_fields.specs.Target.{Standing};

    ghost Value = { Standing };

    ghost use Rattle.goal_fields.specs.Rest.{IsAtRest, IsIdle};

    ghost view = { λ field. record {
      grid = field.room.grid;
      goal = field.goal;
      taken = field.room.queue.taken;
      total = field.room.queue.total;
    } };

    ghost invariant = { λ field. IsAtRest field.room.grid field.goal field.g.items × IsIdle field.room };
}

impl Field {
    /// The distances on the grid. All the room that the field will ever need is made here.
    pub fn new(alloc: Global, grid: &Grid, goal: Cell) -> Result<Field, OutOfMemory>
        requires { Holds grid.now.size goal }
        ensures stands { IfOk result (λ field. field.grid ≡ grid.now) }
        ensures goal { IfOk result (λ field. field.goal ≡ goal) }
        ensures sound { IfOk result IsSound }
    {
        let (map, g) = found(alloc, grid, goal)?;
        let room = Lifelong::new(alloc, map, goal)?;
        Ok(Field { goal, g, room })
    }

    /// The distance from the cell to the goal in steps; none where there is no walk, and outside the
    /// map.
    pub fn distance(&self, cell: Cell) -> Option<u32>
        ensures inside { Holds self.now.grid.size cell → IsDistance self.now.grid cell self.now.goal result }
        ensures outside { (Holds self.now.grid.size cell → ⊥) → result ≡ None }
        ensures sound { IsSound self.now }
    {
        distance_by(&self.room.grid, &self.g, cell)
    }

    /// Mends the distances for another grid of the same size, whose state differs at most at the
    /// changed cells, and tells how many cells were taken: the change count between the two grids.
    pub fn repair(&mut self, grid: &Grid, changed: &[Cell]) -> u64
        requires same_size { grid.now.size ≡ self.old.grid.size }
        requires covered { Covers changed.now self.old.grid grid.now }
        ensures repaired { IsRepaired grid.now self.old self.new }
        ensures counted { result ≡ self.new.taken }
        ensures few { result ≤ 2 * MOST_CELLS }
    {
        adopt(&mut self.room.grid, grid, changed);
        self.room.mend_for(self.goal, &mut self.g, changed)
    }
}
