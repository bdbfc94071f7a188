ghost use Rattle.std.specs.Prelude.{◌≡◌, None};
ghost use Rattle.grid_cells.specs.Size.{Holds};
ghost use Rattle.grid_cells.specs.Walks.{IsDistance};
ghost use Rattle.goal_fields.specs.Target.{IsSound};

use crate::distances::{Distances, distance_by};
use grid_cells::{Cell, Grid};
use std::marker::Model;

/// The field of a goal that is held: its distances, with the one map of all that are held.
#[derive(Drop)]
pub struct Held<'a> {
    pub(crate) map: &'a Grid,
    pub(crate) distances: &'a Distances,
}

// Clauses see what they see of a field.
impl<'a> Model for Held<'a> {
    ghost use Rattle.goal_fields.specs.Target.{Standing};

    ghost Value = { Standing };

    ghost use Rattle.goal_fields.specs.Standings.{AreAtRest, standing_on};

    ghost view = { λ held. standing_on held.map.now held.distances.now };

    ghost invariant = { λ held. AreAtRest held.map.now held.distances.now };
}

impl<'a> Held<'a> {
    /// The distance from the cell to the goal in steps; none where there is no walk, and outside the
    /// map.
    pub fn distance(&self, cell: Cell) -> Option<u32>
        ensures inside { Holds self.now.grid.size cell → IsDistance self.now.grid cell self.now.goal result }
        ensures outside { (Holds self.now.grid.size cell → ⊥) → result ≡ None }
        ensures sound { IsSound self.now }
    {
        distance_by(self.map, &self.distances.g, cell)
    }
}
