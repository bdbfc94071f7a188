ghost use Rattle.std.specs.Prelude.{◌≡◌, IfOk};
ghost use Rattle.grid_cells.specs.Size.{Holds};
ghost use Rattle.grid_cells.specs.Walks.{IsDistance};

use crate::frontier::{Ends, Frontier};
use grid_cells::{Cell, Grid, OutOfMemory};
use std::alloc::Global;
use std::marker::Model;

/// Distances between two cells on a grid that doesn't change, each by A* (Hart, Nilsson, Raphael 1968),
/// in room that is made once.
#[derive(Drop)]
pub struct AStar {
    frontier: Frontier,
}

// Clauses see the grid.
impl Model for AStar {
    ghost use Rattle.grid_cells.specs.Grid.{Chart};

    ghost Value = { Chart };

    ghost use Rattle.goal_fields.specs.AStar.{IsAtEase};

    ghost view = { λ search. search.frontier.grid };

    ghost invariant = { λ search. IsAtEase search.frontier };
}

impl AStar {
    pub fn new(alloc: Global, grid: &Grid) -> Result<AStar, OutOfMemory>
        ensures { IfOk result (λ search. search ≡ grid.now) }
    {
        let size = grid.size();
        let cells = size.width() as usize * size.height() as usize;
        Ok(AStar {
            frontier: Frontier {
                grid: grid.copy()?,
                stamps: vec![in alloc; 0; cells]?,
                base: 0,
                away: 0,
                now: Vec::new(alloc),
                next: Vec::new(alloc),
            },
        })
    }

    /// The distance from the start to the goal in steps; none where there is no walk.
    pub fn distance(&mut self, start: Cell, goal: Cell) -> Result<Option<u32>, OutOfMemory>
        requires start { Holds self.old.size start }
        requires goal { Holds self.old.size goal }
        ensures distance { IfOk result (IsDistance self.old start goal) }
        ensures same { self.new ≡ self.old }
    {
        self.frontier.distance(&Ends { start, goal })
    }
}
