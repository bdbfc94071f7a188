ghost use Rattle.std.specs.Prelude.{◌≡◌, ◌*◌, ◌≤◌, IfOk, None, length};
ghost use Rattle.grid_cells.specs.Cell.{Point};
ghost use Rattle.grid_cells.specs.Size.{Holds};
ghost use Rattle.grid_cells.specs.Grid.{Chart};
ghost use Rattle.grid_cells.specs.Walks.{IsDistance};
ghost use Rattle.grid_cells.specs.declared.sizes.TheConstants.{MOST_CELLS};
ghost use Rattle.cell_queue.specs.Queue.{area};
ghost use Rattle.goal_fields.specs.Target.{Covers, HaveCounted};
ghost use Rattle.goal_fields.specs.Changes.{IsRepaired};
ghost use Rattle.goal_fields.specs.Rest.{IsAtRest, IsRoomOn};
ghost use Rattle.goal_fields.specs.Standings.{AreAtRest, standing_on};

use crate::lifelong::Lifelong;
use crate::places::FAR;
use crate::search::Search;
use grid_cells::{Cell, Grid, OutOfMemory};
use std::alloc::Global;

/// The distances to one goal on a map that stands elsewhere, and two counts of the cells that were taken
/// for them: in the last repair, and in all.
#[derive(Drop)]
pub(crate) struct Distances {
    pub goal: Cell,
    pub g: Vec<u32>,
    pub taken: u64,
    pub total: u64,
}

impl Distances {
    // The distances on the grid.
    pub(crate) fn new(alloc: Global, grid: &Grid, goal: Cell) -> Result<Distances, OutOfMemory>
        requires { Holds grid.now.size goal }
        ensures at_rest { IfOk result (AreAtRest grid.now) }
        ensures goal { IfOk result (λ made. made.goal ≡ goal) }
    {
        let (_, g) = found(alloc, grid, goal)?;
        Ok(Distances {
            goal,
            g,
            taken: 0,
            total: 0,
        })
    }

    // Mends the distances for the map of the room that is lent, which differs at most at the changed
    // cells, and tells how many cells were taken.
    pub(crate) fn repair_in(&mut self, room: &mut Lifelong, changed: &[Cell]) -> u64
        requires room { IsRoomOn room.old.grid room.old }
        requires at_rest { (old : Chart) × (old.size ≡ room.old.grid.size) × Covers changed.now old room.old.grid × AreAtRest old self.old }
        ensures repaired { (old : Chart) → old.size ≡ room.old.grid.size → AreAtRest old self.old →
            IsRepaired room.old.grid (standing_on old self.old) (standing_on room.old.grid self.new) }
        ensures at_rest { AreAtRest room.old.grid self.new }
        ensures counted { result ≡ self.new.taken }
        ensures few { result ≤ 2 * MOST_CELLS }
        ensures told { HaveCounted result room.old.queue.total room.new.queue.total }
        ensures room { IsRoomOn room.old.grid room.new }
    {
        let taken = room.mend_for(self.goal, &mut self.g, changed);
        self.taken = taken;
        self.total = self.total.saturating_add(taken);
        taken
    }
}

// The distances on the grid, by breadth-first search, with a copy of the map.
pub(crate) fn found(alloc: Global, grid: &Grid, goal: Cell) -> Result<(Grid, Vec<u32>), OutOfMemory>
    requires { Holds grid.now.size goal }
    ensures map { IfOk result (λ found. found.0 ≡ grid.now) }
    ensures at_rest { IfOk result (λ found. IsAtRest grid.now goal found.1.items) }
{
    let mut search = Search::new(alloc, grid, goal)?;
    search.run();
    let Search { grid, marks, .. } = search;
    Ok((grid, marks))
}

// The distance of the cell by these numbers, one for each cell of the map.
pub(crate) fn distance_by(map: &Grid, g: &[u32], cell: Cell) -> Option<u32>
    requires { length g.now ≡ area map.now.size }
    ensures inside { (goal : Point) → IsAtRest map.now goal g.now → Holds map.now.size cell → IsDistance map.now cell goal result }
    ensures outside { (Holds map.now.size cell → ⊥) → result ≡ None }
{
    let size = map.size();
    if !size.holds(cell) {
        return None;
    }
    let number = g[size.index(cell)];
    if number == FAR { None } else { Some(number) }
}
