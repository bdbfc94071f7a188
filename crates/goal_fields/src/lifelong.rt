ghost use Rattle.std.specs.Prelude.{◌≡◌, ◌+◌, ◌*◌, ◌^◌, ◌≤◌, ◌<◌, ◌⊎◌, ℕ, List, [], ◌∷◌, ◌++◌, IfOk, Some, None};
ghost use Rattle.std.specs.Option.{ForSome};
ghost use Rattle.std.specs.Bool.{OnTrue, OnFalse};
ghost use Rattle.grid_cells.specs.Cell.{Point, IsAdjacent};
ghost use Rattle.grid_cells.specs.Size.{Holds};
ghost use Rattle.grid_cells.specs.Grid.{Chart, IsOpen};
ghost use Rattle.cell_queue.specs.Queue.{IsEmpty, one_more};
ghost use Rattle.goal_fields.specs.Marks.{far, IsWhole};
ghost use Rattle.goal_fields.specs.Rest.{IsAtRest, IsIdle, IsRoomOn};
ghost use Rattle.goal_fields.specs.Target.{Covers, HaveCounted};
ghost use Rattle.goal_fields.specs.Repair.{IsRhs};
ghost use Rattle.goal_fields.specs.declared.lifelong.Lifelong.{Lifelong};
ghost use Rattle.goal_fields.specs.Lifelong.{IsRoomy, IsGood, IsSameBut, IsInRepair, IsSettled, IsConsistent, IsTouched, KeepsTarget, g_of, count_over};

use crate::places::{FAR, around, place_of};
use cell_queue::CellQueue;
use grid_cells::{Cell, Grid, OutOfMemory};
use std::alloc::Global;
use std::mem;

// Distances to one goal that are mended by Lifelong Planning A* (Koenig, Likhachev, Furcy 2004), in
// room that is made before.
#[derive(Drop)]
pub(crate) struct Lifelong {
    pub grid: Grid,
    pub goal: Cell,
    pub g: Vec<u32>,
    pub queue: CellQueue,
}

impl Lifelong {
    // Takes a cell with a least key, if there is one, and mends what hangs on it.
    fn step(&mut self) -> bool
        requires { IsRoomy self.old }
        ensures roomy { IsRoomy self.new }
        ensures goes_on { OnTrue result ((d : List ℕ) (floor : ℕ) → IsInRepair d self.old floor →
            (next : ℕ) × IsInRepair d self.new next
            × (self.new.queue.taken ≡ self.old.queue.taken + 1)) }
        ensures all_told { OnTrue result (self.new.queue.total ≡ one_more self.old.queue.total) }
        ensures kept { KeepsTarget self.old self.new }
        ensures ended { OnFalse result (IsEmpty self.new.queue × (self.new ≡ self.old)) }
    {
        let Some(least) = self.queue.take_least() else {
            return false
        };
        let (cell, key) = least;
        let index = place_of(&self.grid, cell);
        let was = self.g[index];
        let value = if was > key { key } else { FAR };
        self.g[index] = value;
        self.ripple(cell, was);
        true
    }

    // Takes cells until none is left, and tells how many.
    fn settle(&mut self) -> u64
        requires begun { IsInRepair self.old.g.items self.old 0 }
        requires bound { self.old.queue.total < 2 ^ 64 }
        ensures settled { IsSettled self.new }
        ensures kept { KeepsTarget self.old self.new }
        ensures count { result ≡ count_over self.old.g.items self.new.g.items }
        ensures counted { result ≡ self.new.queue.taken }
        ensures all_told { HaveCounted result self.old.queue.total self.new.queue.total }
    {
        while self.step() {}
        self.queue.taken()
    }

    // Updates the cell, which may have opened or closed, and where it is closed the neighbours that may
    // have hung on it, where the map has the cell.
    fn touch(&mut self, cell: Cell)
        requires { IsRoomy self.old }
        ensures touched { (start : Lifelong) (done : List Point) → IsTouched start self.old done → IsTouched start self.new (done ++ cell ∷ []) }
        ensures roomy { IsRoomy self.new }
    {
        if self.grid.size().holds(cell) {
            self.update(Some(cell));
            let g = self.g[place_of(&self.grid, cell)];
            if g < FAR && !self.grid.is_open(cell) {
                self.follow_all(cell, g, FAR);
            }
        }
    }
}

impl Lifelong {
    // Room for repairs on the map, with no distances yet.
    pub(crate) fn new(alloc: Global, map: Grid, goal: Cell) -> Result<Lifelong, OutOfMemory>
        requires wide { 0 < map.size.width }
        requires whole { IsWhole map }
        ensures on { IfOk result (IsRoomOn map) }
        ensures told { IfOk result (λ room. room.queue.total ≡ 0) }
    {
        let queue = CellQueue::new(alloc, map.size())?;
        Ok(Lifelong {
            grid: map,
            goal,
            g: Vec::new(alloc),
            queue,
        })
    }

    // Mends the distances, which are those on a map that differs at most at the changed cells, and
    // tells how many cells were taken.
    pub(crate) fn mend(&mut self, changed: &[Cell]) -> u64
        requires roomy { IsRoomy self.old }
        requires empty { IsEmpty self.old.queue }
        requires consistent { (old : Chart) × (old.size ≡ self.old.grid.size) × Covers changed.now old self.old.grid × IsConsistent old self.old }
        ensures settled { IsSettled self.new }
        ensures kept { KeepsTarget self.old self.new }
        ensures count { result ≡ count_over self.old.g.items self.new.g.items }
        ensures counted { result ≡ self.new.queue.taken }
        ensures all_told { HaveCounted result self.old.queue.total self.new.queue.total }
    {
        self.queue.reset();
        for cell in changed {
            self.touch(*cell);
        }
        self.settle()
    }

    // Mends these distances to the goal, which are those on a map of the same size that differs at
    // most at the changed cells, and tells how many cells were taken.
    pub(crate) fn mend_for(&mut self, goal: Cell, g: &mut Vec<u32>, changed: &[Cell]) -> u64
        requires idle { IsIdle self.old }
        requires whole { IsWhole self.old.grid }
        requires at_rest { (old : Chart) × (old.size ≡ self.old.grid.size) × Covers changed.now old self.old.grid
            × IsAtRest old goal g.old.items }
        ensures idle { IsIdle self.new }
        ensures at_rest { IsAtRest self.new.grid goal g.new.items }
        ensures grid { self.new.grid ≡ self.old.grid }
        ensures count { result ≡ count_over g.old.items g.new.items }
        ensures counted { result ≡ self.new.queue.taken }
        ensures all_told { HaveCounted result self.old.queue.total self.new.queue.total }
    {
        self.goal = goal;
        mem::swap(&mut self.g, g);
        let taken = self.mend(changed);
        mem::swap(&mut self.g, g);
        taken
    }
}
