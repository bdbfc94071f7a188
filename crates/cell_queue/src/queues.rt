ghost use Rattle.std.specs.Prelude.{◌≡◌, ◌<◌, ◌^◌, ◌↔◌, IfOk, IfSome, IfNone, Some, None, IsTrue, length};
ghost use Rattle.grid_cells.specs.Size.{Holds};
ghost use Rattle.cell_queue.specs.Queue.{area, empty_queue, with_key, one_more, key_at, HasCell, IsLeastKey, IsEmpty};

use crate::heaps::Heap;
use grid_cells::{Cell, OutOfMemory, Size};
use std::alloc::Global;
use std::marker::Model;

/// Some cells of a map, each under a key, and two counters of the cells that were taken: one that
/// can be set to 0, and one that can't.
#[derive(Drop)]
pub struct CellQueue {
    heap: Heap,
    taken: u64,
    total: u64,
}

// Clauses see the size, the key of each cell, and the counters.
impl Model for CellQueue {
    ghost use Rattle.cell_queue.specs.Queue.{Queue};

    ghost Value = { Queue };

    ghost use Rattle.std.specs.Prelude.{◌<◌, ◌^◌};
    ghost use Rattle.cell_queue.specs.Heap.{keys_in, IsHeap};

    ghost view = { λ q. record { size = q.heap.size; keys = keys_in q.heap; taken = q.taken; total = q.total } };

    ghost invariant = { λ q. IsHeap q.heap × (q.taken < 2 ^ 64) × (q.total < 2 ^ 64) };
}

impl CellQueue {
    /// An empty queue with room for each cell of a map.
    pub fn new(alloc: Global, size: Size) -> Result<CellQueue, OutOfMemory>
        ensures { IfOk result (λ queue. queue ≡ empty_queue size) }
    {
        Ok(CellQueue {
            heap: Heap::new(alloc, size)?,
            taken: 0,
            total: 0,
        })
    }

    /// Puts the cell in, or gives it another key.
    pub fn put(&mut self, cell: Cell, key: u32)
        requires { Holds self.old.size cell }
        ensures { self.new ≡ with_key self.old cell (Some key) }
    {
        self.heap.put(cell, key);
    }

    /// Whether the cell is in.
    pub fn has(&self, cell: Cell) -> bool
        ensures { IsTrue result ↔ HasCell self.now cell }
    {
        self.heap.size.holds(cell) && self.heap.has(cell)
    }

    /// Takes the cell out without counting it, and tells whether it was in.
    pub fn remove(&mut self, cell: Cell) -> bool
        ensures found { IsTrue result ↔ HasCell self.old cell }
        ensures inside { Holds self.old.size cell → self.new ≡ with_key self.old cell None }
        ensures outside { (Holds self.old.size cell → ⊥) → self.new ≡ self.old }
    {
        self.heap.size.holds(cell) && self.heap.remove(cell)
    }

    /// Takes out a cell with a least key, and counts it.
    pub fn take_least(&mut self) -> Option<(Cell, u32)>
        ensures inside { IfSome result (λ taken. Holds self.old.size taken.0) }
        ensures found { IfSome result (λ taken. key_at self.old taken.0 ≡ Some taken.1) }
        ensures least { IfSome result (λ taken. IsLeastKey self.old taken.1) }

        // It is out, and one more is counted.
        ensures after { IfSome result (λ taken.
            self.new ≡ record (with_key self.old taken.0 None) { taken = one_more self.old.taken; total = one_more self.old.total }) }
        ensures none { IfNone result (IsEmpty self.old) }
        ensures unchanged { IfNone result (self.new ≡ self.old) }
    {
        let least = self.heap.take_top()?;
        self.taken = self.taken.saturating_add(1);
        self.total = self.total.saturating_add(1);
        Some(least)
    }

    /// How many cells were taken since the queue was made or reset, held at the greatest u64.
    pub fn taken(&self) -> u64
        ensures is { result ≡ self.now.taken }
        ensures bound { self.now.taken < 2 ^ 64 }
        ensures one_key_each { length self.now.keys ≡ area self.now.size }
    {
        self.taken
    }

    /// How many cells were taken since the queue was made, held at the greatest u64.
    pub fn total(&self) -> u64
        ensures { result ≡ self.now.total }
    {
        self.total
    }

    /// Sets the counter of the cells taken to 0; the total stays.
    pub fn reset(&mut self)
        ensures is { self.new ≡ record self.old { taken = 0 } }
        ensures bound { self.old.total < 2 ^ 64 }
    {
        self.taken = 0;
    }
}
