//! A binary heap of cells that knows the place of each cell.
ghost use Rattle.std.specs.Prelude.{◌≡◌, ◌+◌, ◌<◌, ◌≤◌, Some, None, IfOk, IfSome, IfNone, is_some, slice_set, replicate, vec_len, vec_capacity};
ghost use Rattle.grid_cells.specs.Size.{Holds};
ghost use Rattle.grid_cells.specs.Grid.{flag_index};
ghost use Rattle.cell_queue.specs.Queue.{area, key_at, IsLeastKey, IsEmpty};
ghost use Rattle.cell_queue.specs.Heap.{IsHeap, IsSyncedHeap, HasRoom, IsLaid, keys_in, number_in, queue_of};

mod settling;

use grid_cells::{Cell, OutOfMemory, Size};
use std::alloc::Global;

// The place of a cell that is not in the heap.
const NOWHERE: u32 = u32::MAX;

// A binary heap of cells, the least key on top, that knows the place of each cell. `cells` and
// `keys` count up to `len`; they have room for each cell, and grow as the heap does.
#[derive(Drop)]
pub(crate) struct Heap {
    pub size: Size,
    pub cells: Vec<Cell>,
    pub keys: Vec<u32>,
    pub places: Vec<u32>,
    pub len: usize,
}

impl Heap {
    // An empty heap with room for each cell.
    pub(crate) fn new(alloc: Global, size: Size) -> Result<Heap, OutOfMemory>
        ensures heap { IfOk result IsHeap }
        ensures size { IfOk result (λ h. h.size ≡ size) }
        ensures empty { IfOk result (λ h. keys_in h ≡ replicate (area size) None) }
    {
        let room = size.width() as usize * size.height() as usize;
        Ok(Heap {
            size,
            cells: Vec::with_capacity(alloc, room)?,
            keys: Vec::with_capacity(alloc, room)?,
            places: vec![in alloc; NOWHERE; room]?,
            len: 0,
        })
    }

    // Puts the cell in, or gives it another key.
    pub(crate) fn put(&mut self, cell: Cell, key: u32)
        requires heap { IsHeap self.old }
        requires held { Holds self.old.size cell }
        ensures heap { IsHeap self.new }
        ensures size { self.new.size ≡ self.old.size }
        ensures keys { keys_in self.new ≡ slice_set (keys_in self.old) (flag_index self.old.size cell) (Some key) }
    {
        let index = self.size.index(cell);
        let place = self.places[index] as usize;
        if place < self.len {
            self.keys[place] = key;
            self.settle(place);
        } else {
            let last = self.len;
            lay(&mut self.cells, last, cell);
            lay(&mut self.keys, last, key);
            self.places[index] = last as u32;
            self.len += 1;
            self.rise(last);
        }
    }

    // Whether the cell is in.
    pub(crate) fn has(&self, cell: Cell) -> bool
        requires heap { IsHeap self.now }
        requires held { Holds self.now.size cell }
        ensures { result ≡ is_some (key_at (queue_of self.now) cell) }
    {
        let place = self.places[self.size.index(cell)] as usize;
        place < self.len
    }

    // Takes out what stands at the last place.
    fn remove_last(&mut self)
        requires synced { IsSyncedHeap self.old }
        requires some { 0 < self.old.len }
        ensures synced { IsSyncedHeap self.new }
        ensures room { HasRoom self.old → HasRoom self.new }
        ensures size { self.new.size ≡ self.old.size }
        ensures len { self.new.len + 1 ≡ self.old.len }
        ensures order { self.new.keys.items ≡ self.old.keys.items }
        ensures keys { keys_in self.new ≡
            slice_set (keys_in self.old) (number_in self.old.size self.old.cells.items self.new.len) None }
    {
        let last = self.len - 1;
        let index = self.size.index(self.cells[last]);
        self.places[index] = NOWHERE;
        self.len = last;
    }

    // Takes out what stands at a place.
    fn remove_at(&mut self, place: usize)
        requires heap { IsHeap self.old }
        requires place { place < self.old.len }
        ensures heap { IsHeap self.new }
        ensures size { self.new.size ≡ self.old.size }
        ensures keys { keys_in self.new ≡
            slice_set (keys_in self.old) (number_in self.old.size self.old.cells.items place) None }
    {
        let last = self.len - 1;
        self.swap(place, last);
        self.remove_last();
        if place < last {
            self.settle(place);
        }
    }

    // Takes the cell out, and tells whether it was in.
    pub(crate) fn remove(&mut self, cell: Cell) -> bool
        requires heap { IsHeap self.old }
        requires held { Holds self.old.size cell }
        ensures heap { IsHeap self.new }
        ensures size { self.new.size ≡ self.old.size }
        ensures found { result ≡ is_some (key_at (queue_of self.old) cell) }
        ensures keys { keys_in self.new ≡ slice_set (keys_in self.old) (flag_index self.old.size cell) None }
    {
        let place = self.places[self.size.index(cell)] as usize;
        if place < self.len {
            self.remove_at(place);
            true
        } else {
            false
        }
    }

    // Takes out a cell with a least key.
    pub(crate) fn take_top(&mut self) -> Option<(Cell, u32)>
        requires { IsHeap self.old }
        ensures heap { IsHeap self.new }
        ensures held { IfSome result (λ t. Holds self.old.size t.0) }
        ensures found { IfSome result (λ t. key_at (queue_of self.old) t.0 ≡ Some t.1) }
        ensures least { IfSome result (λ t. IsLeastKey (queue_of self.old) t.1) }
        ensures size { self.new.size ≡ self.old.size }
        ensures keys { IfSome result (λ t.
            keys_in self.new ≡ slice_set (keys_in self.old) (flag_index self.old.size t.0) None) }
        ensures none { IfNone result (IsEmpty (queue_of self.old)) }
        ensures unchanged { IfNone result (keys_in self.new ≡ keys_in self.old) }
    {
        if self.len == 0 {
            return None;
        }
        let least = (self.cells[0], self.keys[0]);
        self.remove_at(0);
        Some(least)
    }
}

// Writes the value at a place of the list, at most one past its end. The list has room for it.
fn lay<T: Copy>(list: &mut Vec<T>, at: usize, value: T)
    requires near { at ≤ vec_len list.old }
    requires room { at < vec_capacity list.old }
    ensures laid { IsLaid T list.old.items list.new.items at value }
    ensures capacity { vec_capacity list.old ≤ vec_capacity list.new }
{
    if at < list.len() {
        list[at] = value;
    } else {
        list.push(value).unwrap();
    }
}
