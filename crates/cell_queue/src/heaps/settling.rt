//! How a heap brings a key to where it belongs.
ghost use Rattle.std.specs.Prelude.{◌≡◌, ℕ, ◌+◌, ◌*◌, ◌<◌, ◌≤◌, slice_index, slice_set};
ghost use Rattle.cell_queue.specs.Heap.{IsSyncedHeap, IsHeap, HasRoom, IsShuffled, IsLoose, IsLooseUp, IsLooseDown, IsChild, number_in};

use super::Heap;

impl Heap {
    // Exchanges what stands at two places.
    pub(crate) fn swap(&mut self, i: usize, j: usize)
        requires synced { IsSyncedHeap self.old }
        requires first { i < self.old.len }
        requires second { j < self.old.len }
        ensures shuffled { IsShuffled self.old self.new }
        ensures room { HasRoom self.old → HasRoom self.new }
        ensures moved { number_in self.new.size self.new.cells.items j ≡
            number_in self.old.size self.old.cells.items i }
        ensures keys { self.new.keys.items ≡
            slice_set (slice_set self.old.keys.items i (slice_index self.old.keys.items j)) j
            (slice_index self.old.keys.items i) }
    {
        self.cells.swap(i, j);
        self.keys.swap(i, j);
        self.places[self.size.index(self.cells[i])] = i as u32;
        self.places[self.size.index(self.cells[j])] = j as u32;
    }

    // Moves a key that may be too small up to where it belongs.
    pub(crate) fn rise(&mut self, at: usize)
        requires synced { IsSyncedHeap self.old }
        requires at { at < self.old.len }
        requires loose { IsLooseUp self.old.keys.items self.old.len at }
        requires room { HasRoom self.old }
        ensures heap { IsHeap self.new }
        ensures shuffled { IsShuffled self.old self.new }
    {
        let mut at = at;
        while at > 0 {
            let parent = (at - 1) / 2;
            if self.keys[parent] <= self.keys[at] {
                return;
            }
            self.swap(parent, at);
            at = parent;
        }
    }

    // The child with the lesser key.
    fn lesser_child(&self, at: usize) -> usize
        requires synced { IsSyncedHeap self.now }
        requires parent { 2 * at + 1 < self.now.len }
        ensures child { IsChild at result }
        ensures inside { result < self.now.len }
        ensures least { (c : ℕ) → IsChild at c → c < self.now.len →
            slice_index self.now.keys.items result ≤ slice_index self.now.keys.items c }
    {
        let left = 2 * at + 1;
        if left + 1 < self.len && self.keys[left + 1] < self.keys[left] {
            left + 1
        } else {
            left
        }
    }

    // Moves a key that may be too great down to where it belongs.
    fn sink(&mut self, at: usize)
        requires synced { IsSyncedHeap self.old }
        requires at { at < self.old.len }
        requires loose { IsLooseDown self.old.keys.items self.old.len at }
        requires room { HasRoom self.old }
        ensures heap { IsHeap self.new }
        ensures shuffled { IsShuffled self.old self.new }
    {
        let mut at = at;
        while 2 * at + 1 < self.len {
            let child = self.lesser_child(at);
            if self.keys[at] <= self.keys[child] {
                return;
            }
            self.swap(at, child);
            at = child;
        }
    }

    // Moves the key at a place to where it belongs.
    pub(crate) fn settle(&mut self, at: usize)
        requires synced { IsSyncedHeap self.old }
        requires at { at < self.old.len }
        requires loose { IsLoose self.old.keys.items self.old.len at }
        requires room { HasRoom self.old }
        ensures heap { IsHeap self.new }
        ensures shuffled { IsShuffled self.old self.new }
    {
        if at > 0 && self.keys[at] < self.keys[(at - 1) / 2] {
            self.rise(at);
        } else {
            self.sink(at);
        }
    }
}
