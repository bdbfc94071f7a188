ghost use Rattle.std.specs.Prelude.{◌≡◌, ◌+◌, ◌<◌, IfOk};
ghost use Rattle.grid_cells.specs.Cell.{Point, point, IsAdjacent};
ghost use Rattle.grid_cells.specs.Size.{Holds};
ghost use Rattle.grid_cells.specs.Grid.{flag_index};
ghost use Rattle.goal_fields.specs.Search.{IsSearching, IsMarking, IsReached, SearchesOn, KeepsMap, HasSearchRoom, IsBlank, IsFound, front_of, mark_of};

use crate::places::{FAR, place_of};
use grid_cells::{Cell, Grid, OutOfMemory};
use std::alloc::Global;

// A breadth-first search from the goal: the cells that it has come to stand in `queue` up to `tail`,
// and those up to `head` are done.
#[derive(Drop)]
pub(crate) struct Search {
    pub grid: Grid,
    pub goal: Cell,
    pub marks: Vec<u32>,
    pub queue: Vec<Cell>,
    pub head: usize,
    pub tail: usize,
}

impl Search {
    // A search with room for each cell, in which nothing is found yet.
    pub(crate) fn new(alloc: Global, grid: &Grid, goal: Cell) -> Result<Search, OutOfMemory>
        requires { Holds grid.now.size goal }
        ensures room { IfOk result HasSearchRoom }
        ensures blank { IfOk result IsBlank }
        ensures target { IfOk result (λ search. (search.grid ≡ grid.now) × (search.goal ≡ goal)) }
    {
        let size = grid.size();
        let room = size.width() as usize * size.height() as usize;
        Ok(Search {
            grid: grid.copy()?,
            goal,
            marks: vec![in alloc; FAR; room]?,
            queue: vec![in alloc; goal; room]?,
            head: 0,
            tail: 0,
        })
    }

    // Begins the search at the goal, where that is open.
    fn begin(&mut self)
        requires room { HasSearchRoom self.old }
        requires blank { IsBlank self.old }
        ensures searching { IsSearching self.new }
        ensures same_map { KeepsMap self.old self.new }
    {
        self.head = 0;
        self.tail = 0;
        if self.grid.is_open(self.goal) {
            let start = place_of(&self.grid, self.goal);
            self.marks[start] = 0;
            self.queue[0] = self.goal;
            self.tail = 1;
        }
    }

    // Marks the cell in that column and row, which stands at that index in a list of all cells, where it
    // is open and has no mark yet.
    fn mark(&mut self, x: u32, y: u32, index: usize, number: u32)
        requires searching { IsSearching self.old }
        requires at_work { self.old.head < self.old.tail }
        requires held { Holds self.old.grid.size (point x y) }
        requires index { index ≡ flag_index self.old.grid.size (point x y) }
        requires adjacent { IsAdjacent (front_of self.old) (point x y) }
        requires next { number ≡ mark_of self.old (front_of self.old) + 1 }
        ensures searching { IsSearching self.new }
        ensures goes_on { SearchesOn self.old self.new }
        ensures reached { IsReached self.new number (point x y) }
    {
        if self.marks[index] != FAR {
            return;
        }
        if let Some(cell) = self.grid.size().cell(x, y) {
            if self.grid.is_open(cell) {
                self.marks[index] = number;
                self.queue[self.tail] = cell;
                self.tail += 1;
            }
        }
    }

    // Marks the cell above, if there is one.
    fn mark_up(&mut self, front: Cell, at: usize, number: u32)
        requires { IsMarking self.old front at number }
        ensures marking { IsMarking self.new front at number }
        ensures goes_on { SearchesOn self.old self.new }
        ensures reached { (c : Point) → c.x ≡ front.x → c.y + 1 ≡ front.y → IsReached self.new number c }
    {
        let row = self.grid.size().width() as usize;
        if front.y() > 0 {
            self.mark(front.x(), front.y() - 1, at - row, number);
        }
    }

    // Marks the cell at the left, if there is one.
    fn mark_left(&mut self, front: Cell, at: usize, number: u32)
        requires { IsMarking self.old front at number }
        ensures marking { IsMarking self.new front at number }
        ensures goes_on { SearchesOn self.old self.new }
        ensures reached { (c : Point) → c.x + 1 ≡ front.x → c.y ≡ front.y → IsReached self.new number c }
    {
        if front.x() > 0 {
            self.mark(front.x() - 1, front.y(), at - 1, number);
        }
    }

    // Marks the cell at the right, if there is one.
    fn mark_right(&mut self, front: Cell, at: usize, number: u32)
        requires { IsMarking self.old front at number }
        ensures marking { IsMarking self.new front at number }
        ensures goes_on { SearchesOn self.old self.new }
        ensures reached { (c : Point) → c.x ≡ front.x + 1 → c.y ≡ front.y → IsReached self.new number c }
    {
        if front.x() + 1 < self.grid.size().width() {
            self.mark(front.x() + 1, front.y(), at + 1, number);
        }
    }

    // Marks the cell below, if there is one.
    fn mark_down(&mut self, front: Cell, at: usize, number: u32)
        requires { IsMarking self.old front at number }
        ensures marking { IsMarking self.new front at number }
        ensures goes_on { SearchesOn self.old self.new }
        ensures reached { (c : Point) → c.x ≡ front.x → c.y ≡ front.y + 1 → IsReached self.new number c }
    {
        let size = self.grid.size();
        if front.y() + 1 < size.height() {
            self.mark(front.x(), front.y() + 1, at + size.width() as usize, number);
        }
    }

    // Marks the neighbours of the cell whose turn it is, which is done then.
    fn expand(&mut self)
        requires searching { IsSearching self.old }
        requires at_work { self.old.head < self.old.tail }
        ensures searching { IsSearching self.new }
        ensures same_map { KeepsMap self.old self.new }
        ensures done { self.new.head ≡ self.old.head + 1 }
    {
        let front = self.queue[self.head];
        let at = place_of(&self.grid, front);
        let number = self.marks[at] + 1;
        self.mark_up(front, at, number);
        self.mark_left(front, at, number);
        self.mark_right(front, at, number);
        self.mark_down(front, at, number);
        self.head += 1;
    }

    // Finds all distances to the goal.
    pub(crate) fn run(&mut self)
        requires room { HasSearchRoom self.old }
        requires blank { IsBlank self.old }
        ensures same_map { KeepsMap self.old self.new }
        ensures found { IsFound self.new }
    {
        self.begin();
        while self.head < self.tail {
            self.expand();
        }
    }
}
