ghost use Rattle.std.specs.Prelude.{◌≡◌, ◌≢◌, ◌+◌, ◌≤◌, ◌<◌, ◌⊎◌, ℕ, Some};
ghost use Rattle.std.specs.Option.{ForSome};
ghost use Rattle.std.specs.Bool.{OnFalse};
ghost use Rattle.grid_cells.specs.Cell.{Point, IsAdjacent};
ghost use Rattle.grid_cells.specs.Size.{Holds};
ghost use Rattle.grid_cells.specs.Grid.{IsOpen};
ghost use Rattle.goal_fields.specs.Marks.{far};
ghost use Rattle.goal_fields.specs.Repair.{IsRhs};
ghost use Rattle.goal_fields.specs.Lifelong.{IsRoomy, IsGood, IsSameBut, KeepsKey, g_of};
ghost use Rattle.goal_fields.specs.Taking.{Advances, IsTaking, IsUnstirred};

use crate::lifelong::Lifelong;
use crate::places::{FAR, around, place_of};
use grid_cells::Cell;

impl Lifelong {
    // One more than the g of the neighbour, none where there is none or it is closed.
    fn through(&self, next: Option<Cell>) -> u32
        requires roomy { IsRoomy self.now }
        requires held { ForSome next (Holds self.now.grid.size) }
        ensures upper { (n : Point) → next ≡ Some n → IsOpen self.now.grid n → result ≤ g_of self.now n + 1 }
        ensures lower { result < far →
            (n : Point) × (next ≡ Some n) × IsOpen self.now.grid n × (result ≡ g_of self.now n + 1) }
    {
        let Some(next) = next else { return FAR };
        if !self.grid.is_open(next) {
            return FAR;
        }
        self.g[place_of(&self.grid, next)].saturating_add(1)
    }

    // What rhs is to be at the cell.
    fn equation(&self, cell: Cell) -> u32
        requires roomy { IsRoomy self.now }
        requires held { Holds self.now.grid.size cell }
        ensures { IsRhs self.now.grid self.now.goal (g_of self.now) cell result }
    {
        if !self.grid.is_open(cell) {
            return FAR;
        }
        if cell == self.goal {
            return 0;
        }
        let [up, left, right, down] = around(&self.grid, cell);
        let above = self.through(up).min(self.through(left));
        above.min(self.through(right)).min(self.through(down))
    }

    // Puts the cell into the queue or takes it out, as its rhs wants it.
    pub(crate) fn update(&mut self, cell: Option<Cell>)
        requires roomy { IsRoomy self.old }
        requires held { ForSome cell (Holds self.old.grid.size) }
        ensures roomy { IsRoomy self.new }
        ensures same { IsSameBut self.old self.new }
        ensures here { ForSome cell (IsGood self.new) }
        ensures keeps { (c : Point) → Holds self.old.grid.size c → IsGood self.old c → IsGood self.new c }
        ensures others { (c : Point) → Holds self.old.grid.size c → (cell ≡ Some c → ⊥) → KeepsKey self.old self.new c }
    {
        let Some(cell) = cell else { return };
        let index = place_of(&self.grid, cell);
        let rhs = self.equation(cell);
        let g = self.g[index];
        if g == rhs {
            self.queue.remove(cell);
        } else {
            self.queue.put(cell, g.min(rhs));
        }
    }

    // Whether the rhs of the cell may be another one, as the g of a neighbour was this and is that now.
    fn is_stirred(&self, cell: Cell, was: u32, now: u32) -> bool
        requires roomy { IsRoomy self.now }
        requires held { Holds self.now.grid.size cell }
        ensures { OnFalse result (IsUnstirred self.now cell was now) }
    {
        let g = self.g[place_of(&self.grid, cell)];
        let moved = if now < was {
            g > now + 1
        } else {
            was < now && g == was + 1
        };
        moved || self.queue.has(cell)
    }

    // Updates the cell, where its rhs may be another one.
    fn follow(&mut self, cell: Option<Cell>, was: u32, now: u32)
        requires roomy { IsRoomy self.old }
        requires held { ForSome cell (Holds self.old.grid.size) }
        ensures roomy { IsRoomy self.new }
        ensures advances { Advances self.old self.new }
        ensures here { ForSome cell (λ c. IsGood self.new c ⊎ IsUnstirred self.new c was now) }
    {
        let Some(next) = cell else { return };
        if self.is_stirred(next, was, now) {
            self.update(Some(next));
        }
    }

    // Updates those neighbours of the cell whose rhs may be other ones, as its g was this and is that
    // now.
    pub(crate) fn follow_all(&mut self, from: Cell, was: u32, now: u32)
        requires roomy { IsRoomy self.old }
        requires held { Holds self.old.grid.size from }
        ensures roomy { IsRoomy self.new }
        ensures advances { Advances self.old self.new }
        ensures near { (c : Point) → Holds self.old.grid.size c → IsAdjacent from c → IsGood self.new c ⊎ IsUnstirred self.new c was now }
    {
        let [up, left, right, down] = around(&self.grid, from);
        self.follow(up, was, now);
        self.follow(left, was, now);
        self.follow(right, was, now);
        self.follow(down, was, now);
    }

    // Updates what hangs on the cell, whose g was this before it was written: its neighbours, and the
    // cell itself where its g rose.
    pub(crate) fn ripple(&mut self, from: Cell, was: u32)
        requires roomy { IsRoomy self.old }
        requires held { Holds self.old.grid.size from }
        ensures roomy { IsRoomy self.new }
        ensures same { IsSameBut self.old self.new }
        ensures good { (g : Point → ℕ) → IsTaking g self.old from was →
            (c : Point) → Holds self.old.grid.size c → IsGood self.new c }
    {
        let now = self.g[place_of(&self.grid, from)];
        self.update(if now < was { None } else { Some(from) });
        self.follow_all(from, was, now);
    }
}
