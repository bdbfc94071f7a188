ghost use Rattle.std.specs.Prelude.{◌≡◌, ◌+◌, ◌^◌, ◌<◌, ◌≤◌, [], ◌∷◌, ◌++◌, IfOk, OnOk, IfSome, MatchOption};
ghost use Rattle.grid_cells.specs.Cell.{Point, IsAdjacent};
ghost use Rattle.grid_cells.specs.Size.{Holds};
ghost use Rattle.grid_cells.specs.Walks.{IsDistance};
ghost use Rattle.goal_fields.specs.Marks.{mark_at};
ghost use Rattle.goal_fields.specs.AStar.{HasWalk, IsStamped, IsAtEase, IsSeeking, IsSeekingFrom, GathersCells};
ghost use Rattle.goal_fields.specs.AStar.{KeepsLevel, IsMetFrom, most_work, waiting, work_left};
ghost use Rattle.goal_fields.specs.declared.frontier.Ends.{Ends};

use crate::places::{around, place_of, steps_between, wipe};
use grid_cells::{Cell, Grid, OutOfMemory};
use std::mem;

// The greatest stamp that a search begins above, so that those of one search fit a u32 (a search has at
// most 20 times as many steps away as a map has cells, and two).
pub(crate) const MOST_BASE: u32 = 2_200_000_000;

/// Where a walk begins and where it ends.
#[derive(Clone, Copy)]
pub(crate) struct Ends {
    pub start: Cell,
    pub goal: Cell,
}

// A* from a goal towards a start, level by level: the cells of `now` wait for walks with `away` steps
// away from the start, and those of `next` for walks with one more. A cell is done where its stamp is at
// least `base`.
#[derive(Drop)]
pub(crate) struct Frontier {
    pub grid: Grid,
    pub stamps: Vec<u32>,
    pub base: u32,
    pub away: u32,
    pub now: Vec<Cell>,
    pub next: Vec<Cell>,
}

impl Frontier {
    // Lets the cell beside the front wait, where there is one that is open and isn't done.
    fn meet(&mut self, ends: &Ends, front: Cell, beside: Option<Cell>) -> Result<(), OutOfMemory>
        requires seeking { IsSeekingFrom self.old ends.now (self.old.now.items ++ front ∷ []) }
        requires walk { HasWalk self.old.grid ends.now self.old.away front }
        requires beside { IfSome beside (λ cell. Holds self.old.grid.size cell × IsAdjacent front cell) }
        ensures seeking { OnOk result (IsSeekingFrom self.new ends.now (self.new.now.items ++ front ∷ [])) }
        ensures met { OnOk result (IfSome beside (IsMetFrom self.new ends.now front)) }
        ensures gathers { GathersCells self.old self.new }
        ensures few { waiting self.new ≤ waiting self.old + 3 }
    {
        let Some(cell) = beside else { return Ok(()) };
        if !self.grid.is_open(cell) {
            return Ok(());
        }
        if self.stamps[place_of(&self.grid, cell)] >= self.base {
            return Ok(());
        }
        if steps_between(cell, ends.start) < steps_between(front, ends.start) {
            self.now.push(cell)?;
        } else {
            self.next.push(cell)?;
        }
        Ok(())
    }

    // Lets wait what lies beside the front.
    fn expand(&mut self, ends: &Ends, front: Cell) -> Result<(), OutOfMemory>
        requires seeking { IsSeekingFrom self.old ends.now (self.old.now.items ++ front ∷ []) }
        ensures seeking { OnOk result (IsSeekingFrom self.new ends.now (self.new.now.items ++ front ∷ [])) }
        ensures met { OnOk result ((cell : Point) → IsAdjacent front cell → IsMetFrom self.new ends.now front cell) }
        ensures gathers { GathersCells self.old self.new }
        ensures few { waiting self.new ≤ waiting self.old + 12 }
    {
        let around = around(&self.grid, front);
        for beside in around {
            self.meet(ends, front, beside)?;
        }
        Ok(())
    }

    // Deals with the front, which is done then.
    fn take(&mut self, ends: &Ends, front: Cell) -> Result<(), OutOfMemory>
        requires seeking { IsSeekingFrom self.old ends.now (self.old.now.items ++ front ∷ []) }
        requires other { front ≡ ends.now.start → ⊥ }
        requires fits { self.old.base + self.old.away < 2 ^ 32 }
        ensures seeking { OnOk result (IsSeekingFrom self.new ends.now self.new.now.items) }
        ensures same { KeepsLevel self.old self.new }
        ensures less { OnOk result (work_left self.new ≤ work_left self.old + 1) }
    {
        let place = place_of(&self.grid, front);
        if self.stamps[place] >= self.base {
            return Ok(());
        }
        self.expand(ends, front)?;
        self.stamps[place] = self.base + self.away;
        Ok(())
    }

    // Where no cell waits for walks with as many steps away, goes on to those with one more.
    fn rise(&mut self)
        requires stamped { IsStamped self.old.grid self.old.stamps.items self.old.base self.old.away }
        requires few { self.old.away + work_left self.old ≤ most_work self.old.grid.size }
        ensures seeking { (ends : Ends) → IsSeekingFrom self.old ends self.old.now.items → IsSeekingFrom self.new ends self.new.now.items }
        ensures stamped { IsStamped self.new.grid self.new.stamps.items self.new.base self.new.away }
        ensures grid { self.new.grid ≡ self.old.grid }
        ensures base { self.new.base ≡ self.old.base }
        ensures few { self.new.away + work_left self.new ≤ self.old.away + work_left self.old }
        ensures less { work_left self.new ≤ work_left self.old }
        ensures over { self.new.now.items ≡ [] → self.new.next.items ≡ [] }
    {
        if self.now.is_empty() && !self.next.is_empty() {
            mem::swap(&mut self.now, &mut self.next);
            self.away += 1;
        }
    }

    // The cell whose turn it is, where any waits.
    fn turn(&mut self) -> Option<Cell>
        requires stamped { IsStamped self.old.grid self.old.stamps.items self.old.base self.old.away }
        requires few { self.old.away + work_left self.old ≤ most_work self.old.grid.size }
        ensures seeking { (ends : Ends) → IsSeekingFrom self.old ends self.old.now.items →
            MatchOption result (IsSeeking self.new.grid ends self.new.stamps.items self.new.base self.new.away [] [])
            (λ front. IsSeekingFrom self.new ends (self.new.now.items ++ front ∷ [])) }
        ensures stamped { IsStamped self.new.grid self.new.stamps.items self.new.base self.new.away }
        ensures grid { self.new.grid ≡ self.old.grid }
        ensures base { self.new.base ≡ self.old.base }
        ensures few { self.new.away + work_left self.new ≤ self.old.away + work_left self.old }
        ensures less { IfSome result (λ _. self.new.away + work_left self.new + 2 ≤ self.old.away + work_left self.old) }
        ensures falls { IfSome result (λ _. work_left self.new + 2 ≤ work_left self.old) }
    {
        self.rise();
        self.now.pop()
    }

    // Goes on until it comes to the start, or no cell waits.
    fn run(&mut self, ends: &Ends) -> Result<Option<u32>, OutOfMemory>
        requires seeking { IsSeekingFrom self.old ends.now self.old.now.items }
        requires few { self.old.away + work_left self.old ≤ most_work self.old.grid.size }
        requires low { self.old.base ≤ MOST_BASE }
        ensures distance { IfOk result (IsDistance self.old.grid ends.now.start ends.now.goal) }
        ensures grid { self.new.grid ≡ self.old.grid }
        ensures at_ease { IsAtEase self.new }
    {
        while let Some(front) = self.turn() {
            if front == ends.start {
                return Ok(Some(steps_between(ends.goal, ends.start) + 2 * self.away));
            }
            self.take(ends, front)?;
        }
        Ok(None)
    }

    // Makes room for stamps above all that there are.
    fn renew(&mut self)
        requires at_ease { IsAtEase self.old }
        ensures fresh { (cell : Point) → Holds self.new.grid.size cell → mark_at self.new.grid.size self.new.stamps.items cell < self.new.base }
        ensures at_ease { IsAtEase self.new }
        ensures grid { self.new.grid ≡ self.old.grid }
        ensures away { self.new.away ≡ 0 }
    {
        let next = self.base + self.away + 1;
        self.away = 0;
        if next <= MOST_BASE {
            self.base = next;
            return;
        }
        wipe(&mut self.stamps);
        self.base = 1;
    }

    // Begins a search at the goal, where that is open.
    fn begin(&mut self, ends: &Ends) -> Result<(), OutOfMemory>
        requires at_ease { IsAtEase self.old }
        requires start { Holds self.old.grid.size ends.now.start }
        requires goal { Holds self.old.grid.size ends.now.goal }
        ensures seeking { OnOk result (IsSeekingFrom self.new ends.now self.new.now.items) }
        ensures few { OnOk result (self.new.away + work_left self.new ≤ most_work self.new.grid.size) }
        ensures grid { self.new.grid ≡ self.old.grid }
        ensures at_ease { IsAtEase self.new }
    {
        self.renew();
        self.now.clear();
        self.next.clear();
        if self.grid.is_open(ends.goal) {
            self.now.push(ends.goal)?;
        }
        Ok(())
    }

    // The distance from the start to the goal.
    pub(crate) fn distance(&mut self, ends: &Ends) -> Result<Option<u32>, OutOfMemory>
        requires at_ease { IsAtEase self.old }
        requires start { Holds self.old.grid.size ends.now.start }
        requires goal { Holds self.old.grid.size ends.now.goal }
        ensures distance { IfOk result (IsDistance self.old.grid ends.now.start ends.now.goal) }
        ensures grid { self.new.grid ≡ self.old.grid }
        ensures at_ease { IsAtEase self.new }
    {
        self.begin(ends)?;
        self.run(ends)
    }
}
