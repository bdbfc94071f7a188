ghost use Rattle.std.specs.Prelude.{◌≡◌, ◌<◌, ◌≤◌, ◌-◌, ◌↔◌, Some, IfOk, IfErr, IfSome, OnOk, IfNone, IsTrue, length};
ghost use Rattle.plan_table.specs.Path.{place, last_index, AllStepsBelow, IsWalkable, IsPath, IsPathOf, SamePlaces, IsSameFront, EndsInWait};
ghost use Rattle.plan_table.specs.PlanFault.{Explains};

use grid_cells::{Cell, OutOfMemory, Step};
use std::marker::Model;

/// The greatest last index of a path.
pub const MOST_LAST_INDEX: u32 = 131_071;

/// Why a list of cells is no plan, the first that holds: it has no cell; its last index is above
/// MOST_LAST_INDEX; the cell at `at` is the first that is no step from the one before.
#[derive(Clone, Copy, Debug, PartialEq, Eq)]
pub enum PlanFault {
    EmptyPath,
    TooLong,
    NotAStep { at: u32 },
}

/// An agent's path, with no wait at its end.
#[derive(Debug, Drop)]
pub struct Plan {
    cells: Vec<Cell>,
}

impl Model for Plan {
    ghost use Rattle.std.specs.Prelude.{List};
    ghost use Rattle.grid_cells.specs.Cell.{Point};
    ghost use Rattle.plan_table.specs.Path.{IsPath};

    ghost Value = { List Point };

    ghost view = { λ p. p.cells.items };

    ghost invariant = { λ p. IsPath p.cells.items };
}

impl Plan {
    /// The path of the cells: the same places (Stern et al. 2019), without the waits at their end.
    ///
    /// # Errors
    ///
    /// The first fault of the cells, and the cells as they were handed in.
    pub fn new(cells: Vec<Cell>) -> Result<Plan, (PlanFault, Vec<Cell>)>
        ensures walkable { OnOk result (IsWalkable cells.items) }
        ensures path { IfOk result (λ plan. IsPathOf cells.items plan) }
        ensures fault { IfErr result (λ e. Explains cells.items e.0) }
        ensures handed_back { IfErr result (λ e. e.1.items ≡ cells.items) }
    {
        Plan::with_known_steps(cells, 0)
    }

    /// The path of the cells, as `new` makes it, without a look at the steps to the first `known` cells.
    ///
    /// # Errors
    ///
    /// The first fault of the cells, and the cells as they were handed in.
    pub fn with_known_steps(cells: Vec<Cell>, known: u32) -> Result<Plan, (PlanFault, Vec<Cell>)>
        requires { AllStepsBelow cells.items known }
        ensures walkable { OnOk result (IsWalkable cells.items) }
        ensures path { IfOk result (λ plan. IsPathOf cells.items plan) }
        ensures fault { IfErr result (λ e. Explains cells.items e.0) }
        ensures handed_back { IfErr result (λ e. e.1.items ≡ cells.items) }
    {
        match fault_in(&cells, known) {
            Some(fault) => Err((fault, cells)),
            None => Ok(Plan {
                cells: without_waits(cells),
            }),
        }
    }

    /// Where the path is at the time: it rests at its last cell.
    pub fn at(&self, time: Step) -> Cell
        ensures { place self.now time ≡ Some result }
    {
        let last = self.cells.len() - 1;
        let index = (time.number() as usize).min(last);
        self.cells[index]
    }

    /// The index of the last cell.
    pub fn last(&self) -> u32
        ensures is { result ≡ last_index self.now }
        ensures bound { result ≤ MOST_LAST_INDEX }
        ensures path { IsPath self.now }
    {
        (self.cells.len() - 1) as u32
    }

    /// The cells of the path, from index 0 to its last index.
    pub fn cells(&self) -> &[Cell]
        ensures is { result.now ≡ self.now }
        ensures path { IsPath self.now }
    {
        &self.cells
    }

    /// How many cells the two paths begin with alike. It compares them from the time on below which
    /// they are known to be in the same cells.
    pub fn same_front(&self, other: &Plan, known: u32) -> u32
        requires { SamePlaces self.now other.now known }
        ensures { IsSameFront self.now other.now result }
    {
        same_front(&self.cells, &other.cells, known as usize) as u32
    }

    /// An equal plan.
    pub fn copy(&self) -> Result<Plan, OutOfMemory>
        ensures { IfOk result (λ plan. plan ≡ self.now) }
    {
        Ok(Plan {
            cells: self.cells.clone()?,
        })
    }
}

// The first fault of the cells, if they have one, where the steps to the first `known` are known.
fn fault_in(cells: &[Cell], known: u32) -> Option<PlanFault>
    requires { AllStepsBelow cells.now known }
    ensures fault { IfSome result (Explains cells.now) }
    ensures none { IfNone result (IsWalkable cells.now) }
{
    if cells.is_empty() {
        return Some(PlanFault::EmptyPath);
    }
    if cells.len() - 1 > MOST_LAST_INDEX as usize {
        return Some(PlanFault::TooLong);
    }
    for at in (known as usize).max(1)..cells.len() {
        if !cells[at - 1].is_step_to(cells[at]) {
            return Some(PlanFault::NotAStep { at: at as u32 });
        }
    }
    None
}

// The cells without the waits at their end.
fn without_waits(mut cells: Vec<Cell>) -> Vec<Cell>
    requires { IsWalkable cells.items }
    ensures { IsPathOf cells.items result.items }
{
    while ends_in_wait(&cells) {
        cells.pop();
    }
    cells
}

// Whether the last cell is the one before it.
fn ends_in_wait(cells: &[Cell]) -> bool
    ensures { IsTrue result ↔ EndsInWait cells.now }
{
    match cells {
        [.., before, last] => before == last,
        _ => false,
    }
}

// How many cells the two lists begin with alike, compared from the time on below which they are known
// to be in the same cells. Thirty-two are compared at once.
fn same_front(one: &[Cell], other: &[Cell], known: usize) -> usize
    requires { SamePlaces one.now other.now known }
    ensures { IsSameFront one.now other.now result }
{
    let end = one.len().min(other.len());
    let mut front = known.min(end);
    while front + 32 <= end && are_same(&one[front..front + 32], &other[front..front + 32]) {
        front += 32;
    }
    while front < end && one[front] == other[front] {
        front += 1;
    }
    front
}

// Whether the two lists are the same. Each cell is read, so that the compiler may compare many at once.
fn are_same(one: &[Cell], other: &[Cell]) -> bool
    requires { length one.now ≡ length other.now }
    ensures { IsTrue result ↔ (one.now ≡ other.now) }
{
    let mut same = true;
    for at in 0..one.len() {
        let (left, right) = (one[at], other[at]);
        same &= left == right;
    }
    same
}
