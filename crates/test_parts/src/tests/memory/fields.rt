//! Queues of cells, and fields of distances.
ghost use Rattle.std.specs.Prelude.{◌≡◌};

use super::trials::{Memory, Trial};
use crate::tests::build::{at, open_map, size_of};
use crate::tests::fields::build::{NO, change, has_row};
use cell_queue::CellQueue;
use goal_fields::{Field, Fields};
use grid_cells::Grid;
use std::alloc::Global;
use std::process::Abort;

pub fn three_cells(rt: &impl Abort, alloc: Global, trial: &mut Trial) -> Option<()> {
    let (first, second) = (at(rt, 0, 0), at(rt, 1, 0));
    trial.leave(rt, Memory::Little);
    let queue = CellQueue::new(alloc, size_of(rt, 3, 1));
    let mut queue = trial.met(rt, queue)?;
    trial.leave(rt, Memory::No);
    queue.put(first, 5);
    queue.put(second, 2);
    queue.put(first, 1);
    assert!(rt; queue.take_least() == Some((first, 1)));
    assert!(rt; queue.remove(second) && !queue.remove(at(rt, 3, 0)));
    assert!(rt; queue.take_least() == None && queue.taken() == 1);
    queue.reset();
    assert!(rt; queue.taken() == 0);
    drop(queue);
    trial.met(rt, Ok(()))
}

// The middle cell of five closes and opens again, while there is no memory.
fn closed_and_opened(rt: &impl Abort, field: &mut Field, grid: &mut Grid)
    requires { field.old.grid ≡ grid.old }
{
    let middle = at(rt, 2, 0);
    assert!(rt; has_row(rt, field, 0, &[4, 3, 2, 1, 0]));
    assert!(rt; change(field, grid, &[middle], false) == 3);
    assert!(rt; has_row(rt, field, 0, &[NO, NO, NO, 1, 0]));
    assert!(rt; change(field, grid, &[middle], true) == 3);
    assert!(rt; has_row(rt, field, 0, &[4, 3, 2, 1, 0]));
}

pub fn corridor(rt: &impl Abort, alloc: Global, trial: &mut Trial) -> Option<()> {
    let mut grid = open_map(rt, alloc, size_of(rt, 5, 1));
    trial.leave(rt, Memory::Little);
    let field = Field::new(alloc, &grid, at(rt, 4, 0));
    let mut field = trial.met(rt, field)?;
    trial.leave(rt, Memory::No);
    closed_and_opened(rt, &mut field, &mut grid);
    drop(field);
    trial.met(rt, Ok(()))
}

// The goal (2,0) is held, held again and released, the last two while there is no memory.
pub fn held_twice(rt: &impl Abort, alloc: Global, trial: &mut Trial) -> Option<()> {
    let grid = open_map(rt, alloc, size_of(rt, 3, 1));
    let goal = at(rt, 2, 0);
    trial.leave(rt, Memory::Little);
    let fields = Fields::new(alloc).hold(&grid, goal);
    let fields = trial.met(rt, fields)?;
    trial.leave(rt, Memory::No);
    let mut fields = fields.hold(&grid, goal).expect(rt, "no growth");
    assert!(rt; fields.field(goal).is_some());
    fields.release(goal);
    assert!(rt; fields.field(goal).is_none());
    drop(fields);
    trial.met(rt, Ok(()))
}
