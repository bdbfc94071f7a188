//! Worked examples of repairs.
ghost use Rattle.std.specs.Prelude.{◌≡◌};
ghost use Rattle.grid_cells.specs.Size.{Holds};
ghost use Rattle.goal_fields.specs.Held.{StandFor};

use super::build::{NO, change, change_each, has_row};
use crate::tests::build::{at, open_map};
use goal_fields::{Field, Fields};
use grid_cells::{Cell, Grid, Size};
use std::alloc::Global;
use std::process::Abort;
use test_support::cells_at;

// Whether cells open or close in one repair, which ones, how many cells it takes, and the distances
// after it in the two upper rows.
type Repair = (bool, &'static [(u32, u32)], u64, [&'static [u32]; 2]);

// A map that is open at first, a goal, and repairs. The first one has no cells.
#[derive(Clone, Copy)]
struct Example {
    name: &'static str,
    width: u32,
    height: u32,
    goal: (u32, u32),
    repairs: &'static [Repair],
}

const EXAMPLES: &[Example] = &[
    Example {
        name: "corridor_closed_and_opened",
        width: 5,
        height: 1,
        goal: (4, 0),
        repairs: &[
            (true, &[], 0, [&[4, 3, 2, 1, 0], &[]]),
            (false, &[(2, 0)], 3, [&[NO, NO, NO, 1, 0], &[]]),
            (true, &[(2, 0)], 3, [&[4, 3, 2, 1, 0], &[]]),
        ],
    },
    Example {
        name: "detour_round_a_closed_cell",
        width: 3,
        height: 2,
        goal: (2, 0),
        repairs: &[
            (true, &[], 0, [&[2, 1, 0], &[3, 2, 1]]),
            (false, &[(1, 0)], 3, [&[4, NO, 0], &[3, 2, 1]]),
            (false, &[(1, 0)], 0, [&[4, NO, 0], &[3, 2, 1]]),
        ],
    },
    Example {
        name: "goal_closed_and_opened",
        width: 5,
        height: 1,
        goal: (4, 0),
        repairs: &[
            (true, &[], 0, [&[4, 3, 2, 1, 0], &[]]),
            (false, &[(4, 0)], 5, [&[NO, NO, NO, NO, NO], &[]]),
            (true, &[(4, 0)], 5, [&[4, 3, 2, 1, 0], &[]]),
        ],
    },
    Example {
        name: "two_cells_in_one_repair",
        width: 3,
        height: 2,
        goal: (2, 0),
        repairs: &[
            (false, &[(1, 0), (1, 1)], 4, [&[NO, NO, 0], &[NO, NO, 1]]),
            (true, &[(1, 0)], 3, [&[2, 1, 0], &[3, NO, 1]]),
        ],
    },
    // Closing takes the closed cell once and the start twice.
    Example {
        name: "near_the_start",
        width: 1_024,
        height: 1_024,
        goal: (1_000, 0),
        repairs: &[
            (true, &[], 0, [&[1_000, 999, 998], &[1_001]]),
            (false, &[(1, 0)], 3, [&[1_002, NO, 998], &[1_001]]),
            (true, &[(1, 0)], 2, [&[1_000, 999, 998], &[1_001]]),
        ],
    },
];

// Makes one repair of that example.
fn repair(
    rt: &impl Abort,
    alloc: Global,
    field: &mut Field,
    grid: &mut Grid,
    repair: Repair,
    name: &str,
)
    requires { field.old.grid ≡ grid.old }
    ensures { field.new.grid ≡ grid.new }
{
    let (free, places, count, rows) = repair;
    let cells = cells_at(alloc, places).expect(rt, "cells");
    let taken = change(field, grid, cells.as_slice(), free);
    drop(cells);
    assert!(rt; taken == count, "{name}");
    assert!(rt; has_row(rt, field, 0, rows[0]), "{name}");
    assert!(rt; has_row(rt, field, 1, rows[1]), "{name}");
}

fn run(rt: &impl Abort, alloc: Global, example: Example) {
    let size = Size::new(example.width, example.height).expect(rt, "a size");
    let goal = at(rt, example.goal.0, example.goal.1);
    assert!(rt; size.holds(goal));
    let mut grid = open_map(rt, alloc, size);
    let mut field = Field::new(alloc, &grid, goal).expect(rt, "memory");
    for next in example.repairs {
        repair(rt, alloc, &mut field, &mut grid, *next, example.name);
    }
    drop(field);
    drop(grid);
}

#[test]
fn repairs_by_worked_examples(rt: HostRuntime) {
    for example in EXAMPLES {
        run(&rt, rt.alloc(), *example);
    }
}

// The fields of two goals.
fn fields_of(rt: &impl Abort, alloc: Global, grid: &Grid, one: Cell, other: Cell) -> Fields
    requires one { Holds grid.now.size one }
    requires other { Holds grid.now.size other }
    ensures { StandFor grid.now result.fields }
{
    let fields = Fields::new(alloc).hold(grid, one).expect(rt, "memory");
    fields.hold(grid, other).expect(rt, "memory")
}

// The left goal alone is reached from the left.
fn is_cut(rt: &impl Abort, fields: &Fields, left: Cell, right: Cell) {
    let field = fields.field(left).expect(rt, "a field");
    assert!(rt; field.distance(left) == Some(0));
    assert!(rt; field.distance(at(rt, 1, 0)).is_none());
    assert!(rt; field.distance(right).is_none());
}

// Each of the two goals loses two cells where the middle one closes.
#[test]
fn sum_over_two_goals(rt: HostRuntime) {
    let size = Size::new(3, 1).expect(&rt, "a size");
    let (left, right) = (at(&rt, 0, 0), at(&rt, 2, 0));
    assert!(rt; size.holds(left) && size.holds(right));
    let mut grid = open_map(&rt, rt.alloc(), size);
    let mut fields = fields_of(&rt, rt.alloc(), &grid, right, left);
    assert!(rt; change_each(&mut fields, &mut grid, &[at(&rt, 1, 0)], false) == 4);
    is_cut(&rt, &fields, left, right);
    drop(fields);
    drop(grid);
}
