//! Random changes of small maps, and searches breadth-first and by A* after each.
ghost use Rattle.std.specs.Prelude.{◌≡◌};
ghost use Rattle.grid_cells.specs.Size.{Holds};

use super::build::change;
use crate::tests::build::open_map;
use goal_fields::{AStar, Field, PlainField};
use grid_cells::{Cell, Grid, Size};
use std::alloc::Global;
use std::process::Abort;
use test_support::Chain;

// A cell of the map.
fn pick(rt: &impl Abort, chain: &mut Chain, size: Size) -> Cell
    ensures { Holds size result }
{
    let x = chain.roll(7) as u32 % size.width();
    let y = chain.roll(7) as u32 % size.height();
    size.cell(x, y).expect(rt, "a cell")
}

// What the change count is by its definition, of a cell with those distances before and after.
fn changes(before: Option<u32>, after: Option<u32>) -> u64 {
    let grew = before.is_some() && (after.is_none() || before < after);
    let came = after.is_some() && before != after;
    u64::from(grew) + u64::from(came)
}

// The distance by A*, which is the same the other way.
fn searched(rt: &impl Abort, alloc: Global, grid: &Grid, start: Cell, goal: Cell) -> Option<u32>
    requires start { Holds grid.now.size start }
    requires goal { Holds grid.now.size goal }
{
    let mut search = AStar::new(alloc, grid).expect(rt, "memory");
    let back = search.distance(goal, start).expect(rt, "memory");
    let forth = search.distance(start, goal).expect(rt, "memory");
    drop(search);
    assert!(rt; back == forth);
    forth
}

// Looks at all distances by breadth-first search and by A*, and adds up what has changed since those before, in
// whose place it puts them.
fn compare(
    rt: &impl Abort,
    alloc: Global,
    field: &Field,
    grid: &Grid,
    goal: Cell,
    before: &mut Vec<Option<u32>>,
) -> u64
    requires { Holds grid.now.size goal }
{
    let plain = PlainField::new(alloc, grid, goal).expect(rt, "memory");
    let size = grid.size();
    let mut all = Vec::new(alloc);
    let mut count = 0u64;
    for y in 0..size.height() {
        for x in 0..size.width() {
            let cell = size.cell(x, y).expect(rt, "a cell");
            let distance = plain.distance(cell);
            assert!(rt; searched(rt, alloc, grid, cell, goal) == distance);
            assert!(rt; field.distance(cell) == distance);
            let old = before.get(all.len()).copied().unwrap_or(None);
            count = count.saturating_add(changes(old, distance));
            all.push(distance).expect(rt, "memory");
        }
    }
    drop(plain);
    *before = all;
    count
}

// Opens and closes cells of one map, and looks at each distance and each count.
fn edit_at_random(rt: &impl Abort, alloc: Global, size: Size, chain: &mut Chain) {
    let goal = pick(rt, chain, size);
    let mut grid = open_map(rt, alloc, size);
    let mut field = Field::new(alloc, &grid, goal).expect(rt, "memory");
    let mut before = Vec::new(alloc);
    let _ = compare(rt, alloc, &field, &grid, goal, &mut before);
    for _ in 0..12u32 {
        let cells = [
            pick(rt, chain, size),
            pick(rt, chain, size),
            pick(rt, chain, size),
        ];
        let count = change(&mut field, &mut grid, &cells, chain.roll(3) == 0);
        assert!(rt; count == compare(rt, alloc, &field, &grid, goal, &mut before));
    }
    drop(field);
    drop(grid);
}

#[test]
fn fields_agree_on_random_edits(rt: HostRuntime) {
    let mut chain = Chain::new(1);
    for _ in 0..40u32 {
        let width = chain.roll(7) as u32 + 1;
        let size = Size::new(width, chain.roll(7) as u32 + 1).expect(&rt, "a size");
        edit_at_random(&rt, rt.alloc(), size, &mut chain);
    }
}
