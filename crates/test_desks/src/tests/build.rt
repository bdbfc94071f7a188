//! Values for the tests, written short.
ghost use Rattle.std.specs.Prelude.{◌≡◌};

use desk_core::{Commit, Desk, Edit, Limit, Thing};
use grid_cells::{Agent, Cell, Planner};
use std::alloc::Global;
use std::process::Abort;
use test_support::{Drought, edit, scene, thing};

pub fn agent(rt: &impl Abort, number: u32) -> Agent {
    Agent::new(number).expect(rt, "an agent's number")
}

pub fn cell(rt: &impl Abort, x: u32, y: u32) -> Cell {
    Cell::new(x, y).expect(rt, "a cell")
}

pub fn planner(rt: &impl Abort, number: u32) -> Planner {
    Planner::new(number).expect(rt, "a planner")
}

pub fn limit(rt: &impl Abort, entries: u32) -> Limit {
    Limit::new(entries).expect(rt, "a limit")
}

// Adds what the line watches, or its edit.
fn gather(
    rt: &impl Abort,
    alloc: Global,
    line: &str,
    watch: &mut Vec<Thing>,
    edits: &mut Vec<Edit>,
) {
    if let Some(thing) = thing(alloc, line) {
        watch.push(thing).expect(rt, "memory");
    } else {
        let edit = edit(alloc, line).expect(rt, "a watch or an edit");
        edits.push(edit).expect(rt, "memory");
    }
}

/// The commit of that planner on that base, with the watches and edits of the lines.
pub fn commit(rt: &impl Abort, alloc: Global, planner: Planner, base: u64, lines: &[&str]) -> Commit
    ensures { result.planner ≡ planner }
{
    let (mut watch, mut edits) = (Vec::new(alloc), Vec::new(alloc));
    for line in lines {
        gather(rt, alloc, line, &mut watch, &mut edits);
    }
    Commit::new(planner, base, watch, edits)
        .ok()
        .expect(rt, "a commit")
}

/// A desk of an open map of 3 x 1 cells after the edits of the lines.
pub fn desk(rt: &impl Abort, alloc: Global, lines: &[&str], entries: u32) -> Desk {
    let scene = scene(alloc, 3, 1, lines).expect(rt, "a scene");
    Desk::open(alloc, scene, limit(rt, entries))
}

/// All memory but a pool's is taken.
pub fn drought(rt: &impl Abort, alloc: Global) -> Drought {
    Drought::begin(alloc).expect(rt, "memory")
}

/// Leaves so many bytes, or ample memory.
pub fn leave(rt: &impl Abort, drought: &mut Drought, bytes: Option<usize>) {
    if let Some(bytes) = bytes {
        drought.leave(bytes).expect(rt, "memory");
    }
}
