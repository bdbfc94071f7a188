//! Scenes under edits, one by one and in lists: what they change, and that a scene is what it was where
//! they are refused.
use super::trials::{Memory, Trial};
use grid_cells::{Cell, OutOfMemory};
use plan_table::{Mode, Plans};
use scene_edits::{ApplyFault, Change, Edit, EditFault, EditsFault, Scene};
use std::alloc::Global;
use std::process::Abort;
use test_support::scene;

/// What an edit changes: of a goal with the column that it had, of a path with the time since when it is
/// another. Or `refused`, of a list with the index of the edit that is why, and the fault.
pub type Answer = (&'static str, Option<u32>, Option<EditFault>);

/// The scene of the map of 3 x 1 cells, all open, after the edit of a line.
pub fn corridor(rt: &impl Abort, alloc: Global, mode: Mode, line: &str) -> Scene {
    scene(alloc, 3, 1, &[line])
        .expect(rt, "a scene")
        .with_mode(mode)
}

// Whether the tables have the same rows.
fn same_rows(left: &Plans, right: &Plans) -> bool {
    if left.count() != right.count() {
        return false;
    }
    for rank in 0..left.count().min(right.count()) {
        let (agent, row) = left.entry_at(rank);
        let (other, same) = right.entry_at(rank);
        if agent != other || row.goal != same.goal || row.plan.cells() != same.plan.cells() {
            return false;
        }
    }
    true
}

// Whether the scenes are the same: their modes, their rows, and the state of the middle cell of 3 x 1,
// which is the only one that an edit names.
fn alike(rt: &impl Abort, left: &Scene, right: &Scene) -> bool {
    let middle = Cell::new(1, 0).expect(rt, "a cell");
    let (one, other) = (left.grid(), right.grid());
    assert!(rt; one.size().holds(middle) && other.size().holds(middle));
    one.size() == other.size()
        && one.is_open(middle) == other.is_open(middle)
        && left.mode() == right.mode()
        && same_rows(left.plans(), right.plans())
}

fn told(change: &Change) -> Answer {
    match change {
        Change::Added { .. } => ("added", None, None),
        Change::Dropped { .. } => ("dropped", None, None),
        Change::Aimed { old_goal, .. } => ("aimed", Some(old_goal.x()), None),
        Change::Moved { since, .. } => ("moved", *since, None),
        Change::Flipped { .. } => ("flipped", None, None),
        Change::Same { .. } => ("same", None, None),
    }
}

// Whether that answer is wanted in that place.
fn is_wanted(answer: Answer, wanted: &[Answer], place: usize) -> bool {
    match wanted.get(place) {
        Some(right) => answer.0 == right.0 && answer.1 == right.1 && answer.2 == right.2,
        None => false,
    }
}

/// Makes one edit, which is answered as is wanted, or is refused for want of memory.
pub fn one_made(
    rt: &impl Abort,
    scene: &mut Scene,
    edit: &Edit,
    wanted: &[Answer],
) -> Result<(), OutOfMemory> {
    let answer = match scene.apply(edit) {
        Ok(change) => told(&change),
        Err(ApplyFault::Fault(fault)) => ("refused", None, Some(fault)),
        Err(ApplyFault::OutOfMemory) => return Err(OutOfMemory),
    };
    assert!(rt; is_wanted(answer, wanted, 0));
    Ok(())
}

// The changes are those that are wanted.
fn are_wanted(rt: &impl Abort, changes: &[Change], wanted: &[Answer]) {
    assert!(rt; changes.len() == wanted.len());
    let mut place = 0usize;
    for change in changes {
        assert!(rt; is_wanted(told(change), wanted, place));
        place = place.saturating_add(1);
    }
}

// Makes all edits or none, which is answered as is wanted, or is refused for want of memory.
fn all_made(
    rt: &impl Abort,
    scene: &mut Scene,
    edits: &[Edit],
    wanted: &[Answer],
) -> Result<(), OutOfMemory> {
    match scene.apply_all(edits) {
        Ok(changes) => are_wanted(rt, changes.items(), wanted),
        Err(EditsFault::Faulty { index, why }) => {
            let answer = ("refused", u32::try_from(index).ok(), Some(why));
            assert!(rt; is_wanted(answer, wanted, 0));
        }
        Err(EditsFault::OutOfMemory) => return Err(OutOfMemory),
    }
    Ok(())
}

fn made(
    rt: &impl Abort,
    scene: &mut Scene,
    edits: &[Edit],
    wanted: &[Answer],
) -> Result<(), OutOfMemory> {
    match edits {
        [edit] => one_made(rt, scene, edit, wanted),
        _ => all_made(rt, scene, edits, wanted),
    }
}

/// Makes the edits. Where the first try finds no memory, or they have a fault, the scene is what it was;
/// the second one is answered as is wanted.
pub fn tried(
    rt: &impl Abort,
    trial: &mut Trial,
    scene: &mut Scene,
    before: &Scene,
    edits: &[Edit],
    memory: Memory,
    wanted: &[Answer],
) {
    let is_faulty = match wanted.first() {
        Some(answer) => answer.0 == "refused",
        None => false,
    };
    trial.leave(rt, memory);
    let answer = made(rt, scene, edits, wanted);
    if trial.met(rt, answer).is_none() || is_faulty {
        assert!(rt; alike(rt, scene, before));
        made(rt, scene, edits, wanted).expect(rt, "memory");
    }
    assert!(rt; !is_faulty || alike(rt, scene, before));
}

/// The copy of a scene, by the second try where the first finds no memory.
pub fn copied(rt: &impl Abort, alloc: Global, trial: &mut Trial) {
    let scene = corridor(rt, alloc, Mode::Disappear, "agent 3 0,0 2,0");
    trial.leave(rt, Memory::Little);
    let copy = scene.copy();
    let copy = match trial.met(rt, copy) {
        Some(copy) => copy,
        None => scene.copy().expect(rt, "memory"),
    };
    assert!(rt; alike(rt, &scene, &copy));
    assert!(rt; copy.mode() == Mode::Disappear && copy.plans().count() == 1);
    drop(copy);
    drop(scene);
}
