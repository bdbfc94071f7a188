//! Edits of scenes, one by one and in lists, by their rows.
use super::edit_rows::{FAULTY, FLIPS};
use super::scenes::{Answer, corridor, one_made, tried};
use super::trials::{Memory, Trial};
use grid_cells::{Agent, Cell, List};
use plan_table::Mode;
use scene_edits::{Edit, Scene};
use std::alloc::Global;
use std::process::Abort;
use test_support::edits;

/// The lines of one edit or of a list, the memory that they find, and what is answered.
pub type Step = (&'static [&'static str], Memory, &'static [Answer]);

/// A scene's mode, the line of its first edit, and the steps behind it.
pub type Row = (Mode, &'static str, &'static [Step]);

// Makes the edits of the lines, which are answered as is wanted.
fn step(
    rt: &impl Abort,
    alloc: Global,
    trial: &mut Trial,
    scene: &mut Scene,
    (lines, memory, wanted): (&[&str], Memory, &[Answer]),
) {
    let edits = edits(alloc, lines).expect(rt, "edits");
    let before = scene.copy().expect(rt, "memory");
    tried(rt, trial, scene, &before, edits.as_slice(), memory, wanted);
    drop(before);
    drop(edits);
}

// Goes through the steps of a row.
fn run(rt: &impl Abort, alloc: Global, trial: &mut Trial, (mode, first, steps): Row) {
    let mut scene = corridor(rt, alloc, mode, first);
    for (lines, memory, wanted) in steps {
        step(rt, alloc, trial, &mut scene, (lines, *memory, wanted));
    }
    drop(scene);
}

/// Goes through the rows.
pub fn run_all(rt: &impl Abort, alloc: Global, trial: &mut Trial, rows: &[Row]) {
    for row in rows {
        run(rt, alloc, trial, *row);
    }
}

// Agent 0 gets a path of so many cells, all where it starts, and is nowhere else than before.
fn rests(rt: &impl Abort, alloc: Global, scene: &mut Scene, many: usize) {
    let start = Cell::new(0, 0).expect(rt, "a cell");
    let cells = List::new(vec![in alloc; start; many].expect(rt, "memory"));
    let edit = Edit::Path {
        agent: Agent::LEAST,
        cells,
    };
    let made = one_made(rt, scene, &edit, &[("moved", None, None)]);
    assert!(rt; made.is_ok());
}

#[test]
fn flips_and_rests(rt: HostRuntime) {
    let alloc = rt.alloc();
    let mut trial = Trial::begin(&rt, alloc);
    run(&rt, alloc, &mut trial, FLIPS);
    let mut scene = corridor(&rt, alloc, Mode::Stay, "agent 0 0,0 2,0");
    rests(&rt, alloc, &mut scene, 65_537);
    drop(scene);
    drop(trial);
}

// With no memory an edit is refused by its fault or for want of memory, with ample memory by its fault.
#[test]
fn each_edit_fault(rt: HostRuntime) {
    let alloc = rt.alloc();
    let mut trial = Trial::begin(&rt, alloc);
    let mut scene = corridor(&rt, alloc, Mode::Stay, "agent 0 0,0 2,0");
    for (line, fault) in FAULTY {
        let wanted = [("refused", None, Some(*fault))];
        let row: (&[&str], Memory, &[Answer]) = (&[*line], Memory::Wanting, &wanted);
        step(&rt, alloc, &mut trial, &mut scene, row);
    }
    drop(scene);
    drop(trial);
}
