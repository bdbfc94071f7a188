//! Reading of scenarios.
use super::tasks::scene_of;
use super::trials::{Memory, Trial};
use crate::tests::build::size_of;
use bench_reader::{ScenFault, Task, read_scen};
use grid_cells::{List, OutOfMemory};
use std::alloc::Global;
use std::process::Abort;
use test_support::are_at;

const ONE: &[u8] = b"version 1\n0\tm.map\t3\t2\t0\t0\t2\t1\t3.00000000";

// Faults in the line after a good one.
const FAULTY: &[(&[u8], ScenFault)] = &[
    (
        b"version 1\n0 m 3 2 0 0 2 1 1\n0 m 3 2 3 0 2 1 1\n",
        ScenFault::OutOfMap { line: 3, field: 5 },
    ),
    (
        b"version 1\n0 m 3 2 0 0 2 1 1\n0 m 3 2 0 -1 2 1 1\n",
        ScenFault::BadNumber { line: 3, field: 6 },
    ),
    (
        b"version 1\n0 m 3 2 0 0 2 1 1\n0 m 3 2 0 0 2 1\n",
        ScenFault::FieldCount { line: 3 },
    ),
    (
        b"version 1\n0 m 3 2 0 0 2 1 1\n0 m 4 2 0 0 2 1 1\n",
        ScenFault::SizeMismatch { line: 3 },
    ),
];

// Faults in the first lines.
const FAULTY_AT_ONCE: &[(&[u8], ScenFault)] = &[
    (b"", ScenFault::BadVersion),
    (b"version 2\n", ScenFault::BadVersion),
    (
        b"version 1\n0 m 3 2 3 0 2 1 1\n",
        ScenFault::OutOfMap { line: 2, field: 5 },
    ),
    (
        b"version 1\n0 m 3 2 0 -1 2 1 1\n",
        ScenFault::BadNumber { line: 2, field: 6 },
    ),
    (
        b"version 1\n0 m 3 2 0 0 2 1\n",
        ScenFault::FieldCount { line: 2 },
    ),
];

// The text has tasks for a map of 3 x 2 cells, or that fault; or memory is wanting.
fn told(
    rt: &impl Abort,
    alloc: Global,
    text: &[u8],
    wanted: Option<ScenFault>,
) -> Result<Option<List<Task>>, OutOfMemory> {
    match read_scen(alloc, text, size_of(rt, 3, 2)) {
        Ok(tasks) => {
            assert!(rt; wanted.is_none());
            Ok(Some(tasks))
        }
        Err(ScenFault::OutOfMemory) => Err(OutOfMemory),
        Err(fault) => {
            assert!(rt; wanted == Some(fault));
            Ok(None)
        }
    }
}

// The same, by a second try where the first finds no memory.
fn tasks_of(
    rt: &impl Abort,
    alloc: Global,
    trial: &mut Trial,
    memory: Memory,
    (text, wanted): (&[u8], Option<ScenFault>),
) -> Option<List<Task>> {
    trial.leave(rt, memory);
    let answer = told(rt, alloc, text, wanted);
    match trial.met(rt, answer) {
        Some(answer) => answer,
        None => told(rt, alloc, text, wanted).expect(rt, "memory"),
    }
}

// One task, from (0,0) to (2,1), as bucket 0.
fn is_one_task(tasks: &[Task]) -> bool {
    match tasks {
        [task] => task.bucket == 0 && are_at(&[task.start, task.goal], &[(0, 0), (2, 1)]),
        _ => false,
    }
}

pub fn tasks(rt: &impl Abort, alloc: Global, trial: &mut Trial) {
    let tasks = tasks_of(rt, alloc, trial, Memory::Little, (ONE, None)).expect(rt, "tasks");
    assert!(rt; is_one_task(tasks.items()));
    scene_of(rt, alloc, trial, tasks.items());
    for (text, fault) in FAULTY {
        let none = tasks_of(rt, alloc, trial, Memory::Little, (text, Some(*fault)));
        assert!(rt; none.is_none());
    }
}

// With no memory at all a fault is that of the row, or want of memory; with enough it is that of the row.
#[test]
fn faults_of_scenarios_without_memory(rt: HostRuntime) {
    let mut trial = Trial::begin(&rt, rt.alloc());
    for (text, fault) in FAULTY_AT_ONCE {
        for memory in [Memory::Wanting, Memory::Ample] {
            let none = tasks_of(&rt, rt.alloc(), &mut trial, memory, (text, Some(*fault)));
            assert!(rt; none.is_none());
        }
    }
    drop(trial);
}
