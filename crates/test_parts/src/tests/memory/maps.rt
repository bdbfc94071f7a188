//! Reading and writing of maps.
use super::trials::{Memory, Trial};
use bench_reader::{MapFault, read_map, write_map};
use grid_cells::{Grid, OutOfMemory};
use std::alloc::Global;
use std::process::Abort;

const LETTERS: &[u8] = b"type octile\r\nheight 1\r\nwidth 7\r\nmap\r\n.GS@OTW\r\n";

const WRITTEN: &[u8] = b"type octile\nheight 1\nwidth 7\nmap\n...@@@@\n";

// Texts whose fault is found after the map's room is made.
const FAULTY: &[(&[u8], MapFault)] = &[
    (
        b"type octile\nheight 1\nwidth 2\nmap\n.x\n",
        MapFault::BadLetter { row: 0, col: 1 },
    ),
    (
        b"type octile\nheight 1\nwidth 2\nmap\n...\n",
        MapFault::LongRow { row: 0 },
    ),
    (
        b"type octile\nheight 2\nwidth 3\nmap\n...\n..",
        MapFault::ShortRow { row: 1 },
    ),
    (
        b"type octile\nheight 2\nwidth 3\nmap\n...\n",
        MapFault::MissingRow { row: 1 },
    ),
    (
        b"type octile\nheight 1\nwidth 3\nmap\n...\nx\n",
        MapFault::ExtraLine { line: 6 },
    ),
];

// Texts whose fault is found before any memory is taken.
const FAULTY_AT_ONCE: &[(&[u8], MapFault)] = &[
    (b"", MapFault::NotOctile),
    (b"type tile\n", MapFault::NotOctile),
    (b"type octile\nwidth 3\n", MapFault::BadHeader { line: 2 }),
    (
        b"type octile\nheight 1\nwidth 3 3\n",
        MapFault::BadHeader { line: 3 },
    ),
    (b"type octile\nheight 0\nwidth 3\nmap\n", MapFault::BadSize),
    (
        b"type octile\nheight 2048\nwidth 513\nmap\n",
        MapFault::BadSize,
    ),
];

/// Whether the map is written as that text.
pub fn is_map(rt: &impl Abort, alloc: Global, grid: &Grid, text: &[u8]) -> bool {
    let written = write_map(alloc, grid).expect(rt, "memory");
    written.as_slice() == text
}

// The text is a map, which is told by its text, or has that fault; or memory is wanting.
fn map_told(
    rt: &impl Abort,
    alloc: Global,
    text: &[u8],
    wanted: Option<MapFault>,
) -> Result<Option<Grid>, OutOfMemory> {
    match read_map(alloc, text) {
        Ok(grid) => {
            assert!(rt; wanted.is_none());
            Ok(Some(grid))
        }
        Err(MapFault::OutOfMemory) => Err(OutOfMemory),
        Err(fault) => {
            assert!(rt; wanted == Some(fault));
            Ok(None)
        }
    }
}

// The same, by a second try where the first finds no memory.
fn map_of(
    rt: &impl Abort,
    alloc: Global,
    trial: &mut Trial,
    text: &[u8],
    wanted: Option<MapFault>,
) -> Option<Grid> {
    trial.leave(rt, Memory::Little);
    let answer = map_told(rt, alloc, text, wanted);
    match trial.met(rt, answer) {
        Some(answer) => answer,
        None => map_told(rt, alloc, text, wanted).expect(rt, "memory"),
    }
}

// The map is written as that text, by a second try where the first finds no memory.
fn is_written(rt: &impl Abort, alloc: Global, trial: &mut Trial, grid: &Grid, text: &[u8]) {
    trial.leave(rt, Memory::Little);
    let written = write_map(alloc, grid);
    let written = match trial.met(rt, written) {
        Some(written) => written,
        None => write_map(alloc, grid).expect(rt, "memory"),
    };
    assert!(rt; written.as_slice() == text);
}

pub fn letters(rt: &impl Abort, alloc: Global, trial: &mut Trial) {
    let grid = map_of(rt, alloc, trial, LETTERS, None).expect(rt, "a map");
    is_written(rt, alloc, trial, &grid, WRITTEN);
    drop(grid);
    for (text, fault) in FAULTY {
        let none = map_of(rt, alloc, trial, text, Some(*fault));
        assert!(rt; none.is_none());
    }
}

#[test]
fn faults_of_maps_without_memory(rt: HostRuntime) {
    let alloc = rt.alloc();
    let mut trial = Trial::begin(&rt, alloc);
    trial.leave(&rt, Memory::Wanting);
    for (text, fault) in FAULTY_AT_ONCE {
        assert!(rt; read_map(alloc, text).err() == Some(*fault));
    }
    assert!(rt; read_map(alloc, LETTERS).err() == Some(MapFault::OutOfMemory));
    assert!(rt; trial.met(&rt, Ok(())).is_some());
    assert!(rt; read_map(alloc, LETTERS).is_ok());
    drop(trial);
}
