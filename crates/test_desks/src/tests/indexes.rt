//! How often a desk builds its indexes.
use super::reports::{TEXT, reads, refusal, ring};
use desk_core::{Desk, EditFault, Refusal};
use plan_table::Mode;
use std::alloc::Global;
use std::process::Abort;

// Commits, in their order, each of which is accepted or not; the last ones bring the ring back. A base
// is so many versions behind.
const COMMITS: &[(u64, &[&str], bool)] = &[
    (0, &["goal 4 1,0"], true),
    (0, &["goal 4 1,0"], true),
    (0, &["goal 4 0,1", "path 0 0,0 2,0"], false),
    (1, &["watch agent 4", "close 1,1"], false),
    (0, &["path 4 0,0 0,1 1,1"], true),
    (0, &["tail 4 1 0,0 0,0"], true),
    (0, &["close 1,1", "close 0,0"], true),
    (0, &["open 1,1"], true),
    (0, &["drop 4"], true),
    (0, &["drop 4"], false),
    (0, &["agent 4 0,1 1,1", "path 4 0,1 0,1 1,1"], true),
    (0, &["path 4 0,1 1,1", "path 4 0,1"], true),
    (0, &["drop 0", "agent 0 1,1 0,0", "drop 1"], true),
    (0, &["drop 0", "drop 4", "open 0,0"], true),
    (0, &RING_WITH_SECOND_MOVER_AGAIN, true),
];

const RING_WITH_SECOND_MOVER_AGAIN: [&str; 6] = [
    "agent 4 0,0 1,0",
    "agent 1 1,0 1,1",
    "agent 0 0,0 1,0",
    "path 1 1,0 1,1",
    "path 0 0,0 1,0",
    "path 4 0,0 1,0",
];

// Makes the commits, and reads after each of them.
fn commits(rt: &impl Abort, alloc: Global, desk: &mut Desk) {
    for (behind, lines, is_accepted) in COMMITS {
        let base = desk.version().saturating_sub(*behind);
        let refusal = refusal(rt, alloc, desk, base, lines);
        assert!(rt; refusal.is_none() == *is_accepted);
        let reading = desk.reading().expect(rt, "memory");
        assert!(rt; reading.version == desk.version());
        drop(reading);
    }
}

// After each commit that is accepted or refused the report is from the same indexes.
#[test]
fn indexes_built_once_for_all_edits(rt: HostRuntime) {
    let alloc = rt.alloc();
    for mode in [Mode::Disappear, Mode::Stay] {
        let mut desk = ring(&rt, alloc, mode);
        commits(&rt, alloc, &mut desk);
        assert!(rt; desk.rebuilds() == 1 && desk.version() == 12);
        if mode == Mode::Stay {
            reads(&rt, alloc, &mut desk, TEXT);
        }
        drop(desk);
    }
}

// A commit with a fault, and three that are accepted, each with a reading behind it.
// The wrong body rebuild_at_each_commit builds them four times.
#[test]
fn faulty_commit_keeps_indexes(rt: HostRuntime) {
    let alloc = rt.alloc();
    let mut desk = ring(&rt, alloc, Mode::Stay);
    assert!(rt; desk.rebuilds() == 0);
    reads(&rt, alloc, &mut desk, TEXT);
    let fault = refusal(&rt, alloc, &mut desk, 0, &["goal 4 1,0", "path 0 0,0 2,0"]);
    let why = EditFault::OutOfMap;
    assert!(rt; fault == Some(Refusal::Faulty { index: 1, why }));
    reads(&rt, alloc, &mut desk, TEXT);
    for base in 0..3 {
        let refusal = refusal(&rt, alloc, &mut desk, base, &["goal 4 1,0"]);
        assert!(rt; refusal.is_none());
        reads(&rt, alloc, &mut desk, TEXT);
    }
    assert!(rt; desk.rebuilds() == 1);
    drop(desk);
}
