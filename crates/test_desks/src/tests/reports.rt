//! The report of a ring with a second mover, with too little memory for an edit of it.
use super::build::{commit, drought, leave, planner};
use desk_core::{Commit, Desk, Limit, Refusal};
use plan_table::Mode;
use std::alloc::Global;
use std::mem::forget;
use std::process::Abort;
use test_support::{Drought, scene, text_of};

// Agents 0 to 3 go round in step 0, and agent 4 goes along with agent 0. Each has the end of its
// path as its goal.
const RING_WITH_SECOND_MOVER: &[&str] = &[
    "agent 0 0,0 1,0",
    "agent 1 1,0 1,1",
    "agent 2 1,1 0,1",
    "agent 3 0,1 0,0",
    "agent 4 0,0 1,0",
    "path 0 0,0 1,0",
    "path 1 1,0 1,1",
    "path 2 1,1 0,1",
    "path 3 0,1 0,0",
    "path 4 0,0 1,0",
];

/// Its report.
pub const TEXT: &str =
    "agents 5\nagent 0 settle 1 goal yes bound 1 gap 0\nagent 1 settle 1 goal yes bound 1 gap 0\nagent 2 settle 1 goal yes bound 1 gap 0\nagent 3 settle 1 goal yes bound 1 gap 0\nagent 4 settle 1 goal yes bound 1 gap 0\nconflicts 9\nvertex 0 0 4 0,0\nparked 1 0 4 1,0\nedge 0 0 4 0,0 1,0\nfollow 0 0 1 1,0\nfollow 0 1 2 1,1\nfollow 0 2 3 0,1\nfollow 0 3 0 0,0\nfollow 0 3 4 0,0\nfollow 0 4 1 1,0\nblocked 0\nsum 5\nmakespan 1\nbounds 5\ngap 0\nend\n";

// The same after agent 4 has left.
const AFTER: &str =
    "agents 4\nagent 0 settle 1 goal yes bound 1 gap 0\nagent 1 settle 1 goal yes bound 1 gap 0\nagent 2 settle 1 goal yes bound 1 gap 0\nagent 3 settle 1 goal yes bound 1 gap 0\nconflicts 5\nfollow 0 0 1 1,0\nfollow 0 1 2 1,1\nfollow 0 2 3 0,1\nfollow 0 3 0 0,0\ncycle 0 0 1 2 3\nblocked 0\nsum 4\nmakespan 1\nbounds 4\ngap 0\nend\n";

/// The desk's report has that text.
pub fn reads(rt: &impl Abort, alloc: Global, desk: &mut Desk, text: &str) {
    let reading = desk.reading().expect(rt, "memory");
    let told = text_of(alloc, &reading.report).expect(rt, "memory");
    drop(reading);
    assert!(rt; told.as_slice() == text.as_bytes());
    drop(told);
}

/// A desk of the ring on a map of 2 x 2 open cells.
pub fn ring(rt: &impl Abort, alloc: Global, mode: Mode) -> Desk {
    let scene = scene(alloc, 2, 2, RING_WITH_SECOND_MOVER).expect(rt, "a scene");
    let limit = Limit::new(100).expect(rt, "a limit");
    Desk::open(alloc, scene.with_mode(mode), limit)
}

/// Why the commit of the lines on that base is refused, if it is.
pub fn refusal(
    rt: &impl Abort,
    alloc: Global,
    desk: &mut Desk,
    base: u64,
    lines: &[&str],
) -> Option<Refusal> {
    let commit = commit(rt, alloc, planner(rt, 0), base, lines);
    match desk.commit(commit) {
        Ok(_) => None,
        Err((why, back)) => {
            forget(back);
            Some(why)
        }
    }
}

// Whether a commit was accepted, or else there was want of memory.
fn is_accepted(rt: &impl Abort, answer: Result<u64, (Refusal, Commit)>) -> bool {
    match answer {
        Ok(_) => true,
        Err((why, back)) => {
            assert!(rt; why == Refusal::OutOfMemory);
            forget(back);
            false
        }
    }
}

// Whether a commit that drops agent 4 with so many bytes was refused; the report is then as it was, from
// the same indexes, and the commit is accepted with ample memory.
fn is_refused(
    rt: &impl Abort,
    alloc: Global,
    drought: &mut Drought,
    desk: &mut Desk,
    bytes: usize,
) -> bool {
    let commit = commit(rt, alloc, planner(rt, 0), 0, &["drop 4"]);
    leave(rt, drought, Some(bytes));
    let answer = desk.commit(commit);
    drought.relieve();
    if is_accepted(rt, answer) {
        return false;
    }
    reads(rt, alloc, desk, TEXT);
    assert!(rt; desk.rebuilds() == 1);
    let again = refusal(rt, alloc, desk, 0, &["drop 4"]);
    assert!(rt; again.is_none());
    true
}

// What came of a commit that drops agent 4 at a desk that was read, and of a reading after it: whether
// it was refused, and how often the indexes were built.
fn came(rt: &impl Abort, alloc: Global, drought: &mut Drought, bytes: usize) -> (bool, u64) {
    let mut desk = ring(rt, alloc, Mode::Stay);
    reads(rt, alloc, &mut desk, TEXT);
    let is_refused = is_refused(rt, alloc, drought, &mut desk, bytes);
    reads(rt, alloc, &mut desk, AFTER);
    let builds = desk.rebuilds();
    drop(desk);
    (is_refused, builds)
}

// The indexes that couldn't follow an accepted commit are built once more; others never.
#[test]
fn refused_growth_keeps_the_report_and_ring_again_after_a_drop(rt: HostRuntime) {
    let alloc = rt.alloc();
    let mut drought = drought(&rt, alloc);
    let (mut refused, mut unfollowed) = (false, false);
    for step in 0..1_000 {
        match came(&rt, alloc, &mut drought, 16 * step) {
            (true, 1) => refused = true,
            (false, 2) => unfollowed = true,
            came => {
                assert!(rt; came == (false, 1) && refused && unfollowed);
                drop(drought);
                return;
            }
        }
    }
    panic!(rt; "refused with 16,000 bytes");
}
