//! Passes in threads of their own.
ghost use Rattle.desk_shared.specs.Passes.{Owns};

use super::super::build::{commit, desk};
use super::super::scenes::is_scene;
use super::build::{share, split};
use desk_shared::{Pass, SharedDesk};
use std::alloc::Global;
use std::mem::forget;
use std::process::Abort;
use std::sync::Wait;
use std::sync::atomic::{AtomicU64, Ordering};
use std::thread;
use std::thread::{Threads, join};

// How often a thread looks whether the other is as far.
const MOST_TURNS: u32 = 10_000_000;

const SCENE: &[&str] = &["agent 0 0,0 2,0", "agent 1 0,0 2,0"];

fn waited_for(other: &AtomicU64) -> bool {
    for _ in 0..MOST_TURNS {
        if other.load(Ordering::SeqCst) == 1 {
            return true;
        }
        thread::yield_now();
    }
    false
}

// A copy of the scene, held until the other thread has one too.
fn copies<R: Wait + Abort>(
    rt: &R,
    alloc: Global,
    shared: &SharedDesk,
    pass: &mut Pass,
    mine: &AtomicU64,
    other: &AtomicU64,
)
    requires { Owns shared.now pass.old }
    ensures { Owns shared.now pass.new }
{
    let copy = shared.snapshot(rt, pass).expect(rt, "memory");
    mine.store(1, Ordering::SeqCst);
    let waited = waited_for(other);
    assert!(rt; copy.version == 0 && waited);
    assert!(rt; is_scene(rt, alloc, &copy.scene, SCENE));
    forget(copy);
}

// A copy of the scene, and once the other thread has one too, a commit of that agent's goal. The
// number is that of the version that the commit made.
fn plan<R: Wait + Abort>(
    rt: &R,
    alloc: Global,
    shared: &SharedDesk,
    mut pass: Pass,
    line: &str,
    mine: &AtomicU64,
    other: &AtomicU64,
) -> (Pass, u64)
    requires { Owns shared.now pass }
    ensures { Owns shared.now result.0 }
{
    copies(rt, alloc, shared, &mut pass, mine, other);
    let commit = commit(rt, alloc, pass.planner(), 0, &[line]);
    match shared.commit(rt, &mut pass, commit) {
        Ok(version) => (pass, version),
        Err(_) => panic!(rt; "another agent's goal"),
    }
}

// The wrong body turn_held_from_snapshot waits here for ever, and the wrong body
// close_drops_unjoined_entries gives a journal without one of the two.
#[test]
fn two_threads_commit(rt: HostRuntime) {
    let alloc = rt.alloc();
    let (shared, mut first) = share(&rt, alloc, desk(&rt, alloc, SCENE, 10), 3);
    let left = split(&rt, &shared, &mut first);
    let right = split(&rt, &shared, &mut first);
    let (desk, host) = (&shared, &rt);
    let (near, far) = (AtomicU64::new(0), AtomicU64::new(0));
    let (near, far) = (&near, &far);
    let (mut left, right) = join(
        &rt,
        move ||
            requires { Owns desk.now left }
            ensures { Owns desk.entry.now result.0 }
        { plan(host, alloc, desk, left, "goal 0 1,0", near, far) },
        move ||
            requires { Owns desk.now right }
            ensures { Owns desk.entry.now result.0 }
        { plan(host, alloc, desk, right, "goal 1 1,0", far, near) },
    );
    assert!(rt; matches!((left.1, right.1), (1, 2) | (2, 1)));
    let last = shared.reading(&rt, &mut left.0).expect(&rt, "memory");
    assert!(rt; last.version == 2 && last.report.bounds == Some(2));
    forget(last);
    let closed = shared.close(first).expect(&rt, "the desk");
    assert!(rt; closed.journal().len() == 2);
    forget((closed, left.0, right.0));
}
