//! A shared desk that is opened, and its snapshots, with too little memory. All other calls of a shared
//! desk are tried by real processes.
ghost use Rattle.desk_shared.specs.Passes.{Owns};

use super::super::build::{desk, drought, leave};
use super::super::scenes::is_scene;
use super::build::share;
use desk_shared::{Pass, ShareFault, SharedDesk};
use std::alloc::Global;
use std::mem::forget;
use std::process::Abort;
use std::sync::Wait;
use test_support::Drought;

// The lines of the desk's scene.
const SCENE: &[&str] = &["agent 3 0,0 2,0"];

// Shares agent 3's desk with so many bytes. The desk comes back where there is no memory. Tells whether it
// did.
fn opens(
    rt: &impl Abort,
    alloc: Global,
    drought: &mut Drought,
    bytes: usize,
) -> (SharedDesk, Pass, bool)
    ensures { Owns result.0 result.1 }
{
    let desk = desk(rt, alloc, SCENE, 10);
    leave(rt, drought, Some(bytes));
    let opened = SharedDesk::open(alloc, desk, 1);
    drought.relieve();
    let back = match opened {
        Ok((shared, pass)) => return (shared, pass, false),
        Err((why, back)) => {
            assert!(rt; why == ShareFault::OutOfMemory && back.version() == 0);
            back
        }
    };
    let (shared, pass) = share(rt, alloc, back, 1);
    (shared, pass, true)
}

// The desk comes back with its scene.
fn closes(rt: &impl Abort, alloc: Global, shared: SharedDesk, pass: Pass)
    requires { Owns shared pass }
{
    let closed = shared.close(pass).expect(rt, "the desk");
    assert!(rt; closed.version() == 0 && is_scene(rt, alloc, closed.scene(), SCENE));
    forget(closed);
}

// Whether a snapshot is refused with so many bytes.
fn is_refused<R: Wait + Abort>(
    rt: &R,
    alloc: Global,
    drought: &mut Drought,
    shared: &SharedDesk,
    pass: &mut Pass,
    bytes: usize,
) -> bool
    requires { Owns shared.now pass.old }
    ensures { Owns shared.now pass.new }
{
    leave(rt, drought, Some(bytes));
    let copied = shared.snapshot(rt, pass);
    drought.relieve();
    match copied {
        Ok(copy) => {
            assert!(rt; copy.version == 0 && is_scene(rt, alloc, &copy.scene, SCENE));
            drop(copy);
            false
        }
        Err(_) => true,
    }
}

// How often a snapshot is refused, with 16 bytes more each time until it isn't.
fn refusals<R: Wait + Abort>(
    rt: &R,
    alloc: Global,
    drought: &mut Drought,
    shared: &SharedDesk,
    pass: &mut Pass,
) -> usize
    requires { Owns shared.now pass.old }
    ensures { Owns shared.now pass.new }
{
    for step in 0..1_000 {
        if !is_refused(rt, alloc, drought, shared, pass, 16 * step) {
            return step;
        }
    }
    panic!(rt; "refused with 16,000 bytes");
}

// After each refusal the turn is free, and the desk can be closed.
#[test]
fn want_of_memory_at_a_shared_desk(rt: HostRuntime) {
    let alloc = rt.alloc();
    let mut drought = drought(&rt, alloc);
    for step in 0..1_000 {
        let (shared, mut pass, back) = opens(&rt, alloc, &mut drought, 16 * step);
        let copies = refusals(&rt, alloc, &mut drought, &shared, &mut pass);
        assert!(rt; copies > 0 && shared.front(&mut pass) == 0);
        closes(&rt, alloc, shared, pass);
        if !back {
            assert!(rt; step > 0);
            drop(drought);
            return;
        }
    }
    panic!(rt; "refused with 16,000 bytes");
}
