//! One thread, and one pass or several.
ghost use Rattle.desk_shared.specs.Passes.{Owns};

use super::super::build::{agent, cell, commit, desk};
use super::super::scenes::is_scene;
use super::build::{share, split};
use desk_core::{AskFault, Refusal};
use desk_shared::{Pass, ShareFault, SharedDesk, SplitFault};
use std::alloc::Global;
use std::mem::forget;
use std::process::Abort;
use std::sync::Wait;

const SCENE: &[&str] = &["agent 3 0,0 2,0"];

const CLOSED: &[&str] = &["agent 3 0,0 2,0", "close 1,0"];

// The desk comes back where it isn't for so many planners.
fn is_for_none(rt: &impl Abort, alloc: Global, planners: u32) {
    match SharedDesk::open(alloc, desk(rt, alloc, SCENE, 10), planners) {
        Ok(shared) => {
            forget(shared);
            panic!(rt; "too many planners, or none");
        }
        Err((fault, back)) => {
            assert!(rt; fault == ShareFault::BadPlanners);
            forget(back);
        }
    }
}

#[test]
fn shared_by_none_and_by_too_many(rt: HostRuntime) {
    is_for_none(&rt, rt.alloc(), 0);
    is_for_none(&rt, rt.alloc(), 257);
}

// A refused call gives the turn back too.
#[test]
fn refusals_through_a_pass(rt: HostRuntime) {
    let alloc = rt.alloc();
    let (shared, mut pass) = share(&rt, alloc, desk(&rt, alloc, SCENE, 10), 1);
    let ahead = commit(&rt, alloc, pass.planner(), 1, &["goal 3 1,0"]);
    match shared.commit(&rt, &mut pass, ahead) {
        Ok(_) => panic!(rt; "a base above the version"),
        Err((why, back)) => {
            assert!(rt; why == Refusal::Ahead { now: 0 } && back.base() == 1);
            forget(back);
        }
    }
    let (nine, corner) = (agent(&rt, 9), cell(&rt, 0, 0));
    let unknown = shared.distance(&rt, &mut pass, nine, corner);
    assert!(rt; unknown == Err(AskFault::UnknownAgent) && shared.front(&mut pass) == 0);
    forget((shared, pass));
}

// No other pass can be had.
fn is_full(rt: &impl Abort, shared: &SharedDesk, pass: &mut Pass, full: SplitFault)
    requires { Owns shared.now pass.old }
    ensures { Owns shared.now pass.new }
{
    let answer = shared.split(pass);
    assert!(rt; matches!(&answer, Err(fault) if *fault == full));
    forget(answer);
}

// A commit of the line on the opening, which makes version 1.
fn commits<R: Wait + Abort>(rt: &R, alloc: Global, shared: &SharedDesk, pass: &mut Pass, line: &str)
    requires { Owns shared.now pass.old }
    ensures { Owns shared.now pass.new }
{
    let commit = commit(rt, alloc, pass.planner(), 0, &[line]);
    let answer = shared.commit(rt, pass, commit);
    assert!(rt; matches!(&answer, Ok(1)));
    forget(answer);
}

// The distance from (0,0) of agent 3.
fn far<R: Wait + Abort>(rt: &R, shared: &SharedDesk, pass: &mut Pass) -> Option<u32>
    requires { Owns shared.now pass.old }
    ensures { Owns shared.now pass.new }
{
    let (three, corner) = (agent(rt, 3), cell(rt, 0, 0));
    shared
        .distance(rt, pass, three, corner)
        .expect(rt, "a distance")
}

// One commit through the pass, a reading after it, and a distance.
fn commits_and_asks<R: Wait + Abort>(rt: &R, alloc: Global, shared: &SharedDesk, pass: &mut Pass)
    requires { Owns shared.now pass.old }
    ensures { Owns shared.now pass.new }
{
    commits(rt, alloc, shared, pass, "path 3 0,0 1,0");
    let reading = shared.reading(rt, pass).expect(rt, "memory");
    let line = reading.report.lines.items().first().expect(rt, "a line");
    assert!(rt; reading.version == 1 && line.settle == 1);
    forget(reading);
    assert!(rt; shared.front(pass) == 1);
    assert!(rt; far(rt, shared, pass) == Some(2));
}

// The wrong body close_always_lost gives no desk back. The wrong body one_lock_round_everything
// can't be written: `front` has no bound by which it could wait.
#[test]
fn shared_by_one_and_shared_distance(rt: HostRuntime) {
    let alloc = rt.alloc();
    let (shared, mut pass) = share(&rt, alloc, desk(&rt, alloc, SCENE, 10), 1);
    assert!(rt; shared.owns(&pass) && pass.planner().number() == 0);
    commits_and_asks(&rt, alloc, &shared, &mut pass);
    let full = SplitFault::PassesFull { planners: 1 };
    is_full(&rt, &shared, &mut pass, full);
    let closed = shared.close(pass).expect(&rt, "the desk");
    assert!(rt; closed.journal().len() == 1);
    forget(closed);
}

#[test]
fn split_until_full(rt: HostRuntime) {
    let alloc = rt.alloc();
    let (shared, mut first) = share(&rt, alloc, desk(&rt, alloc, SCENE, 10), 3);
    let full = SplitFault::PassesFull { planners: 3 };
    let mut second = split(&rt, &shared, &mut first);
    assert!(rt; second.planner().number() == 1);
    is_full(&rt, &shared, &mut second, full);
    let third = split(&rt, &shared, &mut first);
    assert!(rt; third.planner().number() == 2);
    shared.join(&mut first, third);
    is_full(&rt, &shared, &mut first, full);
    forget((shared, first, second));
}

#[test]
fn join_hands_on_numbers(rt: HostRuntime) {
    let alloc = rt.alloc();
    let (shared, mut first) = share(&rt, alloc, desk(&rt, alloc, SCENE, 10), 3);
    let mut second = split(&rt, &shared, &mut first);
    shared.join(&mut second, first);
    let third = split(&rt, &shared, &mut second);
    assert!(rt; second.planner().number() == 1 && third.planner().number() == 2);
    forget((shared, second, third));
}

// A snapshot is of that version, with the scene of the lines.
fn copies<R: Wait + Abort>(
    rt: &R,
    alloc: Global,
    shared: &SharedDesk,
    pass: &mut Pass,
    version: u64,
    lines: &[&str],
)
    requires { Owns shared.now pass.old }
    ensures { Owns shared.now pass.new }
{
    let copy = shared.snapshot(rt, pass).expect(rt, "memory");
    assert!(rt; copy.version == version && is_scene(rt, alloc, &copy.scene, lines));
    forget(copy);
}

// The first pass has asked, and then the second commits. Front, reading, distance and snapshot of
// the first all follow.
// The wrong body pass_answers_from_its_past tells what it last saw.
fn follows<R: Wait + Abort>(
    rt: &R,
    alloc: Global,
    shared: &SharedDesk,
    first: &mut Pass,
    second: &mut Pass,
)
    requires first { Owns shared.now first.old }
    requires second { Owns shared.now second.old }
    ensures first { Owns shared.now first.new }
    ensures second { Owns shared.now second.new }
{
    assert!(rt; far(rt, shared, first) == Some(2));
    copies(rt, alloc, shared, first, 0, SCENE);
    commits(rt, alloc, shared, second, "close 1,0");
    assert!(rt; far(rt, shared, first).is_none());
    copies(rt, alloc, shared, first, 1, CLOSED);
    assert!(rt; shared.front(first) == 1);
}

#[test]
fn reads_follow_an_unjoined_commit(rt: HostRuntime) {
    let alloc = rt.alloc();
    let (shared, mut first) = share(&rt, alloc, desk(&rt, alloc, SCENE, 10), 2);
    let mut second = split(&rt, &shared, &mut first);
    follows(&rt, alloc, &shared, &mut first, &mut second);
    let reading = shared.reading(&rt, &mut first).expect(&rt, "memory");
    shared.join(&mut first, second);
    let joined = shared.reading(&rt, &mut first).expect(&rt, "memory");
    assert!(rt; reading.version == 1 && joined == reading && shared.front(&mut first) == 1);
    forget((shared, first, reading, joined));
}
