//! Random commits, after each of which it is asked what changed since each version, beside the reports.
use super::build::limit;
use super::chances::{WIDTH, some_commit};
use super::differences::are_differences;
use desk_core::{Changing, Desk, Reading, Refusal, SinceFault, Trying};
use desk_report::Changes;
use plan_table::Mode;
use std::alloc::Global;
use std::process::Abort;
use test_support::{Chain, scene};

fn opened(rt: &impl Abort, alloc: Global, mode: Mode) -> Desk {
    let scene = scene(alloc, WIDTH as u32, WIDTH as u32, &[]).expect(rt, "a scene");
    Desk::open(alloc, scene.with_mode(mode), limit(rt, 1_000))
}

fn report(rt: &impl Abort, desk: &mut Desk) -> Reading {
    desk.reading().expect(rt, "memory")
}

// How many elements came and went.
fn count(changes: &Changes) -> usize {
    let came = &changes.came;
    let gone = changes
        .gone_conflicts
        .items()
        .len()
        .saturating_add(changes.gone_visits.items().len());
    gone.saturating_add(came.conflicts.items().len())
        .saturating_add(came.visits.items().len())
        .saturating_add(came.lines.items().len())
}

// What is answered of each version is the difference of its report and the last. The first version that isn't
// forgotten, counted by its number.
fn told(rt: &impl Abort, desk: &mut Desk, reports: &[Reading]) -> u64 {
    let now = desk.version();
    let last = reports.last().expect(rt, "a report");
    let mut least = now;
    for (version, old) in reports.iter().enumerate() {
        let version = version as u64;
        match desk.ask(&Changing { version }) {
            Ok((number, changes)) => {
                assert!(rt; number == now && are_differences(&changes, &old.report, &last.report));
                least = least.min(version);
                drop(changes);
            }
            Err(SinceFault::Forgotten { first }) => {
                assert!(rt; version < first && first <= now && least == now);
            }
            Err(_) => panic!(rt; "a fault"),
        }
    }
    match desk.ask(&Changing {
        version: now.saturating_add(1),
    }) {
        Err(SinceFault::Ahead { now: version }) => assert!(rt; version == now),
        _ => panic!(rt; "not ahead"),
    }
    least
}

// A trial tells what the commit then changes, and leaves the history as it is.
fn tried(
    rt: &impl Abort,
    alloc: Global,
    desk: &mut Desk,
    chance: &mut Chain,
    reports: &mut Vec<Reading>,
) {
    let commit = some_commit(rt, alloc, chance, desk);
    let copy = commit.copy(alloc).expect(rt, "memory");
    let trying = Trying { commit: copy };
    let would = desk.ask(&trying);
    let before = told(rt, desk, reports);
    let again = told(rt, desk, reports);
    assert!(rt; before == again);
    drop(trying);
    match (would, desk.commit(commit)) {
        (Ok((version, changes)), Ok(number)) => {
            assert!(rt; version == number);
            let new = report(rt, desk);
            let old = reports.last().expect(rt, "a report");
            assert!(rt; are_differences(&changes, &old.report, &new.report));
            reports.push(new).expect(rt, "memory");
            drop(changes);
        }
        (Err(why), Err((refusal, back))) => {
            assert!(rt; why == refusal && why != Refusal::OutOfMemory);
            drop(back);
        }
        _ => panic!(rt; "one is refused"),
    }
}

// A desk with so many records at most, behind each of some commits. Whether it has forgotten some versions, and not all.
fn goes_on(rt: &impl Abort, alloc: Global, seed: u64, mode: Mode, most: usize) -> bool {
    let mut chance = Chain::new(seed);
    let mut desk = opened(rt, alloc, mode);
    desk.keep_history(most);
    let mut reports = Vec::new(alloc);
    reports.push(report(rt, &mut desk)).expect(rt, "memory");
    for _ in 0..16 {
        tried(rt, alloc, &mut desk, &mut chance, &mut reports);
    }
    let least = told(rt, &mut desk, &reports);
    if most == 0 {
        assert!(rt; least == desk.version());
    }
    if most == 1_000_000 {
        assert!(rt; least == 0 && desk.rebuilds() == 1);
    }
    let forgets = least > 0 && least < desk.version();
    drop(reports);
    drop(desk);
    forgets
}

#[test]
fn changes_beside_reports(rt: HostRuntime) {
    let alloc = rt.alloc();
    let mut forgets = false;
    for seed in 0..3 {
        for mode in [Mode::Disappear, Mode::Stay] {
            for most in [0, 1, 8, 40, 1_000_000] {
                forgets = goes_on(&rt, alloc, seed, mode, most) || forgets;
            }
        }
    }
    assert!(rt; forgets);
}

// No question is asked between these commits, and none before.
#[test]
fn changes_of_a_desk_that_was_not_asked(rt: HostRuntime) {
    let alloc = rt.alloc();
    for seed in 0..12 {
        let mut chance = Chain::new(seed);
        let mut desk = opened(&rt, alloc, Mode::Stay);
        let mut other = opened(&rt, alloc, Mode::Stay);
        desk.keep_history(1_000_000);
        let old = report(&rt, &mut other);
        for _ in 0..25 {
            let commit = some_commit(&rt, alloc, &mut chance, &desk);
            let copy = commit.copy(alloc).expect(&rt, "memory");
            drop(desk.commit(commit));
            drop(other.commit(copy));
        }
        let new = report(&rt, &mut other);
        let told = desk.ask(&Changing { version: 0 });
        let (version, changes) = told.ok().expect(&rt, "what changed");
        assert!(rt;
            version == desk.version() && are_differences(&changes, &old.report, &new.report)
        );
        drop(changes);
        drop(old);
        drop(new);
        drop(desk);
        drop(other);
    }
}

// A history begins at the version at which it is asked for, and is forgotten where none is.
#[test]
fn histories_begin_and_end(rt: HostRuntime) {
    let alloc = rt.alloc();
    let mut chance = Chain::new(7);
    let mut desk = opened(&rt, alloc, Mode::Stay);
    let mut reports = Vec::new(alloc);
    reports.push(report(&rt, &mut desk)).expect(&rt, "memory");
    for _ in 0..10 {
        tried(&rt, alloc, &mut desk, &mut chance, &mut reports);
    }
    assert!(rt; told(&rt, &mut desk, &reports) == desk.version());
    desk.keep_history(1_000);
    let begun = desk.version();
    for _ in 0..10 {
        tried(&rt, alloc, &mut desk, &mut chance, &mut reports);
    }
    assert!(rt; begun < desk.version() && told(&rt, &mut desk, &reports) == begun);
    desk.keep_history(0);
    assert!(rt; told(&rt, &mut desk, &reports) == desk.version());
    drop(reports);
    drop(desk);
}
