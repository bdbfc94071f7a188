//! Random commits, each tried before it is made, beside a desk that tries none.
use super::build::limit;
use super::chances::{WIDTH, some_commit};
use super::scenes::are_same;
use desk_core::{Commit, Desk, Showing, Trial};
use plan_table::Mode;
use std::alloc::Global;
use std::process::Abort;
use test_support::{Chain, scene};

// The desks have one scene, one version and one report.
fn are_alike(rt: &impl Abort, desk: &mut Desk, other: &mut Desk) {
    assert!(rt; are_same(rt, desk.scene(), other.scene()));
    let reading = desk.reading().expect(rt, "memory");
    let wanted = other.reading().expect(rt, "memory");
    assert!(rt; reading == wanted);
    drop(reading);
    drop(wanted);
}

// The trial answers what the other desk answers to the commit, and then to the question.
fn is_tried(rt: &impl Abort, alloc: Global, desk: &mut Desk, other: &mut Desk, commit: &Commit) {
    let question = Showing;
    let tried = commit.copy(alloc).expect(rt, "memory");
    let made = commit.copy(alloc).expect(rt, "memory");
    let trial = Trial {
        commit: tried,
        question,
    };
    let told = desk.ask(&trial);
    drop(trial);
    match (told, other.commit(made)) {
        (Ok((version, Ok(reading))), Ok(number)) => {
            let wanted = other.reading().expect(rt, "memory");
            assert!(rt; version == number && reading == wanted);
            drop(reading);
            drop(wanted);
        }
        (Err(why), Err((refusal, back))) => {
            assert!(rt; why == refusal);
            drop(back);
        }
        _ => panic!(rt; "one is refused"),
    }
}

// Trials of which nothing is left, and one of a commit that is then made.
fn round(rt: &impl Abort, alloc: Global, chance: &mut Chain, desk: &mut Desk, other: &mut Desk) {
    for _ in 0..2 {
        let trial = Trial {
            commit: some_commit(rt, alloc, chance, desk),
            question: Showing,
        };
        drop(desk.ask(&trial));
        drop(trial);
        are_alike(rt, desk, other);
    }
    let commit = some_commit(rt, alloc, chance, desk);
    is_tried(rt, alloc, desk, other, &commit);
    drop(desk.commit(commit));
    are_alike(rt, desk, other);
}

fn opened(rt: &impl Abort, alloc: Global, mode: Mode) -> Desk {
    let scene = scene(alloc, WIDTH as u32, WIDTH as u32, &[]).expect(rt, "a scene");
    Desk::open(alloc, scene.with_mode(mode), limit(rt, 1_000))
}

// The books are made once, however many commits are tried.
#[test]
fn trials_beside_commits(rt: HostRuntime) {
    let alloc = rt.alloc();
    for seed in 0..20 {
        for mode in [Mode::Disappear, Mode::Stay] {
            let mut chance = Chain::new(seed);
            let mut desk = opened(&rt, alloc, mode);
            let mut other = opened(&rt, alloc, mode);
            for _ in 0..30 {
                round(&rt, alloc, &mut chance, &mut desk, &mut other);
            }
            assert!(rt; desk.rebuilds() == 1);
            drop(desk);
            drop(other);
        }
    }
}
