//! Calls in one list, with ample memory and with too little for all of them.
use super::build::{desk, drought, leave};
use super::calls::{Told, call, told_of_answer};
use super::rows::Row;
use desk_core::{Answer, Call, Desk, drive};
use grid_cells::{List, OutOfMemory};
use std::alloc::Global;
use std::process::Abort;
use test_support::Drought;

// The answers to a row's calls, of which there are at most eight.
type Answers = [Told; 8];

// What came of a list of calls.
type Driven = Result<List<Answer>, (OutOfMemory, Vec<Call>)>;

// The calls of the row but for those that are skipped.
fn calls(rt: &impl Abort, alloc: Global, row: &Row, skipped: &[bool; 8]) -> Vec<Call> {
    let mut calls = Vec::new(alloc);
    for number in 0..8 {
        if !skipped[number]
            && let Some(line) = row.calls.get(number)
        {
            calls.push(call(rt, alloc, &line.0)).expect(rt, "memory");
        }
    }
    calls
}

// The answers in the places of their calls.
fn told_of_all(rt: &impl Abort, skipped: &[bool; 8], answers: &[Answer]) -> Answers {
    let mut all = [Told::Unasked; 8];
    let mut others = answers.iter();
    for number in 0..8 {
        if !skipped[number]
            && let Some(answer) = others.next()
        {
            all[number] = told_of_answer(rt, answer);
        }
    }
    all
}

// The answers are those that the row gives.
fn are_wanted(rt: &impl Abort, row: &Row, answers: &Answers) {
    for number in 0..8 {
        if let Some(line) = row.calls.get(number) {
            assert!(rt; answers[number] == line.1);
        }
    }
}

// The answers, or none where there is no room for them: the calls came back then, the desk is as it was, and
// they are answered with ample memory.
fn told_of_driven(
    rt: &impl Abort,
    alloc: Global,
    desk: &mut Desk,
    row: &Row,
    skipped: &[bool; 8],
    driven: Driven,
) -> Option<Answers> {
    match driven {
        Ok(answers) => {
            let told = told_of_all(rt, skipped, answers.items());
            drop(answers);
            Some(told)
        }
        Err((_, back)) => {
            assert!(rt; desk.version() == 0 && desk.journal().is_empty());
            let again = drive(alloc, desk, back);
            let Ok(answers) = again else {
                panic!(rt; "there is room");
            };
            are_wanted(rt, row, &told_of_all(rt, skipped, answers.items()));
            drop(answers);
            None
        }
    }
}

// The answers to the row's calls but for those that are skipped, with so many bytes or with ample memory.
fn driven(
    rt: &impl Abort,
    alloc: Global,
    drought: &mut Drought,
    row: &Row,
    skipped: &[bool; 8],
    bytes: Option<usize>,
) -> Option<Answers> {
    let mut desk = desk(rt, alloc, row.scene, row.limit);
    let calls = calls(rt, alloc, row, skipped);
    leave(rt, drought, bytes);
    let driven = drive(alloc, &mut desk, calls);
    drought.relieve();
    let told = told_of_driven(rt, alloc, &mut desk, row, skipped, driven);
    drop(desk);
    told
}

// The answers are those that the row gives, or where some calls were refused, the others' answers
// are those of a run in which these aren't made. Tells whether some were.
fn are_refused(
    rt: &impl Abort,
    alloc: Global,
    drought: &mut Drought,
    row: &Row,
    answers: &Answers,
) -> bool {
    let mut refused = false;
    let mut skipped = [false; 8];
    for number in 0..8 {
        skipped[number] = answers[number] == Told::OutOfMemory;
        refused = refused || skipped[number];
    }
    if !refused {
        are_wanted(rt, row, answers);
        return false;
    }
    let without = driven(rt, alloc, drought, row, &skipped, None).expect(rt, "there is room");
    for number in 0..8 {
        assert!(rt; skipped[number] || answers[number] == without[number]);
    }
    true
}

/// Both the room for the answers and single calls are refused, until all calls are answered.
pub fn drives(rt: &impl Abort, alloc: Global, row: &Row) {
    let mut drought = drought(rt, alloc);
    let (mut without_room, mut with_refusals) = (false, false);
    for step in 0..1_000 {
        match driven(rt, alloc, &mut drought, row, &[false; 8], Some(16 * step)) {
            None => without_room = true,
            Some(answers) if are_refused(rt, alloc, &mut drought, row, &answers) => {
                with_refusals = true;
            }
            Some(_) => {
                assert!(rt; without_room && with_refusals);
                drop(drought);
                return;
            }
        }
    }
    panic!(rt; "refused with 16,000 bytes");
}
