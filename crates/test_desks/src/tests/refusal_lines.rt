//! The lines of refusals that a session over a desk of its own doesn't meet: another planner, a base
//! ahead, want of memory.
use super::build::{agent, cell, desk};
use desk_core::{AskFault, Commit, Desk, Question, Reading, Refusal, Thing};
use desk_report::{Kinds, Spout, Tap};
use desk_session::{Bounds, Counter, serve};
use grid_cells::{Agent, Cell, OutOfMemory, Planner};
use std::alloc::Global;
use std::process::Abort;

// Refuses each commit for the next of some reasons, and finds no memory for the questions of version 1; what else it is
// asked is asked of its desk.
#[derive(Drop)]
struct Refuser<'a, R: Abort> {
    rt: &'a R,
    refusals: &'a [Refusal],
    given: usize,
    desk: Desk,
}

impl<'a, R: Abort> Counter for Refuser<'a, R> {
    ghost use Rattle.std.specs.Prelude.{◌≡◌};

    ghost counting = { record {
      planner = λ _. 0;
      versions = λ _ _ _. Unit;
      commits = λ _ _ _ _. Unit;
      reads = λ _ _ _. Unit;
      tells = λ _ _ _ _ _. Unit;
      asks = λ _ _ _ _ _. Unit;
    } };

    fn planner(&self) -> Planner {
        match Planner::new(0) {
            Some(planner) => planner,
            None => unreachable!(),
        }
    }

    fn version(&mut self) -> u64 {
        10
    }

    fn commit(&mut self, commit: Commit) -> Result<u64, (Refusal, Commit)> {
        let Some(refusal) = self.refusals.get(self.given) else {
            panic!(self.rt; "a refusal more");
        };
        self.given = self.given.saturating_add(1);
        Err((*refusal, commit))
    }

    fn ask<Q: Question>(&mut self, question: &Q) -> Q::Answer {
        self.desk.ask(question)
    }

    fn reading(&mut self) -> Result<Reading, OutOfMemory> {
        Err(OutOfMemory)
    }

    fn solves(&mut self, _kinds: Kinds) -> Result<bool, OutOfMemory> {
        Err(OutOfMemory)
    }

    fn distance(&mut self, _agent: Agent, _cell: Cell) -> Result<Option<u32>, AskFault> {
        Err(AskFault::OutOfMemory)
    }
}

fn stale(thing: Thing) -> Refusal {
    Refusal::Stale {
        now: 7,
        thing,
        at: 6,
    }
}

const LINES: &[u8] = b"version\nbegin\ncommit\ncommit\ncommit\ncommit\ncommit\ncommit\n\
report\nsolves edge\ndistance 0 0,0\ncancel\n";

const ANSWERS: &[u8] = b"version 10\nbase 10\nrefused ahead 5\nrefused stale 7 agent 3 6\n\
refused stale 7 cell 1,2 6\nrefused stale 7 map 6\nrefused journal-full 5\nrefused memory\n\
refused memory\nrefused memory\nrefused memory\ncancelled\n";

fn have_their_lines(rt: &impl Abort, alloc: Global) {
    let (agent, cell) = (agent(rt, 3), cell(rt, 1, 2));
    let refusals = [
        Refusal::Ahead { now: 5 },
        stale(Thing::Agent(agent)),
        stale(Thing::Cell(cell)),
        stale(Thing::Map),
        Refusal::JournalFull { limit: 5 },
        Refusal::OutOfMemory,
    ];
    let mut counter = Refuser {
        rt,
        refusals: &refusals,
        given: 0,
        desk: desk(rt, alloc, &[], 1),
    };
    let mut reader = Tap::new(LINES);
    let mut writer = Spout::new(Vec::new(alloc));
    let bounds = Bounds {
        lines: 100,
        bytes: 1_000,
    };
    let ended = serve(alloc, &mut counter, &mut reader, &mut writer, bounds);
    assert!(rt; ended == Ok(12));
    let written: Vec<u8> = writer.into_inner();
    assert!(rt; written.as_slice() == ANSWERS);
}

#[test]
fn refusals_have_their_lines(rt: HostRuntime) {
    have_their_lines(&rt, rt.alloc());
}
