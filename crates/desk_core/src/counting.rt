//! A desk counts for sessions.
ghost use Rattle.desk_commits.specs.Counting.{desk_counting};

use crate::asking::Question;
use crate::counters::{Awaits, Counter};
use crate::desks::Desk;
use desk_commits::{AskFault, Commit, Reading, Refusal};
use desk_report::Kinds;
use grid_cells::{Agent, Cell, OutOfMemory, Planner};
use std::time::Duration;

/// A desk counts in the name of planner 0.
impl Counter for Desk {
    ghost counting = { desk_counting };

    fn planner(&self) -> Planner {
        match Planner::new(0) {
            Some(planner) => planner,
            None => unreachable!(),
        }
    }

    fn version(&mut self) -> u64 {
        Desk::version(self)
    }

    fn commit(&mut self, commit: Commit) -> Result<u64, (Refusal, Commit)> {
        Desk::commit(self, commit)
    }

    fn ask<Q: Question>(&mut self, question: &Q) -> Q::Answer {
        Desk::ask(self, question)
    }

    fn reading(&mut self) -> Result<Reading, OutOfMemory> {
        Desk::reading(self)
    }

    fn solves(&mut self, kinds: Kinds) -> Result<bool, OutOfMemory> {
        match Desk::solves(self, kinds) {
            Ok(answer) => Ok(answer),
            Err(refused) => Err(refused),
        }
    }

    fn distance(&mut self, agent: Agent, cell: Cell) -> Result<Option<u32>, AskFault> {
        Desk::distance(self, agent, cell)
    }
}

/// Nobody else commits at the desk while it would wait, so it answers at once.
impl Awaits for Desk {
    fn wait_above(&mut self, seen: u64, _most: Duration) -> (u64, bool) {
        let version = Desk::version(self);
        (version, version <= seen)
    }
}
