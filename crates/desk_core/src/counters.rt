//! A desk as sessions see it.
ghost use Rattle.std.specs.Prelude.{◌≡◌, ◌<◌, ◌≤◌, true, false, IfErr, ℕ, Result, Option};
ghost use Rattle.desk_commits.specs.Counting.{Counting, Judging};

use crate::asking::Question;
use desk_commits::{AskFault, Commit, Reading, Refusal};
use desk_report::Kinds;
use grid_cells::{Agent, Cell, OutOfMemory, Planner};
use std::time::Duration;

/// What a session puts its questions and commits to, in the name of one planner.
pub trait Counter {
    ghost use Rattle.desk_commits.specs.Counting.{Counting};

    /// What each call may answer, and what it then leaves.
    ghost counting: { Counting Self };

    /// The planner in whose name commits are made.
    fn planner(&self) -> Planner
        ensures { result ≡ counting.planner self.now };

    /// The version that a commit is made on now.
    fn version(&mut self) -> u64
        ensures { counting.versions self.old result self.new };

    /// Makes a commit in the planner's name, and answers the new version.
    ///
    /// # Errors
    ///
    /// The reason to refuse the commit, and the commit as it was handed in.
    fn commit(&mut self, commit: Commit) -> Result<u64, (Refusal, Commit)>
        requires planner { commit.planner ≡ counting.planner self.now }
        ensures made { counting.commits self.old commit result self.new }
        ensures back { IfErr result (λ refused. refused.1 ≡ commit) };

    /// Answers the question.
    fn ask<Q: Question>(&mut self, question: &Q) -> Q::Answer
        ensures { counting.asks Q.Answer self.old (Q.answers question.now) result self.new };

    /// The report, at its version.
    fn reading(&mut self) -> Result<Reading, OutOfMemory>
        ensures { counting.reads self.old result self.new };

    /// Whether a reading solves by those kinds, at the counter's version.
    ///
    /// # Errors
    ///
    /// Want of memory.
    fn solves(&mut self, kinds: Kinds) -> Result<bool, OutOfMemory>
        ensures { Judging counting self.old kinds result self.new };

    /// The distance in steps of the cell to the agent's goal, if there is one.
    ///
    /// # Errors
    ///
    /// The first fault of the question, or want of memory.
    fn distance(&mut self, agent: Agent, cell: Cell) -> Result<Option<u32>, AskFault>
        ensures { counting.tells self.old agent cell result self.new };
}

/// A counter that tells when its version is above one that was seen.
pub trait Awaits: Counter {
    /// The version that a commit is made on, as soon as it is above `seen` or `most` has gone, and
    /// whether it was the time that ended the wait.
    fn wait_above(&mut self, seen: u64, most: Duration) -> (u64, bool)
        ensures version { Self.counting.versions self.old result.0 self.new }
        ensures above { result.1 ≡ false → seen < result.0 }
        ensures over { result.1 ≡ true → result.0 ≤ seen };
}
