ghost use Rattle.std.specs.Prelude.{◌≡◌, IfErr};
ghost use Rattle.desk_shared.specs.Passes.{Owns, version_at};
ghost use Rattle.desk_shared.specs.Windows.{window_counting, window_on};

use crate::passes::Pass;
use crate::sharing::SharedDesk;
use desk_core::{AskFault, Awaits, Commit, Counter, Question, Reading, Refusal};
use desk_report::Kinds;
use grid_cells::{Agent, Cell, OutOfMemory, Planner};
use std::marker::Model;
use std::sync::Wait;
use std::time::{Clock, Duration};

/// A shared desk, seen through the pass of one planner. A session over it is one of several that
/// share the desk. Its version is the front.
#[derive(Drop)]
pub struct Window<'a, R: Wait> {
    rt: &'a R,
    desk: &'a SharedDesk,
    pass: Pass,
}

impl<'a, R: Wait> Model for Window<'a, R> {
    ghost use Rattle.desk_shared.specs.Windows.{WindowState, window_on};

    ghost Value = { WindowState };

    ghost use Rattle.desk_shared.specs.Passes.{Owns};

    ghost view = { λ w. window_on w.desk.now w.pass };

    ghost invariant = { λ w. Owns w.desk.now w.pass };
}

impl<'a, R: Wait> Window<'a, R> {
    /// The shared desk, seen through that pass of it.
    pub fn new(rt: &'a R, desk: &'a SharedDesk, pass: Pass) -> Window<'a, R>
        requires { Owns desk.now pass }
        ensures { result ≡ window_on desk.now pass }
    {
        Window { rt, desk, pass }
    }

    /// Commits as `commit` does, and answers too the version that the desk then has.
    pub fn commit_at(&mut self, commit: Commit) -> (Result<u64, (Refusal, Commit)>, u64)
        requires planner { commit.planner ≡ self.old.pass.planner }
        ensures made { window_counting.commits self.old commit result.0 self.new }
        ensures back { IfErr result.0 (λ refused. refused.1 ≡ commit) }
        ensures at { result.1 ≡ version_at self.new.pass.start self.new.pass.made }
    {
        self.desk.commit_at(self.rt, &mut self.pass, commit)
    }

    /// The pass, which is still one of the shared desk.
    pub fn into_pass(self) -> Pass
        ensures owned { Owns self.entry.desk result }
        ensures known { result.known ≡ self.entry.pass }
    {
        let Window {
            rt: _,
            desk: _,
            pass,
        } = self;
        pass
    }
}

/// A window counts for its pass's planner. Its calls but `version` may wait.
impl<'a, R: Wait> Counter for Window<'a, R> {
    ghost use Rattle.desk_shared.specs.Windows.{window_counting};

    ghost counting = { window_counting };

    fn planner(&self) -> Planner {
        self.pass.planner()
    }

    fn version(&mut self) -> u64 {
        self.desk.front(&mut self.pass)
    }

    fn commit(&mut self, commit: Commit) -> Result<u64, (Refusal, Commit)> {
        self.desk.commit(self.rt, &mut self.pass, commit)
    }

    fn ask<Q: Question>(&mut self, question: &Q) -> Q::Answer {
        self.desk.ask(self.rt, &mut self.pass, question)
    }

    fn reading(&mut self) -> Result<Reading, OutOfMemory> {
        self.desk.reading(self.rt, &mut self.pass)
    }

    fn solves(&mut self, kinds: Kinds) -> Result<bool, OutOfMemory> {
        match self.desk.solves(self.rt, &mut self.pass, kinds) {
            Ok(answer) => Ok(answer),
            Err(refused) => Err(refused),
        }
    }

    fn distance(&mut self, agent: Agent, cell: Cell) -> Result<Option<u32>, AskFault> {
        self.desk.distance(self.rt, &mut self.pass, agent, cell)
    }
}

/// A window waits without the turn, and holds nobody up.
impl<'a, R: Wait + Clock> Awaits for Window<'a, R> {
    fn wait_above(&mut self, seen: u64, most: Duration) -> (u64, bool) {
        self.desk.wait_above(self.rt, &mut self.pass, seen, most)
    }
}
