//! A window that knows how far its planner has seen the desk.
ghost use Rattle.std.specs.Prelude.{◌≡◌};
ghost use Rattle.desk_shared.specs.Passes.{Owns};
ghost use Rattle.desk_shared.specs.Windows.{window_on};
ghost use Rattle.shared_runs.specs.Logged.{HasSeenTo};

use desk_core::{
    AskFault, Awaits, Commit, Counter, Desk, Distance, Question, Reading, Refusal, Showing, Solving,
};
use desk_report::Kinds;
use desk_shared::{Pass, SharedDesk, Window};
use grid_cells::{Agent, Cell, OutOfMemory, Planner};
use std::marker::Model;
use std::sync::Wait;
use std::time::{Clock, Duration};

/// A window, and the greatest version that an answer through it can show.
#[derive(Drop)]
pub(crate) struct Dated<'a, R: Wait> {
    window: Window<'a, R>,
    seen: u64,
}

impl<'a, R: Wait> Model for Dated<'a, R> {
    ghost use Rattle.desk_shared.specs.Windows.{WindowState};

    ghost Value = { WindowState };

    ghost use Rattle.shared_runs.specs.Logged.{HasSeenTo};

    ghost view = { λ d. d.window };

    ghost invariant = { λ d. HasSeenTo d.seen d.window.pass };
}

impl<'a, R: Wait> Dated<'a, R> {
    /// The shared desk, seen through that pass, which has seen it up to that version.
    pub fn new(rt: &'a R, desk: &'a SharedDesk, pass: Pass, seen: u64) -> Dated<'a, R>
        requires owned { Owns desk.now pass }
        requires seen { HasSeenTo seen pass.known }
        ensures { result ≡ window_on desk.now pass }
    {
        Dated {
            window: Window::new(rt, desk, pass),
            seen,
        }
    }

    /// The greatest version that an answer so far can show.
    pub fn seen(&self) -> u64
        ensures { HasSeenTo result self.now.pass }
    {
        self.seen
    }

    /// The pass, which is still one of the shared desk.
    pub fn into_pass(self) -> Pass
        ensures owned { Owns self.entry.desk result }
        ensures known { result.known ≡ self.entry.pass }
    {
        let Dated { window, seen: _ } = self;
        window.into_pass()
    }
}

// A question, and at which version it is answered.
#[derive(Drop)]
struct Dating<'q, Q: Question> {
    question: &'q Q,
}

impl<'q, Q: Question> Question for Dating<'q, Q> {
    type Answer = (Q::Answer, u64);

    ghost use Rattle.std.specs.Prelude.{◌≡◌};
    ghost use Rattle.desk_commits.specs.State.{version_of};

    ghost answers = { λ dating desk answer. Q.answers dating.question.now desk answer.0 × (answer.1 ≡ version_of desk) };

    fn put(&self, desk: &mut Desk) -> (Q::Answer, u64) {
        let answer = self.question.put(desk);
        (answer, desk.version())
    }
}

impl<'a, R: Wait> Counter for Dated<'a, R> {
    ghost use Rattle.desk_shared.specs.Windows.{window_counting};

    ghost counting = { window_counting };

    fn planner(&self) -> Planner {
        self.window.planner()
    }

    fn version(&mut self) -> u64 {
        let version = self.window.version();
        self.seen = version;
        version
    }

    fn commit(&mut self, commit: Commit) -> Result<u64, (Refusal, Commit)> {
        let (answer, version) = self.window.commit_at(commit);
        self.seen = version;
        answer
    }

    fn ask<Q: Question>(&mut self, question: &Q) -> Q::Answer {
        let (answer, version) = self.window.ask(&Dating { question });
        self.seen = version;
        answer
    }

    fn reading(&mut self) -> Result<Reading, OutOfMemory> {
        self.ask(&Showing)
    }

    fn solves(&mut self, kinds: Kinds) -> Result<bool, OutOfMemory> {
        match self.ask(&Solving { kinds }) {
            Ok(answer) => Ok(answer),
            Err(refused) => Err(refused),
        }
    }

    fn distance(&mut self, agent: Agent, cell: Cell) -> Result<Option<u32>, AskFault> {
        self.ask(&Distance { agent, cell })
    }
}

impl<'a, R: Wait + Clock> Awaits for Dated<'a, R> {
    fn wait_above(&mut self, seen: u64, most: Duration) -> (u64, bool) {
        let (version, is_over) = self.window.wait_above(seen, most);
        self.seen = version;
        (version, is_over)
    }
}
