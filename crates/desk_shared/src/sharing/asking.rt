//! What a pass asks the desk in its turn, which changes nothing.
ghost use Rattle.std.specs.Prelude.{IfOk};
ghost use Rattle.desk_commits.specs.Questions.{ShowsReport, Judges, AnswersDistance, Copies};
ghost use Rattle.desk_shared.specs.Passes.{Owns};
ghost use Rattle.desk_shared.specs.Calls.{AsksBy};

use super::SharedDesk;
use crate::passes::Pass;
use crate::steps::{free, win};
use desk_core::{AskFault, Copying, Distance, Question, Reading, Showing, Snapshot, Solving};
use desk_report::Kinds;
use grid_cells::{Agent, Cell, OutOfMemory};
use std::sync::Wait;

impl SharedDesk {
    /// Asks the desk, in the pass's turn. It may wait.
    pub fn ask<R: Wait, Q: Question>(&self, rt: &R, pass: &mut Pass, question: &Q) -> Q::Answer
        requires owned { Owns self.now pass.old }
        ensures owned { Owns self.now pass.new }
        ensures answer { AsksBy pass.old.known (λ desk. Q.answers question.now desk result) pass.new.known }
    {
        let top = &self.table.shared;
        let mut desk = win(rt, top, &mut pass.place);
        let answer = question.put(&mut desk);
        free(top, &mut pass.place, desk);
        answer
    }

    /// The report of the desk's scene, in the pass's turn. It may wait.
    pub fn reading<R: Wait>(&self, rt: &R, pass: &mut Pass) -> Result<Reading, OutOfMemory>
        requires owned { Owns self.now pass.old }
        ensures owned { Owns self.now pass.new }
        ensures answer { AsksBy pass.old.known (λ desk. IfOk result (ShowsReport desk)) pass.new.known }
    {
        self.ask(rt, pass, &Showing)
    }

    /// Whether the plans of the desk's scene solve by those kinds, in the pass's turn. It may wait.
    ///
    /// # Errors
    ///
    /// Want of memory.
    pub fn solves<R: Wait>(
        &self,
        rt: &R,
        pass: &mut Pass,
        kinds: Kinds,
    ) -> Result<bool, OutOfMemory>
        requires owned { Owns self.now pass.old }
        ensures owned { Owns self.now pass.new }
        ensures answer { AsksBy pass.old.known (λ desk. IfOk result (Judges desk kinds)) pass.new.known }
    {
        self.ask(rt, pass, &Solving { kinds })
    }

    /// The distance in steps of the cell to the agent's goal on the desk's map, if there is one, in
    /// the pass's turn. It may wait.
    ///
    /// # Errors
    ///
    /// The first fault of the question, or want of memory.
    pub fn distance<R: Wait>(
        &self,
        rt: &R,
        pass: &mut Pass,
        agent: Agent,
        cell: Cell,
    ) -> Result<Option<u32>, AskFault>
        requires owned { Owns self.now pass.old }
        ensures owned { Owns self.now pass.new }
        ensures answer { AsksBy pass.old.known (λ desk. AnswersDistance desk.scene agent cell result) pass.new.known }
    {
        self.ask(rt, pass, &Distance { agent, cell })
    }

    /// A copy of the desk's scene, in the pass's turn. It may wait.
    pub fn snapshot<R: Wait>(&self, rt: &R, pass: &mut Pass) -> Result<Snapshot, OutOfMemory>
        requires owned { Owns self.now pass.old }
        ensures owned { Owns self.now pass.new }
        ensures answer { AsksBy pass.old.known (λ desk. IfOk result (Copies desk)) pass.new.known }
    {
        self.ask(rt, pass, &Copying)
    }
}
