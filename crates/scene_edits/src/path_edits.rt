ghost use Rattle.std.specs.Prelude.{◌≡◌, ◌<◌, ◌++◌, IfOk, IfErr, IfSome, OnErr, IsTrue, ◌↔◌, length, slice_get};
ghost use Rattle.plan_table.specs.Path.{AllStepsBelow, SamePlaces};
ghost use Rattle.plan_table.specs.Plans.{row_of};
ghost use Rattle.scene_edits.specs.Scene.{IsLive};
ghost use Rattle.scene_edits.specs.Edited.{with_changed};
ghost use Rattle.scene_edits.specs.Faults.{◌otherwise◌, too_long, jump};
ghost use Rattle.scene_edits.specs.Changes.{IsMove};
ghost use Rattle.scene_edits.specs.Answers.{Applied};
ghost use Rattle.scene_edits.specs.Board.{scene_of, KeepsRoom, FollowsPath};

use crate::boards::{Board, holds_all};
use crate::changes::Change;
use crate::differences::first_difference;
use crate::edits::{ApplyFault, Edit, EditFault};
use grid_cells::{Agent, Cell, OutOfMemory, Step};
use plan_table::{Plan, PlanFault, Row};
use std::alloc::Global;

impl Board {
    pub(crate) fn set_path(&mut self, agent: Agent, cells: &[Cell]) -> Result<Change, ApplyFault>
        ensures applied { Applied (scene_of self.old) (Edit.Path agent cells.now) result (scene_of self.new) }
        ensures room { KeepsRoom self.old.plans.room result self.new.plans.room }
    {
        let Some(row) = self.plans.row(agent) else {
            return Err(ApplyFault::Fault(EditFault::UnknownAgent));
        };
        if !holds_all(self.grid.size(), cells) {
            return Err(ApplyFault::Fault(EditFault::OutOfMap));
        }
        if cells.is_empty() {
            return Err(ApplyFault::Fault(EditFault::EmptyPath));
        }
        if !begin_alike(cells, row.plan.cells()) {
            return Err(ApplyFault::Fault(EditFault::NotFromStart));
        }
        let cells = joined(self.alloc, &[], cells)?;
        match self.follow(agent, cells, 0) {
            Ok(change) => Ok(change),
            Err(fault) => Err(ApplyFault::Fault(fault)),
        }
    }

    pub(crate) fn set_tail(
        &mut self,
        agent: Agent,
        from: Step,
        cells: &[Cell],
    ) -> Result<Change, ApplyFault>
        ensures applied { Applied (scene_of self.old) (Edit.Tail agent from cells.now) result (scene_of self.new) }
        ensures room { KeepsRoom self.old.plans.room result self.new.plans.room }
    {
        let Some(row) = self.plans.row(agent) else {
            return Err(ApplyFault::Fault(EditFault::UnknownAgent));
        };
        if !holds_all(self.grid.size(), cells) {
            return Err(ApplyFault::Fault(EditFault::OutOfMap));
        }
        if row.plan.last() < from.number() {
            return Err(ApplyFault::Fault(EditFault::NoSuchTime));
        }
        let front = &row.plan.cells()[..from.number() as usize + 1];
        let cells = joined(self.alloc, front, cells)?;
        match self.follow(agent, cells, from.number() + 1) {
            Ok(change) => Ok(change),
            Err(fault) => Err(ApplyFault::Fault(fault)),
        }
    }

    // Gives a live agent the path of the cells, of which the steps to the first `known` are known, and that its path before is in
    // the same cells until then.
    fn follow(&mut self, agent: Agent, cells: Vec<Cell>, known: u32) -> Result<Change, EditFault>
        requires live { IsLive (scene_of self.old) agent }
        requires some { 0 < length cells.items }
        requires steps { AllStepsBelow cells.items known }
        requires front { IfSome (row_of self.old.plans.rows agent) (λ row. SamePlaces row.plan cells.items known) }
        ensures follows { IfOk result (λ change. FollowsPath (scene_of self.old) agent cells.items change (scene_of self.new)) }
        ensures fault { IfErr result (too_long cells.items otherwise jump cells.items) }
        ensures unchanged { OnErr result (scene_of self.new ≡ scene_of self.old) }
        ensures room { self.new.plans.room ≡ self.old.plans.room }
    {
        match Plan::with_known_steps(cells, known) {
            Ok(plan) => Ok(self.replan(agent, plan, known)),
            Err((PlanFault::EmptyPath, _)) => unreachable!(),
            Err((PlanFault::TooLong, _)) => Err(EditFault::TooLong),
            Err((PlanFault::NotAStep { at }, _)) => Err(EditFault::NotAStep { at }),
        }
    }

    // Gives a live agent another plan, which is known to be in the cells of its plan before at times below `known`.
    fn replan(&mut self, agent: Agent, plan: Plan, known: u32) -> Change
        requires live { IsLive (scene_of self.old) agent }
        requires front { IfSome (row_of self.old.plans.rows agent) (λ row. SamePlaces row.plan plan known) }
        ensures moves { IsMove (scene_of self.old) (scene_of self.new) agent result }
        ensures edited { scene_of self.new ≡ record (scene_of self.old) { rows = with_changed self.old.plans.rows agent (λ row. record row { plan = plan }) } }
        ensures room { self.new.plans.room ≡ self.old.plans.room }
    {
        let (after, since) = match self.plans.row(agent) {
            None => unreachable!(),
            Some(row) => {
                let after = Row {
                    goal: row.goal,
                    plan,
                };
                let since = first_difference(row.track(self.mode), after.track(self.mode), known);
                (after, since)
            }
        };
        let old_plan = self.plans.set_plan(agent, after.plan);
        Change::Moved {
            agent,
            old_plan,
            since,
        }
    }
}

// Whether the first cells are the same.
fn begin_alike(left: &[Cell], right: &[Cell]) -> bool
    ensures { IsTrue result ↔ (slice_get left.now 0 ≡ slice_get right.now 0) }
{
    left.first() == right.first()
}

// The cells of both lists.
fn joined(alloc: Global, front: &[Cell], back: &[Cell]) -> Result<Vec<Cell>, OutOfMemory>
    ensures { IfOk result (λ cells. cells.items ≡ front.now ++ back.now) }
{
    let mut cells = Vec::new(alloc);
    cells.extend_from_slice(front)?;
    cells.extend_from_slice(back)?;
    Ok(cells)
}
