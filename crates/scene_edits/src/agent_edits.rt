ghost use Rattle.std.specs.Prelude.{◌≡◌, IfOk, [], ◌∷◌};
ghost use Rattle.scene_edits.specs.Answers.{Applied};
ghost use Rattle.scene_edits.specs.Board.{scene_of, KeepsRoom};

use crate::boards::{Board, holds_all};
use crate::changes::Change;
use crate::edits::{ApplyFault, Edit, EditFault};
use crate::scenes::MOST_AGENTS;
use grid_cells::{Agent, Cell, OutOfMemory};
use plan_table::{Plan, Row};
use std::alloc::Global;

impl Board {
    pub(crate) fn add(
        &mut self,
        agent: Agent,
        start: Cell,
        goal: Cell,
    ) -> Result<Change, ApplyFault>
        ensures applied { Applied (scene_of self.old) (Edit.Add agent start goal) result (scene_of self.new) }
        ensures room { KeepsRoom self.old.plans.room result self.new.plans.room }
    {
        if self.plans.row(agent).is_some() {
            return Err(ApplyFault::Fault(EditFault::AgentTaken));
        }
        if self.plans.count() >= MOST_AGENTS {
            return Err(ApplyFault::Fault(EditFault::TooManyAgents));
        }
        if !holds_all(self.grid.size(), &[start, goal]) {
            return Err(ApplyFault::Fault(EditFault::OutOfMap));
        }
        let plan = resting_at(self.alloc, start)?;
        self.plans.make_room()?;
        self.plans.insert(agent, Row { goal, plan });
        Ok(Change::Added { agent })
    }

    pub(crate) fn remove(&mut self, agent: Agent) -> Result<Change, ApplyFault>
        ensures applied { Applied (scene_of self.old) (Edit.Drop agent) result (scene_of self.new) }
        ensures room { KeepsRoom self.old.plans.room result self.new.plans.room }
    {
        match self.plans.remove(agent) {
            None => Err(ApplyFault::Fault(EditFault::UnknownAgent)),
            Some(row) => Ok(Change::Dropped { agent, row }),
        }
    }

    pub(crate) fn aim(&mut self, agent: Agent, goal: Cell) -> Result<Change, ApplyFault>
        ensures applied { Applied (scene_of self.old) (Edit.Goal agent goal) result (scene_of self.new) }
        ensures room { KeepsRoom self.old.plans.room result self.new.plans.room }
    {
        if self.plans.row(agent).is_none() {
            return Err(ApplyFault::Fault(EditFault::UnknownAgent));
        }
        if !holds_all(self.grid.size(), &[goal]) {
            return Err(ApplyFault::Fault(EditFault::OutOfMap));
        }
        let old_goal = self.plans.set_goal(agent, goal);
        Ok(Change::Aimed { agent, old_goal })
    }
}

// The plan of an agent that rests at a cell.
pub(crate) fn resting_at(alloc: Global, cell: Cell) -> Result<Plan, OutOfMemory>
    ensures { IfOk result (λ plan. plan ≡ cell ∷ []) }
{
    let cells = vec![in alloc; cell]?;
    match Plan::new(cells) {
        Ok(plan) => Ok(plan),
        Err(_) => unreachable!(),
    }
}
