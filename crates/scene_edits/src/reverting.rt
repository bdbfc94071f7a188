ghost use Rattle.std.specs.Prelude.{◌≡◌, ℕ, ◌≤◌, [], ◌∷◌, ◌++◌, List, IfOk, OnOk};
ghost use Rattle.scene_edits.specs.Scene.{SceneState};
ghost use Rattle.scene_edits.specs.ChangedBy.{ChangedBy};
ghost use Rattle.scene_edits.specs.Board.{scene_of, room_after, room_left};
ghost use Rattle.scene_edits.specs.Undone.{undone, IsUndoable};
ghost use Rattle.scene_edits.specs.Reverted.{IsTurn, IsReturn};
ghost use Rattle.scene_edits.specs.declared.changes.Change.{Change};

use crate::agent_edits::resting_at;
use crate::boards::Board;
use crate::changes::Change;
use crate::differences::first_difference;
use grid_cells::{Agent, List, OutOfMemory, Step};
use plan_table::{Mode, Row};
use std::alloc::Global;

impl Board {
    // Takes the changes back, the last one first, and tells what that changes. Where the telling finds no memory they are taken
    // back all the same.
    pub(crate) fn revert(&mut self, mut changes: Vec<Change>) -> Result<List<Change>, OutOfMemory>
        requires changed { (before : SceneState) × ChangedBy before changes.items (scene_of self.old) }
        requires room { room_left changes.items ≤ self.old.plans.room }
        ensures back { (before : SceneState) → ChangedBy before changes.items (scene_of self.old) → scene_of self.new ≡ before }
        ensures told { IfOk result (λ turned. ChangedBy (scene_of self.old) turned (scene_of self.new)) }
    {
        let mut turned = Vec::new(self.alloc);
        while let Some(change) = changes.pop() {
            match self.turn(change, &mut turned) {
                Ok(()) => {}
                Err(OutOfMemory) => {
                    self.undo_all(changes);
                    drop(turned);
                    return Err(OutOfMemory);
                }
            }
        }
        Ok(List::new(turned))
    }

    // Takes a change back, and adds what that changes to the list, if there is memory.
    fn turn(&mut self, change: Change, turned: &mut Vec<Change>) -> Result<(), OutOfMemory>
        requires undoable { IsUndoable (scene_of self.old) change }
        requires room { room_after 0 change ≤ self.old.plans.room }
        ensures undone { scene_of self.new ≡ undone (scene_of self.old) change }
        ensures room { (room : ℕ) → room_after room change ≤ self.old.plans.room → room ≤ self.new.plans.room }
        ensures told { OnOk result ((turn : List Change) × IsTurn (scene_of self.old) change turn × (turned.new.items ≡ turned.old.items ++ turn)) }
    {
        match change {
            Change::Added { agent } => match self.plans.remove(agent) {
                Some(row) => told(turned, Change::Dropped { agent, row }),
                None => unreachable!(),
            },
            Change::Dropped { agent, row } => {
                let told = tell_return(self.alloc, self.mode, agent, &row, turned);
                self.plans.insert(agent, row);
                told
            }
            Change::Aimed { agent, old_goal } => {
                let goal = self.plans.set_goal(agent, old_goal);
                told(
                    turned,
                    Change::Aimed {
                        agent,
                        old_goal: goal,
                    },
                )
            }
            Change::Moved {
                agent,
                old_plan,
                since,
            } => {
                let plan = self.plans.set_plan(agent, old_plan);
                told(
                    turned,
                    Change::Moved {
                        agent,
                        old_plan: plan,
                        since,
                    },
                )
            }
            Change::Flipped { cell } => {
                let _size = self.grid.size();
                let free = self.grid.is_open(cell);
                self.grid.set(cell, !free);
                told(turned, Change::Flipped { cell })
            }
            Change::Same { .. } => Ok(()),
        }
    }
}

// Adds a change to the list.
fn told(turned: &mut Vec<Change>, change: Change) -> Result<(), OutOfMemory>
    ensures { OnOk result (turned.new.items ≡ turned.old.items ++ change ∷ []) }
{
    match turned.push(change) {
        Ok(()) => Ok(()),
        Err(_) => Err(OutOfMemory),
    }
}

// Adds what the return of an agent with that row changes to the list.
fn tell_return(
    alloc: Global,
    mode: Mode,
    agent: Agent,
    row: &Row,
    turned: &mut Vec<Change>,
) -> Result<(), OutOfMemory>
    ensures { OnOk result ((turn : List Change) × IsReturn mode agent row.now turn × (turned.new.items ≡ turned.old.items ++ turn)) }
{
    let resting = Row {
        goal: row.goal,
        plan: resting_at(alloc, row.plan.at(Step::new(0)))?,
    };
    let since = first_difference(resting.track(mode), row.track(mode), 0);
    told(turned, Change::Added { agent })?;
    told(
        turned,
        Change::Moved {
            agent,
            old_plan: resting.plan,
            since,
        },
    )
}
