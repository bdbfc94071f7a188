ghost use Rattle.std.specs.Prelude.{◌≡◌, ℕ, ◌≤◌};
ghost use Rattle.scene_edits.specs.Board.{scene_of, room_after, room_left};
ghost use Rattle.scene_edits.specs.Undone.{undone, undone_all, IsUndoable, AreUndoable};

use crate::boards::Board;
use crate::changes::Change;

impl Board {
    // Takes the changes back, the last one first. It takes no memory.
    pub(crate) fn undo_all(&mut self, mut changes: Vec<Change>)
        requires undoable { AreUndoable (scene_of self.old) changes.items }
        requires room { room_left changes.items ≤ self.old.plans.room }
        ensures { scene_of self.new ≡ undone_all (scene_of self.old) changes.items }
    {
        while let Some(change) = changes.pop() {
            self.undo(change);
        }
    }

    // Takes a change back.
    fn undo(&mut self, change: Change)
        requires undoable { IsUndoable (scene_of self.old) change }
        requires room { room_after 0 change ≤ self.old.plans.room }
        ensures undone { scene_of self.new ≡ undone (scene_of self.old) change }
        ensures room { (room : ℕ) → room_after room change ≤ self.old.plans.room → room ≤ self.new.plans.room }
    {
        match change {
            Change::Added { agent } => {
                let _row = self.plans.remove(agent);
            }
            Change::Dropped { agent, row } => {
                self.plans.insert(agent, row);
            }
            Change::Aimed { agent, old_goal } => {
                let _goal = self.plans.set_goal(agent, old_goal);
            }
            Change::Moved {
                agent,
                old_plan,
                ..
            } => {
                let _plan = self.plans.set_plan(agent, old_plan);
            }
            Change::Flipped { cell } => {
                let free = self.grid.is_open(cell);
                self.grid.set(cell, !free);
            }
            Change::Same { .. } => {}
        }
    }
}
