ghost use Rattle.std.specs.Prelude.{◌≡◌, ◌+◌, ◌<◌, ◌≤◌, [], ◌∷◌, ◌++◌, IfOk, IsOk, vec_len, vec_capacity};
ghost use Rattle.scene_edits.specs.Scene.{IsScene};
ghost use Rattle.scene_edits.specs.Answers.{Applied, AllApplied, fault_at};
ghost use Rattle.scene_edits.specs.Board.{scene_of, room_left, KeepsRoom};

use crate::boards::Board;
use crate::changes::Change;
use crate::edits::{ApplyFault, Edit, EditsFault};
use grid_cells::List;

impl Board {
    pub(crate) fn apply(&mut self, edit: &Edit) -> Result<Change, ApplyFault>
        ensures applied { Applied (scene_of self.old) edit.now result (scene_of self.new) }
        ensures room { KeepsRoom self.old.plans.room result self.new.plans.room }
    {
        match edit {
            Edit::Add { agent, start, goal } => self.add(*agent, *start, *goal),
            Edit::Drop { agent } => self.remove(*agent),
            Edit::Goal { agent, goal } => self.aim(*agent, *goal),
            Edit::Path { agent, cells } => self.set_path(*agent, cells.items()),
            Edit::Tail { agent, from, cells } => self.set_tail(*agent, *from, cells.items()),
            Edit::Open { cell } => self.open(*cell),
            Edit::Close { cell } => self.close(*cell),
        }
    }

    pub(crate) fn apply_all(&mut self, edits: &[Edit]) -> Result<List<Change>, EditsFault>
        requires scene { IsScene (scene_of self.old) }
        ensures applied { AllApplied (scene_of self.old) edits.now result (scene_of self.new) }
        ensures scene { IsScene (scene_of self.new) }
        ensures empty { edits.now ≡ [] → IsOk result }
        ensures room { IfOk result (λ changes. room_left changes ≤ self.new.plans.room) }
    {
        let Ok(mut done) = Vec::with_capacity(self.alloc, edits.len()) else {
            return Err(EditsFault::OutOfMemory);
        };
        for index in 0..edits.len() {
            match self.apply(&edits[index]) {
                Ok(change) => put(&mut done, change),
                Err(fault) => {
                    self.undo_all(done);
                    return Err(at_index(fault, index));
                }
            }
        }
        Ok(List::new(done))
    }
}

// Adds a change to a list that has room for it.
fn put(changes: &mut Vec<Change>, change: Change)
    requires { vec_len changes.old < vec_capacity changes.old }
    ensures items { changes.new.items ≡ changes.old.items ++ change ∷ [] }
    ensures len { vec_len changes.new ≡ vec_len changes.old + 1 }
    ensures capacity { vec_capacity changes.old ≤ vec_capacity changes.new }
{
    match changes.push(change) {
        Ok(()) => {}
        Err(_) => unreachable!(),
    }
}

// The fault of the edit at that index.
fn at_index(fault: ApplyFault, index: usize) -> EditsFault
    ensures { result ≡ fault_at index fault }
{
    match fault {
        ApplyFault::Fault(why) => EditsFault::Faulty { index, why },
        ApplyFault::OutOfMemory => EditsFault::OutOfMemory,
    }
}
