ghost use Rattle.std.specs.Prelude.{◌≡◌, IfOk};
ghost use Rattle.scene_edits.specs.Scene.{SceneState};
ghost use Rattle.scene_edits.specs.Answers.{AllApplied};
ghost use Rattle.scene_edits.specs.ChangedBy.{ChangedBy};
ghost use Rattle.scene_edits.specs.Reverted.{IsSpare};

use crate::changes::Change;
use crate::edits::{Edit, EditsFault};
use crate::scenes::Scene;
use crate::spare::spare_for;
use grid_cells::{List, OutOfMemory};
use plan_table::Plans;
use std::marker::Model;

/// The changes of edits that are to be taken back, and memory for that.
pub struct Reversible {
    changes: List<Change>,
    // Where the scene's own table has no room any more for the rows that come back.
    spare: Plans,
}

impl Drop for Reversible {
    fn drop(self) {
        let Reversible {
            changes: _changes,
            spare: _spare,
        } = self;
    }
}

impl Model for Reversible {
    ghost use Rattle.std.specs.Prelude.{List};
    ghost use Rattle.scene_edits.specs.declared.changes.Change.{Change};

    ghost Value = { List Change };

    ghost use Rattle.scene_edits.specs.Reverted.{IsSpare};

    ghost view = { λ r. r.changes };

    ghost invariant = { λ r. IsSpare r.changes r.spare };
}

impl Reversible {
    /// The changes, in the order of the edits.
    pub fn items(&self) -> &[Change]
        ensures { result.now ≡ self.now }
    {
        self.changes.items()
    }

    // The changes and the table.
    fn into_parts(self) -> (Vec<Change>, Plans)
        ensures changes { result.0.items ≡ self }
        ensures spare { IsSpare self result.1 }
    {
        let Reversible { changes, spare } = self;
        (changes.into_items(), spare)
    }
}

impl Scene {
    /// Applies the edits in order, all or none, as `apply_all` does, so that they can be taken back.
    ///
    /// # Errors
    /// The first fault of the first edit that has one, with the edit's index from 0, or want of
    /// memory, now or for the way back.
    pub fn apply_reversibly(&mut self, edits: &[Edit]) -> Result<Reversible, EditsFault>
        ensures { AllApplied self.old edits.now result self.new }
    {
        let changes = match self.board.apply_all(edits) {
            Ok(changes) => changes,
            Err(fault) => return Err(fault),
        };
        match spare_for(self.board.alloc, changes.items()) {
            Ok(spare) => Ok(Reversible { changes, spare }),
            Err(OutOfMemory) => {
                self.board.undo_all(changes.into_items());
                Err(EditsFault::OutOfMemory)
            }
        }
    }

    /// Takes the changes back: the scene is that before the edits. It answers what that changed.
    ///
    /// # Errors
    /// Want of memory for the answer. The changes are taken back all the same.
    pub fn revert(&mut self, changes: Reversible) -> Result<List<Change>, OutOfMemory>
        requires { (before : SceneState) × ChangedBy before changes self.old }
        ensures back { (before : SceneState) → ChangedBy before changes self.old → self.new ≡ before }
        ensures told { IfOk result (λ turned. ChangedBy self.old turned self.new) }
    {
        let (changes, spare) = changes.into_parts();
        self.board.make_way(&changes, spare);
        self.board.revert(changes)
    }
}
