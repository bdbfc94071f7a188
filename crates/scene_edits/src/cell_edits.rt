ghost use Rattle.std.specs.Prelude.{◌≡◌, if◌then◌else◌};
ghost use Rattle.scene_edits.specs.Answers.{Applied};
ghost use Rattle.scene_edits.specs.Board.{scene_of, KeepsRoom};

use crate::boards::Board;
use crate::changes::Change;
use crate::edits::{ApplyFault, Edit, EditFault};
use grid_cells::Cell;

impl Board {
    pub(crate) fn open(&mut self, cell: Cell) -> Result<Change, ApplyFault>
        ensures applied { Applied (scene_of self.old) (Edit.Open cell) result (scene_of self.new) }
        ensures room { KeepsRoom self.old.plans.room result self.new.plans.room }
    {
        if !self.grid.size().holds(cell) {
            return Err(ApplyFault::Fault(EditFault::OutOfMap));
        }
        let was_open = self.grid.is_open(cell);
        self.grid.set(cell, true);
        Ok(flipped_or_same(cell, !was_open))
    }

    pub(crate) fn close(&mut self, cell: Cell) -> Result<Change, ApplyFault>
        ensures applied { Applied (scene_of self.old) (Edit.Close cell) result (scene_of self.new) }
        ensures room { KeepsRoom self.old.plans.room result self.new.plans.room }
    {
        if !self.grid.size().holds(cell) {
            return Err(ApplyFault::Fault(EditFault::OutOfMap));
        }
        let was_open = self.grid.is_open(cell);
        self.grid.set(cell, false);
        Ok(flipped_or_same(cell, was_open))
    }
}

fn flipped_or_same(cell: Cell, flipped: bool) -> Change
    ensures { result ≡ (if flipped then Change.Flipped cell else Change.Same cell) }
{
    if flipped {
        Change::Flipped { cell }
    } else {
        Change::Same { cell }
    }
}
