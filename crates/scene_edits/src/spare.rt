//! Memory for the rows that come back as changes are taken back.
ghost use Rattle.std.specs.Prelude.{◌≡◌, ◌+◌, ◌<◌, ◌≤◌, ◌⊎◌, ◌^◌, [], length, IfOk};
ghost use Rattle.scene_edits.specs.Board.{scene_of, room_after, room_left};
ghost use Rattle.scene_edits.specs.Reverted.{IsSpare};

use crate::boards::Board;
use crate::changes::Change;
use crate::scenes::MOST_AGENTS;
use grid_cells::OutOfMemory;
use plan_table::Plans;
use std::alloc::Global;
use std::mem::replace;

impl Board {
    // Sees to room for the rows that come back as the changes are taken back. It takes no memory.
    pub(crate) fn make_way(&mut self, changes: &[Change], spare: Plans)
        requires few { length self.old.plans.rows ≤ MOST_AGENTS }
        requires spare { IsSpare changes.now spare }
        ensures same { scene_of self.new ≡ scene_of self.old }
        ensures room { room_left changes.now ≤ self.new.plans.room }
    {
        let plans = replace(&mut self.plans, Plans::new(self.alloc));
        let roomy = with_room(plans, room_for(changes), spare);
        drop(replace(&mut self.plans, roomy));
    }
}

// The rows in a table with room for that many more: their own, and where it has none the spare one.
fn with_room(plans: Plans, many: usize, spare: Plans) -> Plans
    requires few { length plans.rows ≤ MOST_AGENTS }
    requires empty { spare.rows ≡ [] }
    requires room { (many ≡ 0) ⊎ (MOST_AGENTS + many ≤ spare.room) }
    ensures rows { result.rows ≡ plans.rows }
    ensures room { many ≤ result.room }
{
    if many <= plans.room() {
        drop(spare);
        return plans;
    }
    plans.moved_to(spare)
}

/// A table with room for any fleet and for the rows that come back as the changes are taken back, where some do.
pub(crate) fn spare_for(alloc: Global, changes: &[Change]) -> Result<Plans, OutOfMemory>
    ensures { IfOk result (IsSpare changes.now) }
{
    let many = room_for(changes);
    if many == 0 {
        return Ok(Plans::new(alloc));
    }
    match Plans::with_room(alloc, MOST_AGENTS as usize + many) {
        Ok(spare) => Ok(spare),
        Err(refused) => Err(refused),
    }
}

// How many rows come back, beyond those that go, as the changes are taken back.
fn room_for(changes: &[Change]) -> usize
    ensures is { result ≡ room_left changes.now }
    ensures few { result ≤ length changes.now }
{
    let mut left = 0;
    for change in changes {
        left = room_with(left, change);
    }
    left
}

// The room that is left after a change.
fn room_with(room: usize, change: &Change) -> usize
    requires { room + 1 < 2 ^ 64 }
    ensures is { result ≡ room_after room change.now }
    ensures few { result ≤ room + 1 }
{
    match change {
        Change::Added { .. } => room.saturating_sub(1),
        Change::Dropped { .. } => room + 1,
        Change::Aimed { .. } | Change::Moved { .. } => room,
        Change::Flipped { .. } | Change::Same { .. } => room,
    }
}
