ghost use Rattle.std.specs.Prelude.{◌≡◌, ◌<◌, Some, None, IfOk, IfSome, length};
ghost use Rattle.goal_fields.specs.Rest.{IsRoomOn, total_in};

use crate::distances::Distances;
use crate::lifelong::Lifelong;
use grid_cells::{Cell, Grid, OutOfMemory};
use std::alloc::Global;

// The room, which is made for the grid where there is none.
pub(crate) fn made(
    alloc: Global,
    room: Option<Lifelong>,
    grid: &Grid,
    goal: Cell,
) -> Result<Lifelong, OutOfMemory>
    requires { IfSome room (IsRoomOn grid.now) }
    ensures on { IfOk result (IsRoomOn grid.now) }
    ensures told { IfOk result (λ made. made.queue.total ≡ total_in room) }
{
    match room {
        Some(room) => Ok(room),
        None => Lifelong::new(alloc, grid.copy()?, goal),
    }
}

// Lets the room go where no field is left.
pub(crate) fn let_go(room: &mut Option<Lifelong>, fields: &[Distances])
    ensures none { length fields.now ≡ 0 → room.new ≡ None }
    ensures some { 0 < length fields.now → room.new ≡ room.old }
{
    if fields.is_empty() {
        *room = None;
    }
}

// Puts the room back.
pub(crate) fn give_back(place: &mut Option<Lifelong>, room: Lifelong)
    ensures { place.new ≡ Some room }
{
    *place = Some(room);
}
