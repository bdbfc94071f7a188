ghost use Rattle.std.specs.Prelude.{◌≡◌};
ghost use Rattle.plan_table.specs.Path.{SamePlaces};
ghost use Rattle.plan_table.specs.Route.{route_of, position};
ghost use Rattle.scene_edits.specs.Since.{IsSince};

use grid_cells::{Cell, Step};
use plan_table::Track;

/// The least time at which the positions on the two tracks differ, no position and a cell being
/// different, if they ever do. It compares them from the time on below which their paths are known to
/// be in the same cells.
pub fn first_difference(before: Track, after: Track, known: u32) -> Option<u32>
    requires { SamePlaces before.plan.now after.plan.now known }
    ensures { IsSince (route_of before.entry) (route_of after.entry) result }
{
    // Both rest, or are gone, one step after the later of their last indices.
    let end = before.plan.last().max(after.plan.last()) + 2;
    for time in before.plan.same_front(after.plan, known)..end {
        if position_at(before, time) != position_at(after, time) {
            return Some(time);
        }
    }
    None
}

// The position on the track at the time.
fn position_at(track: Track, time: u32) -> Option<Cell>
    ensures { result ≡ position (route_of track.entry) time }
{
    if track.leaves && track.plan.last() < time {
        None
    } else {
        Some(track.plan.at(Step::new(time)))
    }
}
