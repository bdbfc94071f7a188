ghost use Rattle.plan_table.specs.Route.{route_of};
ghost use Rattle.where_index.specs.Ends.{IsEndOfRoute};

use grid_cells::{Cell, Step};
use plan_table::Track;

/// Where and when a path ends, and whether its agent leaves then.
#[derive(Clone, Copy, PartialEq, Eq)]
pub(crate) struct End {
    pub last: u32,
    pub cell: Cell,
    pub leaves: bool,
}

impl End {
    /// The end of the track.
    pub(crate) fn of(track: &Track<'_>) -> End
        ensures { IsEndOfRoute result (route_of track.now) }
    {
        let last = track.plan.last();
        End {
            last,
            cell: track.plan.at(Step::new(last)),
            leaves: track.leaves,
        }
    }
}
