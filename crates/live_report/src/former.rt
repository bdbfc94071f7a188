//! The track and the plan of a row that an agent had.
ghost use Rattle.std.specs.Prelude.{◌≡◌, ◌↔◌, IsTrue};
ghost use Rattle.plan_table.specs.Path.{SamePlaces};
ghost use Rattle.plan_table.specs.Route.{route_of, route_in};

use grid_cells::{Cell, Step};
use plan_table::{Mode, Plan, Track};

// The track in that mode of an agent with that goal and that plan.
pub(crate) fn track_of(goal: Cell, plan: &Plan, mode: Mode) -> Track<'_>
    ensures { route_of result ≡ route_in mode (record { goal = goal; plan = plan.now }) }
{
    let end = plan.at(Step::new(plan.last()));
    Track {
        plan,
        leaves: mode == Mode::Disappear && end == goal,
    }
}

// Whether the two plans, which are known to be in the same cells at times below `known`, are one path.
pub(crate) fn is_same_plan(one: &Plan, other: &Plan, known: u32) -> bool
    requires { SamePlaces one.now other.now known }
    ensures { IsTrue result ↔ (one.now ≡ other.now) }
{
    let same = one.same_front(other, known);
    one.last() < same && other.last() < same
}
