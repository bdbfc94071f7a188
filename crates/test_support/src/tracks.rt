//! Tracks of agents who stay, and how far two tracks are alike.
ghost use Rattle.std.specs.Prelude.{◌≡◌, ◌<◌, ℕ};
ghost use Rattle.plan_table.specs.Route.{route_of, position};

use plan_table::{Plan, Track};
use scene_edits::first_difference;

/// The track of an agent that rests at its path's end.
pub fn stays(plan: &Plan) -> Track<'_> {
    Track {
        plan,
        leaves: false,
    }
}

/// A time below which the positions on the two tracks are equal.
pub fn since(old: Track, new: Track) -> u32
    ensures { (t : ℕ) → t < result → position (route_of old.entry) t ≡ position (route_of new.entry) t }
{
    match first_difference(old, new, 0) {
        Some(time) => time,
        None => 0,
    }
}
