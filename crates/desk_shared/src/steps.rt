//! What one pass does while it has the turn.
ghost use Rattle.std.specs.Prelude.{◌≡◌, [], ◌∷◌, true, None};
ghost use Rattle.desk_shared.specs.Passes.{ExtendsSeen};
ghost use Rattle.desk_shared.specs.Turns.{shown, IsSized, IsResting, HasTurn, IsSameSeat, IsDeskSeen, IsNextDesk, posed, since};
ghost use Rattle.desk_shared.specs.declared.board.Stage.TheVariants.{Making, Idle, Holding};

use crate::board::{Place, Rows};
use crate::plays::{Free, Grow, Reach, Win};
use desk_core::Desk;
use std::sync::Wait;

// Waits for the turn, and takes the desk.
pub(crate) fn win<R: Wait>(rt: &R, top: &Rows, place: &mut Place) -> Desk
    requires table { (place.old.table_id ≡ top.now.table_id) × IsSized top.now.table_id }
    requires ready { IsResting place.old }
    ensures seat { IsSameSeat place.old place.new }
    ensures found { ExtendsSeen (shown place.old.me.0) place.new.me.0.made }
    ensures won { place.new.me ≡ (posed place.old.me.0 Holding place.new.me.0.made, (0, None) ∷ []) }
    ensures desk { IsDeskSeen place.new.me.0 result }
{
    for _ in rt.forever() {
        if top.compare_exchange::<Win>(place, 1, 0, 1) == 0 {
            return top.exchange(place, 0, None).unwrap();
        }
        top.park(rt, 1, 1);
    }
    unreachable!()
}

// The first pass takes the empty slot.
pub(crate) fn reach(top: &Rows, place: &mut Place)
    requires table { (place.old.table_id ≡ top.now.table_id) × IsSized top.now.table_id }
    requires ready { (place.old.me.1 ≡ []) × (place.old.me.0.live ≡ true) × (place.old.me.0.stage ≡ Making) }
    ensures seat { IsSameSeat place.old place.new }
    ensures took { place.new.me ≡ (posed place.old.me.0 Holding place.old.me.0.made, (0, None) ∷ []) }
{
    top.load::<Reach>(place, 1);
}

// Puts the desk back as it was, and gives the turn up.
pub(crate) fn free(top: &Rows, place: &mut Place, desk: Desk)
    requires table { (place.old.table_id ≡ top.now.table_id) × IsSized top.now.table_id }
    requires ready { HasTurn place.old × IsDeskSeen place.old.me.0 desk }
    ensures seat { IsSameSeat place.old place.new }
    ensures freed { place.new.me ≡ (posed place.old.me.0 Idle place.old.me.0.made, []) }
{
    drop(top.exchange(place, 0, Some(desk)));
    top.store::<Free>(place, 1, 0);
    top.wake_one(1);
}

// Puts the desk back with one entry more, counts it, wakes those who wait for that, and gives the turn up.
pub(crate) fn grow(top: &Rows, place: &mut Place, desk: Desk)
    requires table { (place.old.table_id ≡ top.now.table_id) × IsSized top.now.table_id }
    requires ready { HasTurn place.old × IsNextDesk place.old.me.0 desk }
    ensures seat { IsSameSeat place.old place.new }
    ensures grown { place.new.me ≡ (posed place.old.me.0 Idle (since place.old.me.0.start desk), []) }
{
    drop(top.exchange(place, 0, Some(desk)));
    top.fetch_add::<Grow>(place, 0, 1);
    top.wake_all(0);
    top.store::<Free>(place, 1, 0);
    top.wake_one(1);
}
