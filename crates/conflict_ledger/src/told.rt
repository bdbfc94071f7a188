ghost use Rattle.std.specs.Prelude.{◌≡◌, ◌≢◌, ◌⊎◌, ◌↔◌, ℕ, ◌+◌, ◌<◌, Some, IsSome, IfSome, IsTrue};
ghost use Rattle.plan_table.specs.Route.{Fleet, position_of};
ghost use Rattle.conflict_ledger.specs.declared.places.Place.{Place};
ghost use Rattle.conflict_ledger.specs.Gathering.{IsShown, Tells, seen_at};
ghost use Rattle.conflict_ledger.specs.Sight.{Arrives, InView};

use crate::places::Place;
use crate::sight::Sight;
use grid_cells::Cell;
use where_index::Spot;

// Whether the spot shows its agent at the time: one that lasts does so from its own time on.
pub(crate) fn is_shown(lasting: bool, spot: &Spot, time: u32) -> bool
    ensures { IsTrue result ↔ IsShown lasting spot.now time }
{
    if lasting {
        spot.time <= time
    } else {
        spot.time == time
    }
}

// In which place the spot shows its agent to one that is in its cell as the step begins, if it does:
// behind only if not beside.
pub(crate) fn place_of(lasting: bool, spot: &Spot, time: u32) -> Option<Place>
    requires { time < u32.MAX }
    ensures beside { IsShown lasting spot.now time → result ≡ Some Place.Beside }
    ensures behind { IsShown lasting spot.now (time + 1) → (result ≡ Some Place.Behind) ⊎ IsShown lasting spot.now time }
    ensures shown { IfSome result (λ place. (place ≢ Place.Ahead) × IsShown lasting spot.now (seen_at place time)) }
{
    if is_shown(lasting, spot, time) {
        Some(Place::Beside)
    } else if is_shown(lasting, spot, time + 1) {
        Some(Place::Behind)
    } else {
        None
    }
}

// Whether the spot tells that its agent, which it shows in the cell, is somewhere one step later.
pub(crate) fn goes_on(lasting: bool, spot: &Spot, cell: Cell) -> bool
    ensures { (fleet : Fleet) (time : ℕ) → Tells fleet cell lasting spot.now time → IsTrue result → IsSome (position_of fleet spot.now.step.agent (time + 1)) }
{
    lasting || spot.step.to != cell
}

// Whether the agent that the spot shows in the cell at the time moves to the next one in the step. One
// that may wait or leave is looked up.
pub(crate) fn goes_to(
    sight: &Sight<'_>,
    lasting: bool,
    spot: &Spot,
    time: u32,
    cell: Cell,
    next: Cell,
) -> bool
    requires { time < u32.MAX }
    ensures { InView sight.now (λ fleet. Tells fleet cell lasting spot.now time → IsTrue result ↔ Arrives fleet spot.now.step.agent time cell next) }
{
    if lasting || cell == next {
        return false;
    }
    let to = spot.step.to;
    if to == cell {
        sight.is_at(spot.step.agent, time + 1, next)
    } else {
        to == next
    }
}
