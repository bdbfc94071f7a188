ghost use Rattle.std.specs.Prelude.{◌≡◌, ◌≢◌, ℕ, ◌+◌, ◌<◌, ◌≤◌, OnOk, IsTrue};
ghost use Rattle.plan_table.specs.Route.{Fleet};
ghost use Rattle.conflict_ledger.specs.declared.places.Place.TheVariants.{Beside, Ahead, Behind};
ghost use Rattle.conflict_ledger.specs.Gathering.{GathersAbout, GathersMet, HasAllMet, HasSeenIn, WhereShown};

use crate::places::{Place, Stop, edge_of, following_of, in_order, meeting_of, swapping_of};
use crate::sight::Sight;
use crate::told::{goes_on, goes_to, is_shown, place_of};
use grid_cells::{Cell, OutOfMemory};
use mapf_rules::{Conflict, offer};
use where_index::Spot;

// Adds the entries that the agent has in that step with the other one of the spot, which is beside it.
fn offer_beside(
    sight: &Sight<'_>,
    entries: &mut Vec<Conflict>,
    time: u32,
    lasting: bool,
    spot: &Spot,
    here: Cell,
    next: Cell,
) -> Result<(), OutOfMemory>
    requires { (time < u32.MAX) × (spot.now.step.agent ≢ sight.now.agent) }
    ensures gathers { OnOk result (GathersMet sight.now Beside lasting spot.now time here next entries.old.items entries.new.items) }
    ensures has { OnOk result (HasAllMet sight.now Beside lasting spot.now time here next entries.new.items) }
{
    let (first, second) = in_order(sight.agent, spot.step.agent);
    let met = meeting_of(sight, !lasting, time, first, second, here);
    offer(entries, met)?;
    let shares = goes_to(sight, lasting, spot, time, here, next);
    offer(entries, edge_of(shares, time, first, second, here, next))?;
    Ok(())
}

// Adds the entries that the agent has in that step with the one of the spot, which shows it in that
// place. What the spot tells of that one is not looked up.
fn offer_met(
    sight: &Sight<'_>,
    entries: &mut Vec<Conflict>,
    time: u32,
    place: Place,
    lasting: bool,
    spot: &Spot,
    here: Cell,
    next: Cell,
) -> Result<(), OutOfMemory>
    requires { time < u32.MAX }
    ensures gathers { OnOk result (GathersMet sight.now place lasting spot.now time here next entries.old.items entries.new.items) }
    ensures has { OnOk result (HasAllMet sight.now place lasting spot.now time here next entries.new.items) }
{
    let agent = sight.agent;
    let other = spot.step.agent;
    if other == agent {
        return Ok(());
    }
    match place {
        Place::Beside => offer_beside(sight, entries, time, lasting, spot, here, next),
        Place::Ahead => {
            let goes = goes_on(lasting, spot, next);
            offer(entries, following_of(sight, goes, time, agent, other, next))?;
            let swaps = goes_to(sight, lasting, spot, time, next, here);
            offer(entries, swapping_of(swaps, time, agent, other, here, next))?;
            offer(entries, swapping_of(swaps, time, other, agent, next, here))?;
            Ok(())
        }
        Place::Behind => {
            let met = following_of(sight, false, time, other, agent, here);
            offer(entries, met)?;
            Ok(())
        }
    }
}

// Adds the entries that the agent has with the one of the spot in the step that leads to the stop, if
// that one is ahead of it.
pub(crate) fn offer_ahead(
    sight: &Sight<'_>,
    entries: &mut Vec<Conflict>,
    stop: &Stop,
    lasting: bool,
    spot: &Spot,
) -> Result<(), OutOfMemory>
    requires { (stop.now.past ≤ stop.now.time) × (stop.now.time < u32.MAX) }
    ensures gathers { OnOk result (WhereShown sight.now stop.now lasting spot.now (GathersAbout sight.now stop.now entries.old.items entries.new.items)) }
    ensures has { OnOk result (WhereShown sight.now stop.now lasting spot.now (HasSeenIn sight.now.agent stop.now lasting spot.now Ahead entries.new.items)) }
{
    if stop.before == stop.here || !is_shown(lasting, spot, stop.past) {
        return Ok(());
    }
    let place = Place::Ahead;
    offer_met(
        sight,
        entries,
        stop.past,
        place,
        lasting,
        spot,
        stop.before,
        stop.here,
    )
}

// Adds the entries that the agent has with the one of the spot in the step on from the stop, if that
// one is beside it, or else behind it.
pub(crate) fn offer_here(
    sight: &Sight<'_>,
    entries: &mut Vec<Conflict>,
    stop: &Stop,
    lasting: bool,
    spot: &Spot,
) -> Result<(), OutOfMemory>
    requires { (stop.now.past ≤ stop.now.time) × (stop.now.time < u32.MAX) }
    ensures gathers { OnOk result (WhereShown sight.now stop.now lasting spot.now (GathersAbout sight.now stop.now entries.old.items entries.new.items)) }
    ensures beside { OnOk result (WhereShown sight.now stop.now lasting spot.now
        (HasSeenIn sight.now.agent stop.now lasting spot.now Beside entries.new.items)) }
    ensures behind { OnOk result (WhereShown sight.now stop.now lasting spot.now
        (HasSeenIn sight.now.agent stop.now lasting spot.now Behind entries.new.items)) }
{
    if !stop.goes {
        return Ok(());
    }
    let Some(place) = place_of(lasting, spot, stop.time) else {
        return Ok(());
    };
    offer_met(
        sight, entries, stop.time, place, lasting, spot, stop.here, stop.next,
    )
}
