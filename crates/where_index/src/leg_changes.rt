ghost use Rattle.std.specs.Prelude.{◌≡◌, ◌*◌, ◌≤◌, length, None, OnOk, IsOk, IfOk};
ghost use Rattle.where_index.specs.Records.{leg_at, changed_hop, leg_changed, legs_apart};
ghost use Rattle.where_index.specs.Changes.{DifferWithin};
ghost use Rattle.where_index.specs.Traffic.{ChangesLegs, ChangesLeg};

use crate::tail_changes::count_of;
use crate::traffic::Traffic;
use crate::trails::{Hop, Trail};
use grid_cells::{Agent, OutOfMemory};

/// Puts the new trail's stands and moves in the place of the old one's, and counts those that only
/// one of the two has.
pub(crate) fn change_legs(
    traffic: &mut Traffic,
    agent: Agent,
    old: &Trail<'_>,
    new: &Trail<'_>,
    from: u32,
    to: u32,
) -> Result<u32, OutOfMemory>
    requires { DifferWithin old.now new.now from to }
    ensures set { OnOk result (ChangesLegs traffic.old traffic.new agent (leg_at old.now) (leg_at new.now)) }
    ensures tails { traffic.new.tails ≡ traffic.old.tails }
    ensures free { length new.now.path ≡ 0 → IsOk result }
    ensures few { IfOk result (λ n. n ≤ 4 * to) }
    ensures count { IfOk result (λ n. n ≡ legs_apart old.now new.now to) }
{
    let mut count = 0;
    for time in from..to {
        count += change_leg(traffic, agent, old, new, time)?;
    }
    Ok(count)
}

// Puts the new trail's stand and move at a time in the place of the old one's, where they differ, and
// counts those that only one of the two has.
fn change_leg(
    traffic: &mut Traffic,
    agent: Agent,
    old: &Trail<'_>,
    new: &Trail<'_>,
    time: u32,
) -> Result<u32, OutOfMemory>
    ensures set { OnOk result (ChangesLeg traffic.old traffic.new agent time (leg_at old.now time) (leg_at new.now time)) }
    ensures tails { traffic.new.tails ≡ traffic.old.tails }
    ensures free { leg_at new.now time ≡ None → IsOk result }
    ensures few { IfOk result (λ n. n ≤ 4) }
    ensures count { IfOk result (λ n. n ≡ leg_changed old.now new.now time) }
{
    let count = count_of(&old.stand(time), &new.stand(time))
        + count_of_hops(&old.hop(time), &new.hop(time));
    if count > 0 {
        clear_leg(traffic, agent, time, old.leg(time));
        fill_leg(traffic, agent, time, new.leg(time))?;
    }
    Ok(count)
}

// How many of the two are given, where they differ.
fn count_of_hops(old: &Option<Hop>, new: &Option<Hop>) -> u32
    ensures is { result ≡ changed_hop old.now new.now }
    ensures few { result ≤ 2 }
    ensures none { result ≡ 0 → old.now ≡ new.now }
{
    match (old, new) {
        (None, None) => 0,
        (None, Some(_)) => 1,
        (Some(_), None) => 1,
        (Some(a), Some(b)) => if a.from == b.from && a.to == b.to {
            0
        } else {
            2
        },
    }
}

// Takes out where the agent goes, if it goes anywhere.
fn clear_leg(traffic: &mut Traffic, agent: Agent, time: u32, old: Option<Hop>)
    ensures set { ChangesLeg traffic.old traffic.new agent time old None }
    ensures tails { traffic.new.tails ≡ traffic.old.tails }
{
    match old {
        Some(leg) => traffic.lose(agent, time, leg),
        None => {}
    }
}

// Adds where the agent goes, if it goes anywhere.
fn fill_leg(
    traffic: &mut Traffic,
    agent: Agent,
    time: u32,
    new: Option<Hop>,
) -> Result<(), OutOfMemory>
    ensures set { OnOk result (ChangesLeg traffic.old traffic.new agent time None new) }
    ensures tails { traffic.new.tails ≡ traffic.old.tails }
    ensures free { new ≡ None → IsOk result }
{
    match new {
        Some(leg) => traffic.add(agent, time, leg),
        None => Ok(()),
    }
}
