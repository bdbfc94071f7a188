ghost use Rattle.std.specs.Prelude.{◌≡◌, length, OnOk, IsOk, IfOk};
ghost use Rattle.where_index.specs.Records.{leg_at, rest_at, apart_below};
ghost use Rattle.where_index.specs.Changes.{ChangesSpots, DifferWithin};
ghost use Rattle.where_index.specs.Traffic.{ChangesLegs};

use crate::leg_changes::change_legs;
use crate::tail_changes::change_tails;
use crate::traffic::Traffic;
use crate::trails::Trail;
use grid_cells::{Agent, OutOfMemory};

/// Puts the agent's records (Stand, Tail and Move) by the new trail in the place of those by the old
/// one, from one time to another, and counts those that only one of the two has.
pub(crate) fn change_records(
    traffic: &mut Traffic,
    agent: Agent,
    old: &Trail<'_>,
    new: &Trail<'_>,
    from: u32,
    to: u32,
) -> Result<u32, OutOfMemory>
    requires { DifferWithin old.now new.now from to }
    ensures traffic { OnOk result (ChangesLegs traffic.old traffic.new agent (leg_at old.now) (leg_at new.now)) }
    ensures tails { OnOk result (ChangesSpots traffic.old.tails traffic.new.tails agent (rest_at old.now) (rest_at new.now)) }
    ensures free { length new.now.path ≡ 0 → IsOk result }
    ensures count { IfOk result (λ n. n ≡ apart_below old.now new.now to) }
{
    let stepped = change_legs(traffic, agent, old, new, from, to)?;
    let rested = change_tails(&mut traffic.tails, agent, old, new, to)?;
    Ok(rested + stepped)
}
