ghost use Rattle.std.specs.Prelude.{◌≡◌, ◌≤◌, ◌⊎◌, [], Contains};
ghost use Rattle.cost_ledger.specs.declared.rests.Rest.{Rest};

use grid_cells::Agent;
use std::collections::BTreeSet;

/// When an agent comes to rest. Rests compare by time, then agent.
#[derive(Clone, Copy, PartialEq, Eq, PartialOrd, Ord)]
pub(crate) struct Rest {
    pub time: u32,
    pub agent: Agent,
}

/// The greatest time of the rests, and 0 of none.
pub(crate) fn greatest(rests: &BTreeSet<Rest>) -> u32
    ensures most { (r : Rest) → Contains rests.now.keys r → r.time ≤ result }
    ensures one { (rests.now.keys ≡ []) × (result ≡ 0) ⊎ ((r : Rest) × Contains rests.now.keys r × (r.time ≡ result)) }
{
    match rests.last() {
        Some(last) => last.time,
        None => 0,
    }
}
