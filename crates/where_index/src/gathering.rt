ghost use Rattle.std.specs.Prelude.{◌≡◌, ◌⊎◌, ◌↔◌, ℕ, [], ◌∷◌, IfOk, OnOk, Contains};
ghost use Rattle.std.specs.List.Sorted.{IsStrictlySortedBy};
ghost use Rattle.plan_table.specs.Order.{ListsAll};
ghost use Rattle.where_index.specs.declared.passings.Passing.{Passing};
ghost use Rattle.where_index.specs.Spots.{AreRising};
ghost use Rattle.where_index.specs.Shown.{HasAgentBy, AreAgentsBy, HasPassing, EqualsAreSame};

use crate::passings::Passing;
use crate::spot_sets::Spot;
use grid_cells::{Agent, List, OutOfMemory};
use smallvec::SmallVec;
use std::alloc::Global;
use std::collections::btree_set::Range;

// So many items of a list are gathered without memory: in most cells there are few agents.
const FEW: usize = 8;

/// The agents of the spots in either list up to a time, ascending.
pub(crate) fn agents_of(
    alloc: Global,
    stands: Range<'_, Spot>,
    tails: Range<'_, Spot>,
    time: u32,
) -> Result<List<Agent>, OutOfMemory>
    ensures { IfOk result (λ agents. AreRising stands.entry → AreRising tails.entry → AreAgentsBy time stands.entry tails.entry agents) }
{
    let mut found = SmallVec::new(alloc);
    gather_agents(&mut found, stands, time)?;
    gather_agents(&mut found, tails, time)?;
    listed(found)
}

/// Whom the spots in either list show at which times, by time, then agent.
pub(crate) fn passings_of(
    alloc: Global,
    stands: Range<'_, Spot>,
    tails: Range<'_, Spot>,
) -> Result<List<Passing>, OutOfMemory>
    ensures { IfOk result (ListsAll (λ p. p.time ∷ p.agent ∷ []) (λ p. HasPassing stands.entry p ⊎ HasPassing tails.entry p)) }
{
    let mut found = SmallVec::new(alloc);
    gather_passings(&mut found, stands)?;
    gather_passings(&mut found, tails)?;
    listed(found)
}

// Adds the agents of the spots up to the time. It stops at the first one after it.
fn gather_agents(
    found: &mut SmallVec<Agent, FEW>,
    spots: Range<'_, Spot>,
    time: u32,
) -> Result<(), OutOfMemory>
    ensures { OnOk result (AreRising spots.entry → (a : ℕ) → Contains found.new.items a ↔ (Contains found.old.items a ⊎ HasAgentBy time spots.entry a)) }
{
    for spot in spots {
        if spot.time > time {
            return Ok(());
        }
        found.push(spot.step.agent)?;
    }
    Ok(())
}

// Adds the spots' times and agents.
fn gather_passings(
    found: &mut SmallVec<Passing, FEW>,
    spots: Range<'_, Spot>,
) -> Result<(), OutOfMemory>
    ensures { OnOk result ((p : Passing) → Contains found.new.items p ↔ (Contains found.old.items p ⊎ HasPassing spots.entry p)) }
{
    for spot in spots {
        found.push(Passing {
            time: spot.time,
            agent: spot.step.agent,
        })?;
    }
    Ok(())
}

// The items in ascending order, each once.
fn listed<T: Ord + Default + Drop>(found: SmallVec<T, FEW>) -> Result<List<T>, OutOfMemory>
    ensures { IfOk result (λ items. IsStrictlySortedBy T.cmp items × (EqualsAreSame T.eq → (x : T) → Contains items x ↔ Contains found.items x)) }
{
    let mut items = found.into_vec()?;
    items.sort_unstable();
    items.dedup();
    Ok(List::new(items))
}
