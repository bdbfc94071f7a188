ghost use Rattle.std.specs.Prelude.{◌≡◌, ◌≢◌, ℕ, ◌+◌, ◌<◌, ◌≤◌, OnOk};
ghost use Rattle.plan_table.specs.Route.{Fleet, last_of};
ghost use Rattle.conflict_ledger.specs.Late.{GathersLate, GathersPassing, HasAllLate, HasLate};
ghost use Rattle.conflict_ledger.specs.Sight.{InView, Sees};

use crate::places::{following_of, in_order, meeting_of};
use crate::sight::Sight;
use grid_cells::{Agent, Cell, OutOfMemory, Step};
use mapf_rules::{Conflict, offer};

// Adds the entries of the agent, at rest in that cell, and another one that is there at the time.
fn offer_passing(
    sight: &Sight<'_>,
    entries: &mut Vec<Conflict>,
    time: u32,
    other: Agent,
    rest: Cell,
) -> Result<(), OutOfMemory>
    ensures gathers { OnOk result (InView sight.now (GathersPassing sight.now time other rest entries.old.items entries.new.items)) }
    ensures has { OnOk result ((fleet : Fleet) → Sees sight.now fleet → HasLate fleet time sight.now.agent other rest entries.new.items) }
{
    if other == sight.agent {
        return Ok(());
    }
    let (first, second) = in_order(sight.agent, other);
    offer(entries, meeting_of(sight, false, time, first, second, rest))?;
    if time > 0 {
        offer(
            entries,
            following_of(sight, false, time - 1, other, sight.agent, rest),
        )?;
    }
    Ok(())
}

// Adds the entries of the agent after the last index of its path.
pub(crate) fn gather_late(
    sight: &Sight<'_>,
    entries: &mut Vec<Conflict>,
    last: u32,
) -> Result<(), OutOfMemory>
    requires { last < u32.MAX }
    ensures gathers { OnOk result (InView sight.now (GathersLate sight.now last entries.old.items entries.new.items)) }
    ensures has { OnOk result (InView sight.now (HasAllLate sight.now last entries.new.items)) }
{
    let Some(rest) = sight.own(last + 1) else {
        return Ok(());
    };
    let passings = sight.index.coming_through(rest, Step::new(last + 1))?;
    for passing in passings.items() {
        offer_passing(sight, entries, passing.time, passing.agent, rest)?;
    }
    Ok(())
}
