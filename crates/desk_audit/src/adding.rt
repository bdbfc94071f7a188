//! How the entries of an agent with those that it meets, and of its ring, are added to a list.
ghost use Rattle.std.specs.Prelude.{◌≤◌, OnOk};
ghost use Rattle.plan_table.specs.Route.{tracks_of};
ghost use Rattle.mapf_rules.specs.Naming.{IsOfPair};
ghost use Rattle.desk_audit.specs.Seeking.{FindsAll, FindsPassed, IsOfMet, IsRingFrom};

use crate::movers::Indexed;
use crate::tables::Pass;
use grid_cells::{Agent, OutOfMemory, Step};
use mapf_rules::{Conflict, entries_of_pair, last, ring_from};
use plan_table::{MOST_LAST_INDEX, Mode, Plans};
use std::alloc::Global;

// Adds the entries of that time and those two agents, as written in this order.
fn add_pair(
    alloc: Global,
    entries: &mut Vec<Conflict>,
    plans: &Plans,
    mode: Mode,
    time: u32,
    first: Agent,
    second: Agent,
) -> Result<(), OutOfMemory>
    requires { time ≤ MOST_LAST_INDEX }
    ensures { OnOk result (FindsAll (tracks_of mode plans.now.rows) first entries.old.items entries.new.items (λ entry. IsOfPair entry time first second)) }
{
    let mut found = entries_of_pair(alloc, plans, mode, time, first, second)?.into_items();
    entries.append(&mut found)?;
    Ok(())
}

// Adds the entries of that time that name the agent first, with one that is met then.
pub(crate) fn add_met(
    alloc: Global,
    entries: &mut Vec<Conflict>,
    plans: &Plans,
    mode: Mode,
    time: u32,
    agent: Agent,
    met: &[Pass],
) -> Result<(), OutOfMemory>
    requires { time ≤ MOST_LAST_INDEX }
    ensures { OnOk result (FindsAll (tracks_of mode plans.now.rows) agent entries.old.items entries.new.items (IsOfMet time agent met.now)) }
{
    for pass in met {
        if pass.time <= time {
            add_pair(alloc, entries, plans, mode, time, agent, pass.agent)?;
        }
    }
    Ok(())
}

// Adds the entries that name the agent first, with one that passes after that time.
pub(crate) fn add_passed(
    alloc: Global,
    entries: &mut Vec<Conflict>,
    plans: &Plans,
    mode: Mode,
    after: u32,
    agent: Agent,
    passes: &[Pass],
) -> Result<(), OutOfMemory>
    ensures { OnOk result (FindsPassed (tracks_of mode plans.now.rows) agent entries.old.items entries.new.items after passes.now) }
{
    for pass in passes {
        if after < pass.time && pass.time <= last(plans, mode, pass.agent) {
            add_pair(alloc, entries, plans, mode, pass.time, agent, pass.agent)?;
        }
    }
    Ok(())
}

// Adds the ring of that time whose least agent is that one.
pub(crate) fn add_ring(
    alloc: Global,
    entries: &mut Vec<Conflict>,
    movers: &Indexed<'_>,
    time: u32,
    agent: Agent,
) -> Result<(), OutOfMemory>
    requires { time ≤ MOST_LAST_INDEX }
    ensures { OnOk result (FindsAll (tracks_of movers.now.mode movers.now.rows) agent entries.old.items entries.new.items (IsRingFrom time agent)) }
{
    let Some(to) = movers.destination(time, agent) else {
        return Ok(());
    };
    let Some(ring) = ring_from(alloc, movers, time, agent, to)? else {
        return Ok(());
    };
    entries.push(Conflict::Cycle {
        time: Step::new(time),
        ring,
    })?;
    Ok(())
}
