ghost use Rattle.std.specs.Prelude.{ℕ, ◌≤◌, IfOk, IfSome, OnOk};
ghost use Rattle.plan_table.specs.Order.{ListsAll};
ghost use Rattle.plan_table.specs.Route.{last_of, tracks_of};
ghost use Rattle.mapf_rules.specs.ConflictList.{Stands, AreConflicts, listing_key};
ghost use Rattle.mapf_rules.specs.Naming.{IsOfPair, IsOfTwo};
ghost use Rattle.mapf_rules.specs.Finding.{fleet_of, Adds, FindsRing, StandsOfPair, StandsAt, StandsFirst};

use crate::entries::Conflict;
use crate::movers::{Table, agent_of, destination};
use crate::offers::offer;
use crate::pairs::{following, last, meeting, moving};
use crate::rings::ring_from;
use crate::sorting::sorted;
use grid_cells::{Agent, List, OutOfMemory, Step};
use plan_table::{MOST_LAST_INDEX, Mode, Plans};
use std::alloc::Global;

// Adds the entries of that time and those two agents, in this order.
fn add_pair(
    entries: &mut Vec<Conflict>,
    table: &Table<'_>,
    time: u32,
    first: Agent,
    second: Agent,
) -> Result<(), OutOfMemory>
    requires { time ≤ MOST_LAST_INDEX }
    ensures { OnOk result (Adds (StandsOfPair (fleet_of table.now) time first second) entries.old.items entries.new.items) }
{
    offer(entries, meeting(table, time, first, second))?;
    offer(entries, moving(table, time, first, second))?;
    offer(entries, following(table, time, first, second))?;
    Ok(())
}

/// The entries of that time and those two agents, as written in this order, in the order in which
/// entries are listed.
pub fn entries_of_pair(
    alloc: Global,
    plans: &Plans,
    mode: Mode,
    time: u32,
    first: Agent,
    second: Agent,
) -> Result<List<Conflict>, OutOfMemory>
    requires { time ≤ MOST_LAST_INDEX }
    ensures { IfOk result (ListsAll listing_key (λ entry. Stands (tracks_of mode plans.now.rows) entry × IsOfPair entry time first second)) }
{
    let table = Table { plans, mode };
    let mut entries = Vec::new(alloc);
    add_pair(&mut entries, &table, time, first, second)?;
    Ok(sorted(entries))
}

/// The entries of that time and those two agents, in either order, in the order in which entries
/// are listed.
pub fn entries_of_two(
    alloc: Global,
    plans: &Plans,
    mode: Mode,
    time: u32,
    first: Agent,
    second: Agent,
) -> Result<List<Conflict>, OutOfMemory>
    requires { time ≤ MOST_LAST_INDEX }
    ensures { IfOk result (ListsAll listing_key (λ entry. Stands (tracks_of mode plans.now.rows) entry × IsOfTwo entry time first second)) }
{
    let table = Table { plans, mode };
    let mut entries = Vec::new(alloc);
    add_pair(&mut entries, &table, time, first, second)?;
    add_pair(&mut entries, &table, time, second, first)?;
    Ok(sorted(entries))
}

// The cycle of that time whose least agent is that one.
fn cycle(
    alloc: Global,
    table: &Table<'_>,
    time: u32,
    first: Agent,
) -> Result<Option<Conflict>, OutOfMemory>
    requires { time ≤ MOST_LAST_INDEX }
    ensures only { IfOk result (λ found. IfSome found (StandsFirst (fleet_of table.now) time first)) }
    ensures found { IfOk result (FindsRing (fleet_of table.now) time first) }
{
    let Some(to) = destination(table.plans, table.mode, time, first) else {
        return Ok(None);
    };
    match ring_from(alloc, table, time, first, to)? {
        Some(ring) => Ok(Some(Conflict::Cycle {
            time: Step::new(time),
            ring,
        })),
        None => Ok(None),
    }
}

// Adds the entries of that time that name the agent first.
fn add_first(
    alloc: Global,
    table: &Table<'_>,
    entries: &mut Vec<Conflict>,
    time: u32,
    first: Agent,
) -> Result<(), OutOfMemory>
    requires { time ≤ MOST_LAST_INDEX }
    ensures { OnOk result (Adds (StandsFirst (fleet_of table.now) time first) entries.old.items entries.new.items) }
{
    for rank in 0..table.plans.count() {
        add_pair(entries, table, time, first, agent_of(table.plans, rank))?;
    }
    offer(entries, cycle(alloc, table, time, first)?)?;
    Ok(())
}

// Adds the entries of that time.
fn add_time(
    alloc: Global,
    table: &Table<'_>,
    entries: &mut Vec<Conflict>,
    time: u32,
) -> Result<(), OutOfMemory>
    requires { time ≤ MOST_LAST_INDEX }
    ensures { OnOk result (Adds (StandsAt (fleet_of table.now) time) entries.old.items entries.new.items) }
{
    for rank in 0..table.plans.count() {
        add_first(alloc, table, entries, time, agent_of(table.plans, rank))?;
    }
    Ok(())
}

// The greatest last index.
fn horizon(plans: &Plans, mode: Mode) -> u32
    ensures above { (agent : ℕ) → last_of (tracks_of mode plans.now.rows) agent ≤ result }
    ensures bound { result ≤ MOST_LAST_INDEX }
{
    let mut most = 0;
    for rank in 0..plans.count() {
        most = most.max(last(plans, mode, agent_of(plans, rank)));
    }
    most
}

/// The conflict list of the plans (Stern et al. 2019, in this project's profile), found by going
/// over all times and all pairs of agents.
pub fn conflicts(alloc: Global, plans: &Plans, mode: Mode) -> Result<List<Conflict>, OutOfMemory>
    ensures { IfOk result (AreConflicts (tracks_of mode plans.now.rows)) }
{
    let table = Table { plans, mode };
    let mut entries = Vec::new(alloc);
    for time in 0..horizon(plans, mode) + 1 {
        add_time(alloc, &table, &mut entries, time)?;
    }
    Ok(sorted(entries))
}
