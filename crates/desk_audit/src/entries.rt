//! The conflict entries of a piece: those whose first written agent has a rank in the piece.
ghost use Rattle.std.specs.Prelude.{◌≡◌, ◌<◌, ◌≤◌, IfOk, OnOk, Some, length};
ghost use Rattle.plan_table.specs.Route.{tracks_of, position_of, last_of};
ghost use Rattle.mapf_rules.specs.ConflictList.{IsListed};
ghost use Rattle.desk_audit.specs.Index.{IsIndexOf};
ghost use Rattle.desk_audit.specs.Parts.{AreEntriesOf};
ghost use Rattle.desk_audit.specs.Seeking.{FindsAll, FindsLed, FindsRanked, HasOthersIn, IsAhead, IsFirstAfter, IsFirstAt};

use crate::adding::{add_met, add_passed, add_ring};
use crate::movers::Indexed;
use crate::shares::{passes_in, share_at};
use crate::sightings::Sightings;
use crate::tables::Pass;
use grid_cells::{Agent, Cell, OutOfMemory, Step};
use mapf_rules::{Conflict, sorted};
use plan_table::{MOST_LAST_INDEX, Mode, Plans};
use std::alloc::Global;

// The other agents that are in the cell at the time.
fn others_at(
    alloc: Global,
    plans: &Plans,
    mode: Mode,
    index: &[Sightings],
    time: u32,
    cell: Cell,
    agent: Agent,
) -> Result<Vec<Pass>, OutOfMemory>
    requires { IsIndexOf (tracks_of mode plans.now.rows) index.now }
    ensures { IfOk result (λ met. HasOthersIn (tracks_of mode plans.now.rows) time cell agent met.items) }
{
    let share = share_at(index, time);
    let mut met = Vec::new(alloc);
    share.moments.add_others(&mut met, cell, time, agent)?;
    if time <= share.first_rest {
        return Ok(met);
    }
    share.rests.add_others(&mut met, cell, 0, agent)?;
    Ok(met)
}

// Adds the entries of the step that begins at that time and in which the agent moves on to the
// cell: those that name it first, with one that is in that cell, and the ring whose least agent it
// is.
fn add_ahead(
    alloc: Global,
    entries: &mut Vec<Conflict>,
    plans: &Plans,
    mode: Mode,
    index: &[Sightings],
    time: u32,
    cell: Cell,
    agent: Agent,
) -> Result<(), OutOfMemory>
    requires time { time ≤ MOST_LAST_INDEX }
    requires index { IsIndexOf (tracks_of mode plans.now.rows) index.now }
    ensures { OnOk result (FindsLed (tracks_of mode plans.now.rows) agent entries.old.items entries.new.items time cell) }
{
    let leaders = others_at(alloc, plans, mode, index, time, cell, agent)?;
    if !leaders.is_empty() {
        add_met(alloc, entries, plans, mode, time, agent, &leaders)?;
        let movers = Indexed { plans, mode, index };
        add_ring(alloc, entries, &movers, time, agent)?;
    }
    Ok(())
}

// Adds the entries of that time that name the agent first, where it is in one cell, and moves on to
// the other, if that is given.
fn add_step(
    alloc: Global,
    entries: &mut Vec<Conflict>,
    plans: &Plans,
    mode: Mode,
    index: &[Sightings],
    time: u32,
    here: Cell,
    ahead: Option<Cell>,
    agent: Agent,
) -> Result<(), OutOfMemory>
    requires time { time ≤ MOST_LAST_INDEX }
    requires index { IsIndexOf (tracks_of mode plans.now.rows) index.now }
    requires here { position_of (tracks_of mode plans.now.rows) agent time ≡ Some here }
    requires ahead { IsAhead (tracks_of mode plans.now.rows) agent time here ahead }
    ensures { OnOk result (FindsAll (tracks_of mode plans.now.rows) agent entries.old.items entries.new.items (IsFirstAt time agent)) }
{
    let met = others_at(alloc, plans, mode, index, time, here, agent)?;
    add_met(alloc, entries, plans, mode, time, agent, &met)?;
    if let Some(cell) = ahead {
        add_ahead(alloc, entries, plans, mode, index, time, cell, agent)?;
    }
    Ok(())
}

// Adds the entries that name the agent first, at times after its path has ended in the cell.
fn add_rest(
    alloc: Global,
    entries: &mut Vec<Conflict>,
    plans: &Plans,
    mode: Mode,
    index: &[Sightings],
    end: u32,
    cell: Cell,
    agent: Agent,
) -> Result<(), OutOfMemory>
    requires index { IsIndexOf (tracks_of mode plans.now.rows) index.now }
    requires end { end ≡ last_of (tracks_of mode plans.now.rows) agent }
    requires there { position_of (tracks_of mode plans.now.rows) agent end ≡ Some cell }
    ensures { OnOk result (FindsAll (tracks_of mode plans.now.rows) agent entries.old.items entries.new.items (IsFirstAfter end agent)) }
{
    let passes = passes_in(alloc, index, cell, agent)?;
    add_passed(alloc, entries, plans, mode, end, agent, &passes)?;
    Ok(())
}

// Adds the entries that name the agent at that rank first.
fn add_agent(
    alloc: Global,
    entries: &mut Vec<Conflict>,
    plans: &Plans,
    mode: Mode,
    index: &[Sightings],
    rank: u32,
) -> Result<(), OutOfMemory>
    requires rank { rank < length plans.now.rows }
    requires index { IsIndexOf (tracks_of mode plans.now.rows) index.now }
    ensures { OnOk result (FindsRanked mode plans.now.rows rank entries.old.items entries.new.items) }
{
    let _agents = plans.count();
    let entry = plans.entry_at(rank);
    let agent = entry.0;
    let plan = &entry.1.plan;
    let end = plan.last();
    for time in 0..end + 1 {
        let here = plan.at(Step::new(time));
        let next = plan.at(Step::new(time + 1));
        let ahead = if next == here { None } else { Some(next) };
        add_step(alloc, entries, plans, mode, index, time, here, ahead, agent)?;
    }
    let cell = plan.at(Step::new(end));
    add_rest(alloc, entries, plans, mode, index, end, cell, agent)?;
    Ok(())
}

/// The entries whose first written agent has a rank from one on and before another, in the order in
/// which they are listed, so that those of all pieces need only be merged.
pub(crate) fn entries_of(
    alloc: Global,
    plans: &Plans,
    mode: Mode,
    index: &[Sightings],
    from: u32,
    to: u32,
) -> Result<Vec<Conflict>, OutOfMemory>
    requires order { from ≤ to }
    requires within { to ≤ length plans.now.rows }
    requires index { IsIndexOf (tracks_of mode plans.now.rows) index.now }
    ensures exact { IfOk result (λ entries. AreEntriesOf (tracks_of mode plans.now.rows) plans.now.rows from to entries.items) }
    ensures listed { IfOk result (λ entries. IsListed entries.items) }
{
    let mut entries = Vec::new(alloc);
    for rank in from..to {
        add_agent(alloc, &mut entries, plans, mode, index, rank)?;
    }
    Ok(sorted(entries).into_items())
}
