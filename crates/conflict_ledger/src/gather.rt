ghost use Rattle.std.specs.Prelude.{◌≡◌, ◌⊎◌, ℕ, ◌+◌, ◌<◌, ◌≤◌, false, OnOk, IfOk, IsTrue};
ghost use Rattle.plan_table.specs.Route.{Fleet, last_of};
ghost use Rattle.where_index.specs.Spots.{AreRising};
ghost use Rattle.mapf_rules.specs.declared.entries.Conflict.{Conflict};
ghost use Rattle.conflict_ledger.specs.declared.places.Place.{Place};
ghost use Rattle.conflict_ledger.specs.Gathering.{AreOwn, Gathers, GathersAbout, GathersUpTo, HasAhead, HasHere};
ghost use Rattle.conflict_ledger.specs.Gathering.{HasRising, HasStop, HasUpTo, IsStepOf, WhereAllShown, WhereStops};
ghost use Rattle.conflict_ledger.specs.Sight.{InView};

use crate::offers::{offer_ahead, offer_here};
use crate::places::Stop;
use crate::resting::gather_late;
use crate::sight::Sight;
use crate::spans::Span;
use grid_cells::{OutOfMemory, Step};
use mapf_rules::Conflict;
use std::alloc::Global;
use std::collections::btree_set::Range;
use where_index::Spot;

// Adds the entries that the agent has at the stop with each whom the spots show, once or, if they last,
// from then on. Those that show theirs only after it are not gone over.
fn offer_spots(
    sight: &Sight<'_>,
    entries: &mut Vec<Conflict>,
    stop: &Stop,
    lasting: bool,
    spots: Range<'_, Spot>,
) -> Result<(), OutOfMemory>
    requires { (stop.now.past ≤ stop.now.time) × (stop.now.time < u32.MAX) }
    ensures gathers { OnOk result (WhereAllShown sight.now stop.now lasting spots.entry (GathersAbout sight.now stop.now entries.old.items entries.new.items)) }
    ensures has { OnOk result (WhereAllShown sight.now stop.now lasting spots.entry (HasRising sight.now stop.now lasting spots.entry entries.new.items)) }
{
    for spot in spots {
        if spot.time > stop.time + 1 {
            return Ok(());
        }
        offer_ahead(sight, entries, stop, lasting, spot)?;
        offer_here(sight, entries, stop, lasting, spot)?;
    }
    Ok(())
}

// Adds the entries of the agent with those whom it meets at the stop: one search shows who is in that
// cell one step before it, with it and one step after it.
fn gather_stop(
    sight: &Sight<'_>,
    entries: &mut Vec<Conflict>,
    stop: &Stop,
) -> Result<(), OutOfMemory>
    requires { (stop.now.past ≤ stop.now.time) × (stop.now.time < u32.MAX) }
    ensures gathers { OnOk result (WhereStops sight.now stop.now (GathersAbout sight.now stop.now entries.old.items entries.new.items)) }
    ensures has { OnOk result (WhereStops sight.now stop.now (λ fleet. HasStop fleet sight.now.agent stop.now entries.new.items)) }
{
    let found = sight.index.occupants(stop.here, Step::new(stop.past));
    offer_spots(sight, entries, stop, false, found.stands)?;
    offer_spots(sight, entries, stop, true, found.tails)?;
    Ok(())
}

// When the step before the time begins, if the agent came by it; else the time.
fn past_of(came: bool, time: u32) -> u32
    requires { IsTrue came → 0 < time }
    ensures is { ((result + 1 ≡ time) × IsTrue came) ⊎ ((result ≡ time) × (came ≡ false)) }
    ensures order { (result ≤ time) × (time ≤ result + 1) }
{
    if came { time - 1 } else { time }
}

// Adds the entries of the agent with those whom it meets where it is at the time: ahead of it in the
// step before, where it came by one of the span's, and beside it and behind it in the step that begins
// then, where it goes by one of them.
fn gather_at(
    sight: &Sight<'_>,
    entries: &mut Vec<Conflict>,
    time: u32,
    came: bool,
    goes: bool,
) -> Result<(), OutOfMemory>
    requires { (IsTrue came → 0 < time) × (time < u32.MAX) }
    ensures gathers { OnOk result (InView sight.now (λ fleet. Gathers fleet sight.now.agent (IsStepOf time came goes) entries.old.items entries.new.items)) }
    ensures ahead { IsTrue came → OnOk result (InView sight.now (HasAhead sight.now.agent time entries.new.items)) }
    ensures here { IsTrue goes → OnOk result (InView sight.now (λ fleet. HasHere fleet sight.now.agent time entries.new.items)) }
{
    if !came && !goes {
        return Ok(());
    }
    let Some(here) = sight.own(time) else {
        return Ok(());
    };
    let past = past_of(came, time);
    let before = sight.own(past).unwrap_or(here);
    let next = sight.own(time + 1).unwrap_or(here);
    let stop = Stop {
        past,
        time,
        before,
        here,
        next,
        goes,
    };
    gather_stop(sight, entries, &stop)
}

// Adds the entries of the agent at the span's times, up to the last index of its path.
fn gather_path(
    sight: &Sight<'_>,
    entries: &mut Vec<Conflict>,
    span: &Span<'_>,
    last: u32,
) -> Result<(), OutOfMemory>
    requires { last < u32.MAX }
    ensures gathers { OnOk result (InView sight.now (GathersUpTo sight.now span.now last entries.old.items entries.new.items)) }
    ensures has { OnOk result (InView sight.now (HasUpTo sight.now span.now last entries.new.items)) }
{
    let mut came = false;
    for time in span.from..last + 1 {
        let goes = span.has(time);
        gather_at(sight, entries, time, came, goes)?;
        came = goes;
    }
    Ok(())
}

/// The entries of two agents that name the agent of the sight, at the span's times. One may come more
/// than once.
pub(crate) fn gather(
    alloc: Global,
    sight: &Sight<'_>,
    span: &Span<'_>,
) -> Result<Vec<Conflict>, OutOfMemory>
    ensures { IfOk result (λ entries. InView sight.now (AreOwn sight.now span.now entries.items)) }
{
    let mut entries = Vec::new(alloc);
    let last = sight.own_last();
    gather_path(sight, &mut entries, span, last)?;
    if let Some(_tracks) = span.tracks {
        return Ok(entries);
    }
    gather_late(sight, &mut entries, last)?;
    Ok(entries)
}
