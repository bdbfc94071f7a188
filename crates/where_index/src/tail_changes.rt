ghost use Rattle.std.specs.Prelude.{◌≡◌, ℕ, ◌≤◌, length, None, OnOk, IsOk, IfOk};
ghost use Rattle.where_index.specs.Records.{tail_at, rest_at, leg_between, changed, changes_below};
ghost use Rattle.where_index.specs.Changes.{ChangesSpots, ChangesSpot};
ghost use Rattle.where_index.specs.Spots.{spot};

use crate::moves::Move;
use crate::spot_sets::Spot;
use crate::spots::Spots;
use crate::trails::Trail;
use grid_cells::{Agent, Cell, OutOfMemory};

/// Puts the new trail's tail in the place of the old one's, and counts those that only one of the
/// two has. There is at most one in each trail, at its end.
pub(crate) fn change_tails(
    tails: &mut Spots,
    agent: Agent,
    old: &Trail<'_>,
    new: &Trail<'_>,
    to: u32,
) -> Result<u32, OutOfMemory>
    requires same_after { (t : ℕ) → to ≤ t → tail_at old.now t ≡ tail_at new.now t }
    ensures set { OnOk result (ChangesSpots tails.old tails.new agent (rest_at old.now) (rest_at new.now)) }
    ensures free { length new.now.path ≡ 0 → IsOk result }
    ensures few { IfOk result (λ n. n ≤ 4) }
    ensures count { IfOk result (λ n. n ≡ changes_below changed (tail_at old.now) (tail_at new.now) to) }
{
    let (end, next) = (old.last(), new.last());
    let count = replace_rest(tails, agent, end, old.tail(end), new.tail(end))?;
    if end == next {
        return Ok(count);
    }
    let more = replace_rest(tails, agent, next, old.tail(next), new.tail(next))?;
    Ok(count + more)
}

// Puts the new spot of rest in the place of the old one where they differ, and counts those that only
// one of the two is.
fn replace_rest(
    tails: &mut Spots,
    agent: Agent,
    time: u32,
    old: Option<Cell>,
    new: Option<Cell>,
) -> Result<u32, OutOfMemory>
    ensures set { OnOk result (ChangesSpot tails.old tails.new agent time (leg_between old None) (leg_between new None)) }
    ensures free { new ≡ None → IsOk result }
    ensures count { IfOk result (λ n. n ≡ changed old new) }
    ensures few { IfOk result (λ n. n ≤ 2) }
{
    let count = count_of(&old, &new);
    if count > 0 {
        clear_rest(tails, agent, time, old);
        fill_rest(tails, agent, time, new)?;
    }
    Ok(count)
}

/// How many of the two are given, where they differ.
pub(crate) fn count_of(old: &Option<Cell>, new: &Option<Cell>) -> u32
    ensures is { result ≡ changed old.now new.now }
    ensures few { result ≤ 2 }
    ensures none { result ≡ 0 → old.now ≡ new.now }
{
    match (old, new) {
        (None, None) => 0,
        (None, Some(_)) => 1,
        (Some(_), None) => 1,
        (Some(a), Some(b)) => if *a == *b { 0 } else { 2 },
    }
}

// Takes the agent's spot of rest out, if it has one.
fn clear_rest(tails: &mut Spots, agent: Agent, time: u32, old: Option<Cell>)
    ensures { ChangesSpot tails.old tails.new agent time (leg_between old None) None }
{
    match old {
        Some(cell) => tails.lose(cell, &rest(agent, time, cell)),
        None => {}
    }
}

// Adds the agent's spot of rest, if it has one.
fn fill_rest(
    tails: &mut Spots,
    agent: Agent,
    time: u32,
    new: Option<Cell>,
) -> Result<(), OutOfMemory>
    ensures set { OnOk result (ChangesSpot tails.old tails.new agent time None (leg_between new None)) }
    ensures free { new ≡ None → IsOk result }
{
    match new {
        Some(cell) => tails.add(cell, rest(agent, time, cell)),
        None => Ok(()),
    }
}

// The agent at rest in the cell from the time on.
fn rest(agent: Agent, time: u32, cell: Cell) -> Spot
    ensures { result ≡ spot time agent cell }
{
    Spot {
        time,
        step: Move { agent, to: cell },
    }
}
