ghost use Rattle.std.specs.Prelude.{◌≡◌, ◌↔◌, ◌<◌, IfOk, IfSome, IsTrue};
ghost use Rattle.std.specs.Option.{option_map};
ghost use Rattle.plan_table.specs.Route.{Fleet, route_of};
ghost use Rattle.mapf_rules.specs.declared.entries.Conflict.{Conflict};
ghost use Rattle.mapf_rules.specs.Naming.{time_of};
ghost use Rattle.conflict_ledger.specs.Sight.{InBoth, InView, Sees, own_route};
ghost use Rattle.conflict_ledger.specs.Turns.{AreLeftTold, FindsRingLeft, FindsTurned, HasLeftTold, IsLeft, IsTurned, MayTurn};

use crate::sight::Sight;
use grid_cells::{Agent, OutOfMemory, Step};
use mapf_rules::{Conflict, offer, ring_out_of};
use std::alloc::Global;

// Which rings an agent's moves turn: those of the others that they break, or those that they join.
#[derive(Clone, Copy)]
pub(crate) enum Turn {
    Broken,
    Joined,
}

// The ring that the view shows in that step at the cell that the agent of the other sight moves out
// of, if it moves.
fn ring_left_at(
    alloc: Global,
    view: &Sight<'_>,
    with: &Sight<'_>,
    time: u32,
) -> Result<Option<Conflict>, OutOfMemory>
    requires { time < u32.MAX }
    ensures only { IfOk result (λ found. InView view.now (λ fleet. IfSome found (λ entry. IsLeft fleet (own_route with.now) entry × (time_of entry ≡ time)))) }
    ensures has { IfOk result (λ found. InView view.now (λ fleet. FindsRingLeft fleet with.now time found)) }
{
    let Some(cell) = with.own(time) else {
        return Ok(None);
    };
    let Some(to) = with.own(time + 1) else {
        return Ok(None);
    };
    if to == cell || !view.may_have_ring(time) {
        return Ok(None);
    }
    match ring_out_of(alloc, view, time, cell)? {
        Some(ring) => Ok(Some(Conflict::Cycle {
            time: Step::new(time),
            ring,
        })),
        None => Ok(None),
    }
}

// Whether the agent's moves can turn such a ring at the entry's time: they break one only where the
// agent meets a member of it in its cell, and join one only where another follows the agent.
fn may_turn(turn: Turn, entry: &Conflict, agent: Agent) -> bool
    ensures { IsTrue result ↔ MayTurn turn entry.now agent }
{
    match turn {
        Turn::Broken => matches!(entry, Conflict::Vertex { .. }),
        Turn::Joined => matches!(entry, Conflict::Following { leader, .. } if *leader == agent),
    }
}

// The ring that the view shows at the entry's time at the cell that the agent of the other sight
// moves out of, where the entry lets the agent's moves turn one.
fn ring_told(
    alloc: Global,
    view: &Sight<'_>,
    with: &Sight<'_>,
    turn: Turn,
    entry: &Conflict,
) -> Result<Option<Conflict>, OutOfMemory>
    ensures only { IfOk result (λ found. InView view.now (λ fleet. IfSome found (IsTurned fleet with.now turn entry.now))) }
    ensures has { IfOk result (λ found. InBoth view.now with.now (λ fleet. (ring : Conflict) → FindsTurned fleet with.now turn entry.now ring found)) }
{
    if !may_turn(turn, entry, with.agent) {
        return Ok(None);
    }
    let time = entry.time().number();
    if time < with.own_last() {
        ring_left_at(alloc, view, with, time)
    } else {
        Ok(None)
    }
}

/// The rings that the view shows at the cells that the agent of the other sight moves out of, at the
/// times at which one of that agent's entries lets its moves turn one.
pub(crate) fn rings_left(
    alloc: Global,
    view: &Sight<'_>,
    with: &Sight<'_>,
    turn: Turn,
    entries: &[Conflict],
) -> Result<Vec<Conflict>, OutOfMemory>
    ensures only { IfOk result (λ rings. InView view.now (λ fleet. AreLeftTold fleet with.now turn entries.now rings.items)) }
    ensures has { IfOk result (λ rings. InBoth view.now with.now (λ fleet. HasLeftTold fleet with.now turn entries.now rings.items)) }
{
    let mut rings = Vec::new(alloc);
    for entry in entries {
        let found = ring_told(alloc, view, with, turn, entry)?;
        offer(&mut rings, found)?;
    }
    Ok(rings)
}
