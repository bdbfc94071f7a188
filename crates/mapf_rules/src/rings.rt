//! The ring of a step that begins with an agent, goes through one, or out of a cell.
ghost use Rattle.std.specs.Prelude.{◌≡◌, ◌⊎◌, ℕ, ◌<◌, ◌≤◌, ◌↔◌, List, Some, IfOk, IfSome, IsTrue, slice_index, Contains};
ghost use Rattle.plan_table.specs.Route.{Fleet};
ghost use Rattle.mapf_rules.specs.Cycles.{IsRing, IsRingAt};
ghost use Rattle.mapf_rules.specs.RingWalk.{MovesTo, FindsRingWith, IsLeastRound, IsOnlyFrom, IsOnlyThrough, IsOnlyWith};

use crate::entries::Ring;
use crate::movers::Movers;
use grid_cells::{Agent, Cell, List, MOST_AGENT, OutOfMemory};
use std::alloc::Global;
use std::collections::BTreeSet;

/// The ring of the step that begins at the time whose least agent is that one, where that agent
/// moves to the cell. It goes from each agent to the next.
pub fn ring_from<M: Movers>(
    alloc: Global,
    movers: &M,
    time: u32,
    first: Agent,
    to: Cell,
) -> Result<Option<Ring>, OutOfMemory>
    requires { time < u32.MAX }
    ensures ring { IfOk result (λ found. (fleet : Fleet) → M.tells movers.now fleet → MovesTo fleet time first to → IfSome found (IsRing fleet time)) }
    ensures first { IfOk result (λ found. IfSome found (λ ring. slice_index ring 0 ≡ first)) }
    ensures only { IfOk result (IsOnlyFrom (M.tells movers.now) time first to) }
{
    let mut chain = Vec::new(alloc);
    let mut seen = BTreeSet::new(alloc);
    let mut ahead = to;
    chain.push(first)?;
    seen.insert(first)?;
    let _number = first.number();
    for _ in 0..MOST_AGENT + 1 {
        let Some(mover) = movers.sole_mover(time, ahead) else {
            return Ok(None);
        };
        let next = mover.0;
        if next == first {
            let long = chain.len() >= 3;
            return Ok(if long { Some(List::new(chain)) } else { None });
        }
        if next < first || !seen.insert(next)? {
            return Ok(None);
        }
        let _number = next.number();
        chain.push(next)?;
        ahead = mover.1;
    }
    Ok(None)
}

/// The ring of the step that begins at the time which has that agent, where the agent moves to the
/// cell.
pub fn ring_through<M: Movers>(
    alloc: Global,
    movers: &M,
    time: u32,
    agent: Agent,
    to: Cell,
) -> Result<Option<Ring>, OutOfMemory>
    requires { time < u32.MAX }
    ensures ring { IfOk result (FindsRingWith (M.tells movers.now) time agent to agent) }
    ensures only { IfOk result (IsOnlyThrough (M.tells movers.now) time agent to) }
{
    match least_round(movers, time, agent, to) {
        Some(least) => ring_with(alloc, movers, time, least.0, least.1, agent),
        None => Ok(None),
    }
}

// The least agent on the way from the agent round to itself, and the cell to which that one moves, if
// the way comes back. It keeps one agent of the way marked: a way that comes to that one again goes
// round without the agent.
fn least_round<M: Movers>(movers: &M, time: u32, agent: Agent, to: Cell) -> Option<(Agent, Cell)>
    requires { time < u32.MAX }
    ensures moves { (fleet : Fleet) → M.tells movers.now fleet → MovesTo fleet time agent to → IfSome result (λ mover. MovesTo fleet time mover.0 mover.1) }
    ensures least { IsLeastRound (M.tells movers.now) time agent to result }
{
    let mut least = (agent, to);
    let mut ahead = to;
    let mut marked = agent;
    let _number = agent.number();
    for step in 0..MOST_AGENT + 1 {
        let mover = movers.sole_mover(time, ahead)?;
        if mover.0 == agent {
            return Some(least);
        }
        if mover.0 == marked {
            return None;
        }
        let _number = mover.0.number();
        marked = mark_of(step, marked, mover.0);
        least = lesser(least, mover);
        ahead = mover.1;
    }
    None
}

// The agent that is marked from a step on: the next one at each step that is a power of two.
fn mark_of(step: u32, marked: Agent, next: Agent) -> Agent
    ensures { (result ≡ marked) ⊎ (result ≡ next) }
{
    if step.is_power_of_two() { next } else { marked }
}

/// The ring of the step that begins at the time with a member that moves out of the cell.
pub fn ring_out_of<M: Movers>(
    alloc: Global,
    movers: &M,
    time: u32,
    cell: Cell,
) -> Result<Option<Ring>, OutOfMemory>
    requires { time < u32.MAX }
    ensures ring { IfOk result (λ found. (fleet : Fleet) → M.tells movers.now fleet → IfSome found (IsRingAt fleet time cell)) }
    ensures only { IfOk result (λ found. (fleet : Fleet) (ring : List ℕ) → M.tells movers.now fleet → IsRingAt fleet time cell ring → found ≡ Some ring) }
{
    let Some(mover) = movers.sole_mover(time, cell) else {
        return Ok(None);
    };
    ring_through(alloc, movers, time, mover.0, mover.1)
}

// The one of the two with the lesser agent.
fn lesser(a: (Agent, Cell), b: (Agent, Cell)) -> (Agent, Cell)
    ensures one { (result ≡ a) ⊎ (result ≡ b) }
    ensures first { result.0 ≤ a.0 }
    ensures second { result.0 ≤ b.0 }
{
    if b.0 < a.0 { b } else { a }
}

// The ring whose least agent is that one, if it has the other one too.
fn ring_with<M: Movers>(
    alloc: Global,
    movers: &M,
    time: u32,
    least: Agent,
    to: Cell,
    agent: Agent,
) -> Result<Option<Ring>, OutOfMemory>
    requires { time < u32.MAX }
    ensures ring { IfOk result (FindsRingWith (M.tells movers.now) time least to agent) }
    ensures only { IfOk result (IsOnlyWith (M.tells movers.now) time least to agent) }
{
    match ring_from(alloc, movers, time, least, to)? {
        Some(ring) => Ok(if has_agent(ring.items(), agent) {
            Some(ring)
        } else {
            None
        }),
        None => Ok(None),
    }
}

// Whether the list has the agent.
fn has_agent(agents: &[Agent], agent: Agent) -> bool
    ensures { IsTrue result ↔ Contains agents.now agent }
{
    for other in agents {
        if *other == agent {
            return true;
        }
    }
    false
}
