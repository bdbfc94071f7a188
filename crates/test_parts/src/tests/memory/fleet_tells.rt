//! What the index and the ledger of conflicts tell of a fleet.
use super::fleets::Both;
use super::told::are_told;
use super::trials::{Memory, Trial};
use crate::tests::build::{agent, at};
use conflict_ledger::ConflictLedger;
use grid_cells::{Agent, Step};
use mapf_rules::Kind;
use std::alloc::Global;
use std::process::Abort;
use where_index::{Move, WhereIndex};

/// What is told of a fleet.
#[derive(Clone, Copy)]
pub enum Told {
    /// Who stands in a cell at a time, where little memory is found.
    Standing(u32, (u32, u32), &'static [u32]),
    /// Who alone moves out of a cell in a step, and where to.
    Moving(u32, (u32, u32), Option<(u32, (u32, u32))>),
    /// How many records were touched, and the greatest last index.
    Records(u64, u32),
    /// Where an agent comes to rest, and when; it doesn't leave then.
    End(u32, Option<(u32, (u32, u32))>),
    /// The lines of all conflicts.
    Listed(Memory, &'static [u8]),
    /// How many conflicts there are of a kind.
    Count(Kind, u64),
    /// The ring of the first step that goes through (0,0), where little memory is found.
    Ring(&'static [u32]),
}

// Whether the agents are those of the numbers.
fn are_numbered(agents: &[Agent], numbers: &[u32]) -> bool {
    let mut place = 0usize;
    for number in numbers {
        match agents.get(place) {
            Some(agent) if agent.number() == *number => place = place.saturating_add(1),
            _ => return false,
        }
    }
    agents.len() == place
}

fn stand(
    rt: &impl Abort,
    trial: &mut Trial,
    index: &WhereIndex,
    time: u32,
    (x, y): (u32, u32),
    agents: &[u32],
) -> bool {
    let (step, cell) = (Step::new(time), at(rt, x, y));
    trial.leave(rt, Memory::Little);
    let found = index.standing_at(step, cell);
    let found = match trial.met(rt, found) {
        Some(found) => found,
        None => index.standing_at(step, cell).expect(rt, "memory"),
    };
    are_numbered(found.items(), agents)
}

fn moves(
    rt: &impl Abort,
    index: &WhereIndex,
    time: u32,
    (x, y): (u32, u32),
    mover: Option<(u32, (u32, u32))>,
) -> bool {
    let movers = index.movers(Step::new(time), at(rt, x, y));
    match mover {
        None => movers.is_empty(),
        Some((number, to)) => {
            let alone = Move {
                agent: agent(rt, number),
                to: at(rt, to.0, to.1),
            };
            movers == [alone].as_slice()
        }
    }
}

fn ends(rt: &impl Abort, index: &WhereIndex, number: u32, end: Option<(u32, (u32, u32))>) -> bool {
    let agent = agent(rt, number);
    match end {
        None => index.end(agent).is_none() && index.leaves(agent).is_none(),
        Some((time, (x, y))) => {
            index.end(agent) == Some((time, at(rt, x, y))) && index.leaves(agent) == Some(false)
        }
    }
}

fn lists(
    rt: &impl Abort,
    alloc: Global,
    trial: &mut Trial,
    ledger: &ConflictLedger,
    memory: Memory,
    lines: &[u8],
) -> bool {
    trial.leave(rt, memory);
    let listed = ledger.listed();
    let listed = match trial.met(rt, listed) {
        Some(listed) => listed,
        None => ledger.listed().expect(rt, "memory"),
    };
    are_told(rt, alloc, listed, lines)
}

fn has_ring(rt: &impl Abort, trial: &mut Trial, both: &Both, agents: &[u32]) -> bool {
    let (step, corner) = (Step::new(0), at(rt, 0, 0));
    trial.leave(rt, Memory::Little);
    let found = both.ledger.ring_at(step, corner, &both.index);
    let ring = match trial.met(rt, found) {
        Some(ring) => ring,
        None => both
            .ledger
            .ring_at(step, corner, &both.index)
            .expect(rt, "memory"),
    };
    are_numbered(ring.expect(rt, "a ring").items(), agents)
}

fn is_so(rt: &impl Abort, alloc: Global, trial: &mut Trial, both: &Both, told: Told) -> bool {
    let (index, ledger) = (&both.index, &both.ledger);
    match told {
        Told::Standing(time, cell, agents) => stand(rt, trial, index, time, cell, agents),
        Told::Moving(time, cell, mover) => moves(rt, index, time, cell, mover),
        Told::Records(touched, last) => index.touched() == touched && index.horizon() == last,
        Told::End(agent, end) => ends(rt, index, agent, end),
        Told::Listed(memory, lines) => lists(rt, alloc, trial, ledger, memory, lines),
        Told::Count(kind, count) => ledger.count(kind) == count,
        Told::Ring(agents) => has_ring(rt, trial, both, agents),
    }
}

/// All of that is so.
pub fn are_so(rt: &impl Abort, alloc: Global, trial: &mut Trial, both: &Both, rows: &[Told]) {
    for told in rows {
        assert!(rt; is_so(rt, alloc, trial, both, *told));
    }
}
