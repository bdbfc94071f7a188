//! Fleets of a few agents: the index and the ledger of conflicts, call by call.
use super::fleet_tells::{Told, are_so};
use super::trials::{Memory, Trial};
use crate::tests::build::{agent, plan};
use crate::tests::kept::{entered, placed};
use conflict_ledger::ConflictLedger;
use grid_cells::Agent;
use plan_table::{Plan, Track};
use std::alloc::Global;
use std::process::Abort;
use test_support::stays;
use where_index::WhereIndex;

/// An agent, its path before and after as the line of a path, empty where there is none, the memory that
/// the index and the ledger find, and what is told then.
pub type Turn = (u32, [&'static str; 2], [Memory; 2], &'static [Told]);

/// An index, and the ledger of its agents.
#[derive(Drop)]
pub struct Both {
    pub index: WhereIndex,
    pub ledger: ConflictLedger,
}

// Both, where there is a ledger.
fn joined(index: WhereIndex, ledger: Option<ConflictLedger>) -> Option<Both> {
    match ledger {
        Some(ledger) => Some(Both { index, ledger }),
        None => {
            drop(index);
            None
        }
    }
}

// The track of an agent that stays, if it has a plan.
fn track_of(plan: Option<&Plan>) -> Option<Track<'_>> {
    match plan {
        Some(plan) => Some(stays(plan)),
        None => None,
    }
}

// Both, where the agent has another track; none for want of memory.
fn turned(
    rt: &impl Abort,
    trial: &mut Trial,
    both: Both,
    agent: Agent,
    (old, new): (Option<Track>, Option<Track>),
    memory: [Memory; 2],
) -> Option<Both> {
    let Both { index, ledger } = both;
    trial.leave(rt, memory[0]);
    let index = placed(index, agent, old, new);
    let Some(index) = trial.met(rt, index) else {
        drop(ledger);
        return None;
    };
    trial.leave(rt, memory[1]);
    let ledger = entered(ledger, &index, agent, old, new);
    joined(index, trial.met(rt, ledger))
}

// Makes one turn; none for want of memory.
fn one_turn(
    rt: &impl Abort,
    alloc: Global,
    trial: &mut Trial,
    both: Both,
    (number, paths, memory, _): Turn,
) -> Option<Both> {
    let (old, new) = (plan(rt, alloc, paths[0]), plan(rt, alloc, paths[1]));
    let tracks = (track_of(old.as_ref()), track_of(new.as_ref()));
    turned(rt, trial, both, agent(rt, number), tracks, memory)
}

/// Makes the turns one after the other, from nobody on; none for want of memory.
pub fn run(rt: &impl Abort, alloc: Global, trial: &mut Trial, turns: &[Turn]) -> Option<()> {
    let mut both = Both {
        index: WhereIndex::new(alloc),
        ledger: ConflictLedger::new(alloc),
    };
    for turn in turns {
        let Some(next) = one_turn(rt, alloc, trial, both, *turn) else {
            return None;
        };
        both = next;
        are_so(rt, alloc, trial, &both, turn.3);
    }
    drop(both);
    Some(())
}
