//! The ledger of conflicts beside the plain program, which goes over all times and pairs.
use super::fleets::Fleet;
use super::kept::Kept;
use super::walks::any_cell;
use grid_cells::{Agent, Step};
use mapf_rules::{Conflict, Kind, Ring, conflicts, position};
use std::alloc::Global;
use std::process::Abort;
use test_support::{Chain, KINDS};

// Whether the entry is of that kind, by cases: the ledger goes by `==` of kinds.
fn is_of(entry: &Conflict, kind: Kind) -> bool {
    match entry {
        Conflict::Vertex { .. } => matches!(kind, Kind::Vertex),
        Conflict::Parked { .. } => matches!(kind, Kind::Parked),
        Conflict::Edge { .. } => matches!(kind, Kind::Edge),
        Conflict::Following { .. } => matches!(kind, Kind::Following),
        Conflict::Swapping { .. } => matches!(kind, Kind::Swapping),
        Conflict::Cycle { .. } => matches!(kind, Kind::Cycle),
    }
}

// How many of the entries are of that kind.
fn many(entries: &[Conflict], kind: Kind) -> u64 {
    let mut count = 0u64;
    for entry in entries {
        if is_of(entry, kind) {
            count = count.saturating_add(1);
        }
    }
    count
}

// Compares how many entries there are of each kind, and whether there are any.
fn compare_kinds(rt: &impl Abort, kept: &Kept, entries: &[Conflict]) {
    for kind in KINDS {
        let count = many(entries, kind);
        assert!(rt; kept.ledger.count(kind) == count);
        assert!(rt; kept.ledger.has(kind) == (count > 0));
    }
}

// Looks for the ring where its member is in that step.
fn compare_member(
    rt: &impl Abort,
    kept: &Kept,
    fleet: &Fleet,
    time: Step,
    ring: &Ring,
    agent: Agent,
) {
    let cell = position(&fleet.plans, fleet.mode, agent, time.number()).expect(rt, "a cell");
    let found = kept.ledger.ring_at(time, cell, &kept.index);
    let found = found.expect(rt, "memory").expect(rt, "a ring");
    assert!(rt; found.items() == ring.items());
}

// Looks for each ring wherever one of its members is.
fn compare_rings(rt: &impl Abort, kept: &Kept, fleet: &Fleet, entries: &[Conflict]) {
    for entry in entries {
        if let Conflict::Cycle { time, ring } = entry {
            for agent in ring.items() {
                compare_member(rt, kept, fleet, *time, ring, *agent);
            }
        }
    }
}

// A ring that is found in any cell, at any time before the last, is among the entries.
fn compare_cell(
    rt: &impl Abort,
    kept: &Kept,
    fleet: &Fleet,
    entries: &[Conflict],
    chain: &mut Chain,
) {
    let time = Step::new(chain.roll((kept.index.horizon() as usize).max(1)) as u32);
    let cell = any_cell(rt, chain, fleet.grid.size());
    let found = kept.ledger.ring_at(time, cell, &kept.index);
    if let Some(ring) = found.expect(rt, "memory") {
        assert!(rt; entries.contains(&Conflict::Cycle { time, ring }));
    }
}

/// Compares the conflicts. Answers how many rings there are.
pub fn compare_conflicts(
    rt: &impl Abort,
    alloc: Global,
    kept: &Kept,
    fleet: &Fleet,
    chain: &mut Chain,
) -> u64 {
    let listed = kept.ledger.listed().expect(rt, "memory");
    let plain = conflicts(alloc, &fleet.plans, fleet.mode).expect(rt, "memory");
    assert!(rt; listed.items() == plain.items());
    compare_kinds(rt, kept, plain.items());
    compare_rings(rt, kept, fleet, plain.items());
    compare_cell(rt, kept, fleet, plain.items(), chain);
    kept.ledger.count(Kind::Cycle)
}
