//! Random changes of fleets and their maps: the index and both ledgers beside plain programs.
use super::changes::{change, flip, flipped};
use super::comparisons::{compare_costs, compare_index};
use super::conflicts::compare_conflicts;
use super::fleets::{Fleet, Manner};
use super::kept::Kept;
use super::walks::any_agent;
use grid_cells::Agent;
use plan_table::Mode;
use std::alloc::Global;
use std::process::Abort;
use test_support::Chain;

// A map's width and height, how many agents there may be, how many fleets are made of them, and of how
// many changes each.
type Shape = ((u32, u32), u32, u32, u32);

// Agents that wander, few of them and crowds.
const FEW_AND_CROWDS: &[Shape] = &[
    ((3, 2), 6, 5, 60),
    ((1, 1), 6, 1, 30),
    ((2, 1), 8, 1, 60),
    ((1, 3), 6, 1, 60),
    ((2, 2), 12, 2, 60),
    ((4, 3), 6, 2, 60),
    ((4, 1), 4, 1, 60),
    ((7, 2), 9, 1, 60),
    ((4, 4), 30, 1, 90),
];

// Convoys: round a square, where a ring may close, along one row and back, and in a row of a larger map.
const CONVOYS: &[Shape] = &[
    ((2, 2), 4, 2, 40),
    ((3, 2), 6, 2, 60),
    ((9, 1), 8, 1, 60),
    ((12, 3), 9, 1, 60),
];

// Agents that go to and fro.
const LONG: &[Shape] = &[((3, 2), 4, 1, 60), ((5, 1), 3, 1, 40)];

// How many rings were seen, the most agents that came through a cell as it opened or closed, and the
// greatest last index.
#[derive(Clone, Copy)]
struct Seen {
    rings: u64,
    visitors: usize,
    last: u32,
}

// The agent of a change: first each in its turn, and then any.
fn next_agent(rt: &impl Abort, fleet: &Fleet, turn: u32, chain: &mut Chain) -> Agent {
    if turn < fleet.agents {
        Agent::new(turn).expect(rt, "an agent")
    } else {
        any_agent(rt, chain, fleet.agents)
    }
}

// All agents come, and then there are changes by chance, with a comparison after each.
fn change_at_random(
    rt: &impl Abort,
    alloc: Global,
    mut fleet: Fleet,
    changes: u32,
    chain: &mut Chain,
    mut seen: Seen,
) -> Seen {
    let mut kept = Kept::new(alloc);
    for turn in 0..changes {
        let agent = next_agent(rt, &fleet, turn, chain);
        if let Some((cell, visitors)) = flip(rt, &mut fleet, chain) {
            kept = flipped(rt, alloc, kept, cell, &fleet);
            seen.visitors = seen.visitors.max(visitors);
        }
        kept = change(rt, alloc, kept, &mut fleet, agent, chain);
        compare_index(rt, alloc, &kept.index, &fleet, chain);
        compare_costs(rt, alloc, &kept, &fleet);
        let rings = compare_conflicts(rt, alloc, &kept, &fleet, chain);
        seen.rings = seen.rings.saturating_add(rings);
    }
    seen.last = seen.last.max(kept.index.horizon());
    drop(kept);
    drop(fleet);
    seen
}

// Changes the fleets of those shapes, in that manner and mode.
fn change_all(
    rt: &impl Abort,
    alloc: Global,
    shapes: &[Shape],
    manner: Manner,
    mode: Mode,
    chain: &mut Chain,
) -> Seen {
    let mut seen = Seen {
        rings: 0,
        visitors: 0,
        last: 0,
    };
    for (size, agents, fleets, changes) in shapes {
        for _ in 0..*fleets {
            let fleet = Fleet::new(rt, alloc, mode, *size, *agents, manner);
            seen = change_at_random(rt, alloc, fleet, *changes, chain, seen);
        }
    }
    seen
}

// The seed, the fleets and how they go, and what is to be seen at least: rings, nine visitors of one cell,
// paths of more than two hundred steps.
type Row = (u64, &'static [Shape], Manner, Seen);

const ROWS: &[Row] = &[
    (
        1,
        FEW_AND_CROWDS,
        Manner::Wandering,
        Seen {
            rings: 1,
            visitors: 9,
            last: 0,
        },
    ),
    (
        2,
        CONVOYS,
        Manner::InConvoy,
        Seen {
            rings: 1,
            visitors: 0,
            last: 0,
        },
    ),
    (
        3,
        LONG,
        Manner::ToAndFro,
        Seen {
            rings: 0,
            visitors: 0,
            last: 201,
        },
    ),
];

#[test]
fn fleets_agree_with_the_plain_programs(rt: HostRuntime) {
    for (seed, shapes, manner, least) in ROWS {
        let mut chain = Chain::new(*seed);
        for mode in [Mode::Stay, Mode::Disappear] {
            let seen = change_all(&rt, rt.alloc(), shapes, *manner, mode, &mut chain);
            assert!(rt; seen.rings >= least.rings && seen.visitors >= least.visitors);
            assert!(rt; seen.last >= least.last);
        }
    }
}
