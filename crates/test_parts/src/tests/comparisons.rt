//! The index and the ledger of costs beside plain programs, which go over all agents and times.
use super::fleets::Fleet;
use super::kept::Kept;
use cost_ledger::CostLedger;
use grid_cells::{Agent, Cell, Step};
use mapf_rules::{
    blocked_visits, is_finished, last, makespan, position, settle_time, sum_of_costs,
};
use plan_table::{Mode, Row};
use std::alloc::Global;
use std::process::Abort;
use test_support::Chain;
use where_index::{Move, Passing, WhereIndex};

// A time, and a cell.
type Spot = (u32, Cell);

// Who is in the cell at the time. The index tells of each agent whether it is there.
fn standing_at(
    rt: &impl Abort,
    alloc: Global,
    index: &WhereIndex,
    fleet: &Fleet,
    (time, cell): Spot,
) -> Vec<Agent> {
    let (plans, mode) = (&fleet.plans, fleet.mode);
    let mut standing = Vec::new(alloc);
    for rank in 0..plans.count() {
        let (agent, _) = plans.entry_at(rank);
        let here = position(plans, mode, agent, time) == Some(cell);
        assert!(rt; index.is_at(agent, Step::new(time), cell) == here);
        if here {
            standing.push(agent).expect(rt, "memory");
        }
    }
    standing
}

// Who of those agents, all of whom are in the cell, is elsewhere at the time.
fn moving_out(
    rt: &impl Abort,
    alloc: Global,
    standing: &[Agent],
    fleet: &Fleet,
    (time, cell): Spot,
) -> Vec<Move> {
    let mut moving = Vec::new(alloc);
    for agent in standing {
        let next = position(&fleet.plans, fleet.mode, *agent, time);
        if let Some(to) = next
            && to != cell
        {
            let agent = *agent;
            moving.push(Move { agent, to }).expect(rt, "memory");
        }
    }
    moving
}

// Compares who is in the cell at the time, and who moves out of it.
fn compare_at(rt: &impl Abort, alloc: Global, index: &WhereIndex, fleet: &Fleet, spot: Spot) {
    let (time, cell) = spot;
    let step = Step::new(time);
    let standing = standing_at(rt, alloc, index, fleet, spot);
    let found = index.standing_at(step, cell).expect(rt, "memory");
    assert!(rt; found.items() == standing.as_slice());
    drop(found);
    let next = time.saturating_add(1);
    let moving = moving_out(rt, alloc, standing.as_slice(), fleet, (next, cell));
    assert!(rt; index.movers(step, cell) == moving.as_slice());
    drop(moving);
    drop(standing);
}

// Compares who comes through the cell from the time on.
fn compare_coming(rt: &impl Abort, alloc: Global, index: &WhereIndex, fleet: &Fleet, spot: Spot) {
    let (from, cell) = spot;
    let (plans, mode) = (&fleet.plans, fleet.mode);
    let mut passing = Vec::new(alloc);
    for time in from..=index.horizon() {
        for rank in 0..plans.count() {
            let (agent, _) = plans.entry_at(rank);
            let comes = time <= last(plans, mode, agent);
            if comes && position(plans, mode, agent, time) == Some(cell) {
                passing.push(Passing { time, agent }).expect(rt, "memory");
            }
        }
    }
    let coming = index
        .coming_through(cell, Step::new(from))
        .expect(rt, "memory");
    assert!(rt; coming.items() == passing.as_slice());
}

// Compares who is where at that time, and who comes there later.
fn compare_time(rt: &impl Abort, alloc: Global, index: &WhereIndex, fleet: &Fleet, time: u32) {
    let size = fleet.grid.size();
    for x in 0..size.width() {
        for y in 0..size.height() {
            let cell = Cell::new(x, y).expect(rt, "a cell");
            compare_at(rt, alloc, index, fleet, (time, cell));
            compare_coming(rt, alloc, index, fleet, (time, cell));
        }
    }
}

/// Compares who is where, and when: at all times, or at some fifty by chance where there are more.
pub fn compare_index(
    rt: &impl Abort,
    alloc: Global,
    index: &WhereIndex,
    fleet: &Fleet,
    chain: &mut Chain,
) {
    let end = index.horizon().saturating_add(1);
    let apart = end / 50 + 1;
    let first = chain.roll(apart as usize) as u32;
    for time in 0..=end {
        if time % apart == first {
            compare_time(rt, alloc, index, fleet, time);
        }
    }
    assert!(rt; index.count() == fleet.plans.count() as usize);
}

// Compares where the agent of that row ends.
fn compare_end(rt: &impl Abort, index: &WhereIndex, mode: Mode, agent: Agent, row: &Row) {
    let last = row.plan.last();
    let leaves = row.track(mode).leaves;
    assert!(rt; index.end(agent) == Some((last, row.plan.at(Step::new(last)))));
    assert!(rt; index.leaves(agent) == Some(leaves));
    for time in 0..last.saturating_add(3) {
        let given = time <= last || !leaves;
        assert!(rt; index.has_position(agent, Step::new(time)) == given);
    }
}

// Compares what the agent of that row costs.
fn compare_cost(rt: &impl Abort, costs: &CostLedger, agent: Agent, row: &Row) {
    assert!(rt; costs.settle(agent) == Some(settle_time(&row.plan)));
    assert!(rt; costs.finished(agent) == is_finished(row));
}

// Compares what is told of each agent there may be. Answers how many aren't finished.
fn compare_agents(rt: &impl Abort, kept: &Kept, fleet: &Fleet) -> u32 {
    let mut unfinished = 0u32;
    for number in 0..fleet.agents {
        let agent = Agent::new(number).expect(rt, "an agent");
        match fleet.plans.row(agent) {
            Some(row) => {
                compare_end(rt, &kept.index, fleet.mode, agent, row);
                compare_cost(rt, &kept.costs, agent, row);
                unfinished = unfinished.saturating_add(u32::from(!is_finished(row)));
            }
            None => {
                assert!(rt; kept.costs.settle(agent).is_none() && !kept.costs.finished(agent));
                assert!(rt; kept.index.end(agent).is_none() && kept.index.leaves(agent).is_none());
            }
        }
    }
    unfinished
}

/// Compares costs and blocked visits.
pub fn compare_costs(rt: &impl Abort, alloc: Global, kept: &Kept, fleet: &Fleet) {
    let (costs, plans) = (&kept.costs, &fleet.plans);
    assert!(rt; costs.unfinished() == compare_agents(rt, kept, fleet));
    assert!(rt; costs.sum() == sum_of_costs(alloc, plans).expect(rt, "memory"));
    assert!(rt; costs.makespan() == makespan(alloc, plans).expect(rt, "memory"));
    let told = costs.blocked_visits().expect(rt, "memory");
    let plain = blocked_visits(alloc, &fleet.grid, plans).expect(rt, "memory");
    assert!(rt; told.items() == plain.items());
}
