ghost use Rattle.std.specs.Prelude.{◌≡◌, ◌+◌, ◌<◌, ◌≤◌, Some, None, IfSome, IsTrue, ◌↔◌};
ghost use Rattle.std.specs.Option.{option_copied};
ghost use Rattle.grid_cells.specs.Cell.{Point};
ghost use Rattle.plan_table.specs.Plans.{row_of};
ghost use Rattle.plan_table.specs.Route.{position_of, last_of, leaves_of, tracks_of};
ghost use Rattle.mapf_rules.specs.Entries.{OnePasses, both_end_by};
ghost use Rattle.mapf_rules.specs.Finding.{fleet_of, Finds, StandsOfPair, StepsBetween};
ghost use Rattle.mapf_rules.specs.declared.entries.Conflict.TheVariants.{Vertex, Parked, Edge, Following, Swapping};

use crate::entries::Conflict;
use crate::movers::{Table, destination};
use grid_cells::{Agent, Cell, Step};
use plan_table::{MOST_LAST_INDEX, Mode, Plans, Row};

// The agent's row, if it has one. Where the agents' numbers have no gaps, it is at the rank of its
// number.
#[tactic(auto, using(plan_table::proofs::Fleets::row_here))]
fn row(plans: &Plans, agent: Agent) -> Option<&Row>
    ensures { option_copied result ≡ row_of plans.now.rows agent }
{
    let rank = agent.number();
    if rank < plans.count() {
        let entry = plans.entry_at(rank);
        if entry.0 == agent {
            return Some(entry.1);
        }
    }
    plans.row(agent)
}

/// Where the agent is at the time, if it is anywhere.
pub fn position(plans: &Plans, mode: Mode, agent: Agent, time: u32) -> Option<Cell>
    ensures { result ≡ position_of (tracks_of mode plans.now.rows) agent time }
{
    let row = row(plans, agent)?;
    let track = row.track(mode);
    if track.leaves && time > track.plan.last() {
        None
    } else {
        Some(track.plan.at(Step::new(time)))
    }
}

/// The last index of the agent's path, and 0 where it has none.
pub fn last(plans: &Plans, mode: Mode, agent: Agent) -> u32
    ensures is { result ≡ last_of (tracks_of mode plans.now.rows) agent }
    ensures bound { result ≤ MOST_LAST_INDEX }
{
    match row(plans, agent) {
        Some(row) => row.track(mode).plan.last(),
        None => 0,
    }
}

// Whether the agent leaves after its last index.
fn leaves(plans: &Plans, mode: Mode, agent: Agent) -> bool
    ensures { result ≡ leaves_of (tracks_of mode plans.now.rows) agent }
{
    match row(plans, agent) {
        Some(row) => row.track(mode).leaves,
        None => false,
    }
}

// The greater of the two agents' last indices.
fn both_end(plans: &Plans, mode: Mode, first: Agent, second: Agent) -> u32
    ensures { result ≡ both_end_by (tracks_of mode plans.now.rows) first second }
{
    last(plans, mode, first).max(last(plans, mode, second))
}

// Whether one of the two agents still moves at the time, or is to leave.
fn passes(plans: &Plans, mode: Mode, time: u32, first: Agent, second: Agent) -> bool
    ensures { IsTrue result ↔ OnePasses (tracks_of mode plans.now.rows) time first second }
{
    time < both_end(plans, mode, first, second)
        || leaves(plans, mode, first)
        || leaves(plans, mode, second)
}

// The entry of the two agents where they are in one cell at the time.
pub(crate) fn meeting(table: &Table<'_>, time: u32, first: Agent, second: Agent) -> Option<Conflict>
    ensures only { IfSome result (StandsOfPair (fleet_of table.now) time first second) }
    ensures vertex { (cell : Point) → Finds (fleet_of table.now) result (Vertex time first second cell) }
    ensures parked { (cell : Point) → Finds (fleet_of table.now) result (Parked time first second cell) }
{
    let cell = position(table.plans, table.mode, first, time)?;
    let other = position(table.plans, table.mode, second, time)?;
    if first >= second || cell != other {
        return None;
    }
    let passes = passes(table.plans, table.mode, time, first, second);
    if passes {
        return Some(Conflict::Vertex {
            time: Step::new(time),
            first,
            second,
            cell,
        });
    }
    if time != both_end(table.plans, table.mode, first, second) {
        return None;
    }
    Some(Conflict::Parked {
        time: Step::new(time),
        first,
        second,
        cell,
    })
}

// Where the agent is at the start of the step that begins at the time, and where at its end.
fn step(table: &Table<'_>, time: u32, agent: Agent) -> Option<(Cell, Cell)>
    requires { time ≤ MOST_LAST_INDEX }
    ensures steps { IfSome result (λ step. StepsBetween (fleet_of table.now) time agent step.0 step.1) }
    ensures found { (from to : Point) → StepsBetween (fleet_of table.now) time agent from to → result ≡ Some (from, to) }
{
    let from = position(table.plans, table.mode, agent, time)?;
    let to = position(table.plans, table.mode, agent, time + 1)?;
    Some((from, to))
}

// The entry of the two agents where they make the same move in the step, or change places.
pub(crate) fn moving(table: &Table<'_>, time: u32, first: Agent, second: Agent) -> Option<Conflict>
    requires { time ≤ MOST_LAST_INDEX }
    ensures only { IfSome result (StandsOfPair (fleet_of table.now) time first second) }
    ensures edge { (cell next : Point) → Finds (fleet_of table.now) result (Edge time first second cell next) }
    ensures swapping { (cell other : Point) → Finds (fleet_of table.now) result (Swapping time first second cell other) }
{
    let (cell, next) = step(table, time, first)?;
    let (other, other_next) = step(table, time, second)?;
    if first >= second || cell == next {
        return None;
    }
    let time = Step::new(time);
    if other == cell && other_next == next {
        return Some(Conflict::Edge {
            time,
            first,
            second,
            cell,
            next,
        });
    }
    if other != next || other_next != cell {
        return None;
    }
    Some(Conflict::Swapping {
        time,
        first,
        second,
        cell,
        other,
    })
}

// The entry of the two agents where the one follows the other in the step.
pub(crate) fn following(
    table: &Table<'_>,
    time: u32,
    follower: Agent,
    leader: Agent,
) -> Option<Conflict>
    requires { time ≤ MOST_LAST_INDEX }
    ensures only { IfSome result (StandsOfPair (fleet_of table.now) time follower leader) }
    ensures found { (cell : Point) → Finds (fleet_of table.now) result (Following time follower leader cell) }
{
    let cell = position(table.plans, table.mode, leader, time)?;
    let _goes_on = position(table.plans, table.mode, leader, time + 1)?;
    let to = destination(table.plans, table.mode, time, follower)?;
    if follower == leader || to != cell {
        return None;
    }
    Some(Conflict::Following {
        time: Step::new(time),
        follower,
        leader,
        cell,
    })
}
