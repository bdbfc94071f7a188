//! Who moves out of a cell in a step, and to which cell.
ghost use Rattle.std.specs.Prelude.{◌≡◌, ℕ, ◌<◌, ◌↔◌, length, Some, IfSome, IfNone, IsSome, IsTrue, slice_get};
ghost use Rattle.grid_cells.specs.Cell.{Point};
ghost use Rattle.plan_table.specs.Plans.{agents_of};
ghost use Rattle.plan_table.specs.Route.{Fleet, tracks_of};
ghost use Rattle.mapf_rules.specs.Cycles.{MovesOut};
ghost use Rattle.mapf_rules.specs.RingWalk.{IsSoleMover, MovesTo};

use crate::pairs::position;
use grid_cells::{Agent, Cell};
use plan_table::{Mode, Plans};

// The agent at the rank.
pub(crate) fn agent_of(plans: &Plans, rank: u32) -> Agent
    requires { rank < length plans.now.rows }
    ensures { slice_get (agents_of plans.now.rows) rank ≡ Some result }
{
    plans.entry_at(rank).0
}

/// Whether the agent moves out of the cell in the step that begins at the time.
pub fn moves_out(plans: &Plans, mode: Mode, time: u32, agent: Agent, cell: Cell) -> bool
    requires { time < u32.MAX }
    ensures { IsTrue result ↔ MovesOut (tracks_of mode plans.now.rows) time agent cell }
{
    let Some(here) = position(plans, mode, agent, time) else {
        return false;
    };
    let Some(then) = position(plans, mode, agent, time + 1) else {
        return false;
    };
    here == cell && then != cell
}

// An agent that moves out of the cell in the step.
fn mover(plans: &Plans, mode: Mode, time: u32, cell: Cell) -> Option<Agent>
    requires { time < u32.MAX }
    ensures found { IfSome result (λ agent. MovesOut (tracks_of mode plans.now.rows) time agent cell) }
    ensures none { IfNone result ((agent : ℕ) → MovesOut (tracks_of mode plans.now.rows) time agent cell → ⊥) }
{
    for rank in 0..plans.count() {
        let agent = agent_of(plans, rank);
        if moves_out(plans, mode, time, agent, cell) {
            return Some(agent);
        }
    }
    None
}

// Whether no other agent moves out of the cell in the step.
fn is_sole(plans: &Plans, mode: Mode, time: u32, cell: Cell, agent: Agent) -> bool
    requires { time < u32.MAX }
    ensures { IsTrue result ↔ ((other : ℕ) → MovesOut (tracks_of mode plans.now.rows) time other cell → other ≡ agent) }
{
    for rank in 0..plans.count() {
        let other = agent_of(plans, rank);
        if other != agent && moves_out(plans, mode, time, other, cell) {
            return false;
        }
    }
    true
}

/// Tells of a fleet who moves out of each cell: all that the search for rings asks.
pub trait Movers {
    /// Whether it is that fleet of which the value tells.
    ghost tells: { Self → Fleet → Type 0 };

    /// The one agent that moves out of the cell in the step that begins at the time, and the cell
    /// to which it moves. None where no agent moves out of it, and where several do.
    fn sole_mover(&self, time: u32, cell: Cell) -> Option<(Agent, Cell)>
        requires { time < u32.MAX }
        ensures sole { (fleet : Fleet) → tells self.now fleet → IfSome result (λ mover. IsSoleMover fleet time cell mover.0) }
        ensures to { (fleet : Fleet) → tells self.now fleet → IfSome result (λ mover. MovesTo fleet time mover.0 mover.1) }
        ensures found { (fleet : Fleet) (agent : ℕ) → tells self.now fleet → IsSoleMover fleet time cell agent → IsSome result };
}

// The plans of a table in a mode.
#[derive(Clone, Copy)]
pub(crate) struct Table<'a> {
    pub plans: &'a Plans,
    pub mode: Mode,
}

impl Movers for Table<'_> {
    ghost tells = { λ table fleet. fleet ≡ tracks_of table.mode table.plans.now.rows };

    fn sole_mover(&self, time: u32, cell: Cell) -> Option<(Agent, Cell)> {
        sole_in(self.plans, self.mode, time, cell)
    }
}

// The one agent that moves out of the cell in the step, and the cell to which it moves.
fn sole_in(plans: &Plans, mode: Mode, time: u32, cell: Cell) -> Option<(Agent, Cell)>
    requires { time < u32.MAX }
    ensures sole { IfSome result (λ mover. IsSoleMover (tracks_of mode plans.now.rows) time cell mover.0) }
    ensures to { IfSome result (λ mover. MovesTo (tracks_of mode plans.now.rows) time mover.0 mover.1) }
    ensures found { (agent : ℕ) → IsSoleMover (tracks_of mode plans.now.rows) time cell agent → IsSome result }
{
    let agent = mover(plans, mode, time, cell)?;
    let to = destination(plans, mode, time, agent)?;
    if is_sole(plans, mode, time, cell, agent) {
        Some((agent, to))
    } else {
        None
    }
}

/// The cell to which the agent moves in the step that begins at the time, if it moves.
pub fn destination(plans: &Plans, mode: Mode, time: u32, agent: Agent) -> Option<Cell>
    requires { time < u32.MAX }
    ensures moves { IfSome result (MovesTo (tracks_of mode plans.now.rows) time agent) }
    ensures found { (cell : Point) → MovesTo (tracks_of mode plans.now.rows) time agent cell → result ≡ Some cell }
{
    let from = position(plans, mode, agent, time);
    let to = position(plans, mode, agent, time + 1)?;
    if from == Some(to) { None } else { Some(to) }
}
