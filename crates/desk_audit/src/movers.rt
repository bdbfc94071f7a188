//! Which agent moves out of a cell in a step, looked up in the index: what the search for rings
//! asks of it.
ghost use Rattle.std.specs.Prelude.{◌≡◌, ℕ, ◌<◌, Some, IfSome, IsSome};
ghost use Rattle.grid_cells.specs.Cell.{Point};
ghost use Rattle.plan_table.specs.Route.{tracks_of};
ghost use Rattle.mapf_rules.specs.RingWalk.{IsSoleMover, MovesTo};
ghost use Rattle.desk_audit.specs.Index.{IsIndexOf, IsSeenAt};

use crate::shares::share_at;
use crate::sightings::Sightings;
use crate::tables::{Table, bucket};
use grid_cells::{Agent, Cell};
use mapf_rules::{Movers, destination, moves_out};
use plan_table::{Mode, Plans};
use std::marker::Model;

/// The plans of a table in a mode, with their index.
#[derive(Drop)]
pub(crate) struct Indexed<'a> {
    pub plans: &'a Plans,
    pub mode: Mode,
    pub index: &'a [Sightings],
}

impl<'a> Model for Indexed<'a> {
    ghost use Rattle.plan_table.specs.Route.{tracks_of};
    ghost use Rattle.desk_audit.specs.Index.{Fleetwide, IsIndexOf};

    ghost Value = { Fleetwide };

    ghost view = { λ m. record { mode = m.mode; rows = m.plans.now.rows } };

    ghost invariant = { λ m. IsIndexOf (tracks_of m.mode m.plans.now.rows) m.index.now };
}

impl Movers for Indexed<'_> {
    ghost tells = { λ m fleet. fleet ≡ tracks_of m.mode m.rows };

    fn sole_mover(&self, time: u32, cell: Cell) -> Option<(Agent, Cell)> {
        mover_in(self.plans, self.mode, self.index, time, cell)
    }
}

impl<'a> Indexed<'a> {
    /// The cell to which the agent moves in the step that begins at the time, if it moves.
    pub(crate) fn destination(&self, time: u32, agent: Agent) -> Option<Cell>
        requires { time < u32.MAX }
        ensures moves { IfSome result (MovesTo (tracks_of self.now.mode self.now.rows) time agent) }
        ensures found { (cell : Point) → MovesTo (tracks_of self.now.mode self.now.rows) time agent cell → result ≡ Some cell }
    {
        destination(self.plans, self.mode, time, agent)
    }
}

// The one agent that moves out of the cell in the step, and the cell to which it moves.
fn mover_in(
    plans: &Plans,
    mode: Mode,
    index: &[Sightings],
    time: u32,
    cell: Cell,
) -> Option<(Agent, Cell)>
    requires time { time < u32.MAX }
    requires index { IsIndexOf (tracks_of mode plans.now.rows) index.now }
    ensures sole { IfSome result (λ mover. IsSoleMover (tracks_of mode plans.now.rows) time cell mover.0) }
    ensures to { IfSome result (λ mover. MovesTo (tracks_of mode plans.now.rows) time mover.0 mover.1) }
    ensures found { (agent : ℕ) → IsSoleMover (tracks_of mode plans.now.rows) time cell agent → IsSome result }
{
    let share = share_at(index, time);
    let agent = sole_mover(plans, mode, &share.moments, time, cell)?;
    let to = destination(plans, mode, time, agent)?;
    Some((agent, to))
}

// The one agent that moves out of the cell in the step, looked up among who is where then.
fn sole_mover(plans: &Plans, mode: Mode, moments: &Table, time: u32, cell: Cell) -> Option<Agent>
    requires time { time < u32.MAX }
    requires seen { IsSeenAt (tracks_of mode plans.now.rows) time moments.now }
    ensures sole { IfSome result (IsSoleMover (tracks_of mode plans.now.rows) time cell) }
    ensures only { (agent : ℕ) → IsSoleMover (tracks_of mode plans.now.rows) time cell agent → result ≡ Some agent }
{
    let mut found = None;
    let mut next = moments.heads[bucket(moments.heads.len(), cell, time)].place();
    while let Some(place) = next {
        let slot = &moments.slots[place as usize];
        let agent = slot.pass.agent;
        if moves_out(plans, mode, time, agent, cell) {
            match found {
                None => found = Some(agent),
                Some(other) => {
                    if other != agent {
                        return None;
                    }
                }
            }
        }
        next = slot.before.place();
    }
    found
}
