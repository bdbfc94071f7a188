ghost use Rattle.std.specs.Prelude.{◌≡◌, ◌≢◌, ◌⊎◌, ◌↔◌, ℕ, ◌+◌, ◌<◌, ◌≤◌, Some, IsSome, IsTrue};
ghost use Rattle.std.specs.Option.{option_map, option_and_then};
ghost use Rattle.grid_cells.specs.Cell.{Point};
ghost use Rattle.plan_table.specs.Route.{Fleet, position, position_of, last_of, leaves_of, Leaves, route_of};
ghost use Rattle.mapf_rules.specs.Entries.{both_end_by};
ghost use Rattle.conflict_ledger.specs.Sight.{IsOwnMove, Sees, own_route};

use grid_cells::{Agent, Cell, Step};
use plan_table::{MOST_LAST_INDEX, Track};
use where_index::WhereIndex;

// What an index shows of the other agents, beside the track of one agent, if it is shown at all.
#[derive(Clone, Copy)]
pub(crate) struct Sight<'a> {
    pub index: &'a WhereIndex,
    pub agent: Agent,
    pub shown: Option<Track<'a>>,
}

// The position on the track at the time, if there is one.
pub(crate) fn position_on(track: &Track<'_>, time: u32) -> Option<Cell>
    ensures { result ≡ position (route_of track.now) time }
{
    if track.leaves && time > track.plan.last() {
        None
    } else {
        Some(track.plan.at(Step::new(time)))
    }
}

impl Sight<'_> {
    // Where the agent itself is at the time.
    pub(crate) fn own(&self, time: u32) -> Option<Cell>
        ensures { result ≡ option_and_then (λ route. position route time) (option_map route_of self.now.shown) }
    {
        match &self.shown {
            Some(track) => position_on(track, time),
            None => None,
        }
    }

    // The cell to which the agent itself moves out of that one in the step, if it does.
    pub(crate) fn own_move(&self, time: u32, cell: Cell) -> Option<Cell>
        requires { time < u32.MAX }
        ensures { (to : Point) → (result ≡ Some to) ↔ IsOwnMove (own_route self.now) time cell to }
    {
        let from = self.own(time)?;
        let to = self.own(time + 1)?;
        if from == cell && to != cell {
            Some(to)
        } else {
            None
        }
    }

    // The last index of the agent's own path.
    pub(crate) fn own_last(&self) -> u32
        ensures is { (fleet : Fleet) → Sees self.now fleet → result ≡ last_of fleet self.now.agent }
        ensures bound { result ≤ MOST_LAST_INDEX }
    {
        match &self.shown {
            Some(track) => track.plan.last(),
            None => 0,
        }
    }

    // Whether the agent's position at the time is the cell.
    pub(crate) fn is_at(&self, agent: Agent, time: u32, cell: Cell) -> bool
        ensures { (fleet : Fleet) → Sees self.now fleet → IsTrue result ↔ (position_of fleet agent time ≡ Some cell) }
    {
        if agent == self.agent {
            self.own(time) == Some(cell)
        } else {
            self.index.is_at(agent, Step::new(time), cell)
        }
    }

    // Whether the agent has a position at the time.
    pub(crate) fn has_position(&self, agent: Agent, time: u32) -> bool
        ensures { (fleet : Fleet) → Sees self.now fleet → IsTrue result ↔ IsSome (position_of fleet agent time) }
    {
        if agent == self.agent {
            self.own(time).is_some()
        } else {
            self.index.has_position(agent, Step::new(time))
        }
    }

    // The last index of the agent's path.
    pub(crate) fn last(&self, agent: Agent) -> u32
        ensures { (fleet : Fleet) → Sees self.now fleet → result ≡ last_of fleet agent }
    {
        if agent == self.agent {
            match &self.shown {
                Some(track) => track.plan.last(),
                None => 0,
            }
        } else {
            match self.index.end(agent) {
                Some(end) => end.0,
                None => 0,
            }
        }
    }

    // Whether the agent leaves after the last index of its path.
    pub(crate) fn leaves(&self, agent: Agent) -> bool
        ensures { (fleet : Fleet) → Sees self.now fleet → result ≡ leaves_of fleet agent }
    {
        if agent == self.agent {
            match &self.shown {
                Some(track) => track.leaves,
                None => false,
            }
        } else {
            self.index.leaves(agent).unwrap_or(false)
        }
    }

    // The greater of the two agents' last indices.
    pub(crate) fn both_end(&self, first: Agent, second: Agent) -> u32
        ensures { (fleet : Fleet) → Sees self.now fleet → result ≡ both_end_by fleet first second }
    {
        self.last(first).max(self.last(second))
    }

    // Whether one of the two agents still moves at the time, or is to leave.
    pub(crate) fn passes(&self, time: u32, first: Agent, second: Agent) -> bool
        ensures { (fleet : Fleet) → Sees self.now fleet
            → IsTrue result ↔ ((time < both_end_by fleet first second) ⊎ (Leaves fleet first ⊎ Leaves fleet second)) }
    {
        time < self.both_end(first, second) || self.leaves(first) || self.leaves(second)
    }
}
