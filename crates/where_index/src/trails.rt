ghost use Rattle.std.specs.Prelude.{◌≡◌, Some};
ghost use Rattle.plan_table.specs.Path.{IsPath, last_index};
ghost use Rattle.plan_table.specs.Route.{route_of};
ghost use Rattle.where_index.specs.Records.{nothing, stand_at, tail_at, hop_at, hop_between, leg_at, leg_between};

use grid_cells::Cell;
use plan_table::Track;
use std::marker::Model;

/// From one cell to another in a step, or to the same one, where an agent waits.
#[derive(Clone, Copy, PartialEq, Eq)]
pub struct Hop {
    pub from: Cell,
    pub to: Cell,
}

/// The cells of a path, or none, and whether the agent leaves after the last one.
#[derive(Drop)]
pub(crate) struct Trail<'a> {
    cells: &'a [Cell],
    leaves: bool,
}

impl<'a> Model for Trail<'a> {
    ghost use Rattle.std.specs.Prelude.{◌+◌, ◌≤◌, length};
    ghost use Rattle.plan_table.specs.declared.paths.TheConstants.{MOST_LAST_INDEX};
    ghost use Rattle.plan_table.specs.Route.{Route};

    ghost Value = { Route };

    ghost view = { λ t. record { path = t.cells.now; leaves = t.leaves } };

    ghost invariant = { λ t. length t.cells.now ≤ MOST_LAST_INDEX + 1 };
}

impl<'a> Trail<'a> {
    /// No path.
    pub(crate) fn none() -> Trail<'a>
        ensures { result ≡ nothing }
    {
        Trail {
            cells: &[],
            leaves: false,
        }
    }

    /// The track's path.
    pub(crate) fn of(track: &Track<'a>) -> Trail<'a>
        ensures is { result ≡ route_of track.now }
        ensures path { IsPath track.now.plan.now }
    {
        Trail {
            cells: track.plan.cells(),
            leaves: track.leaves,
        }
    }

    /// The time of its last cell, and 0 where it has none.
    pub(crate) fn last(&self) -> u32
        ensures { result ≡ last_index self.now.path }
    {
        self.cells.len().saturating_sub(1) as u32
    }

    /// The cell where its agent stands at the time, before it comes to rest.
    pub(crate) fn stand(&self, time: u32) -> Option<Cell>
        ensures { result ≡ stand_at self.now time }
    {
        let (index, many) = (time as usize, self.cells.len());
        if index + 1 < many || (self.leaves && index + 1 == many) {
            Some(self.cells[index])
        } else {
            None
        }
    }

    /// The cell where its agent comes to rest at the time.
    pub(crate) fn tail(&self, time: u32) -> Option<Cell>
        ensures { result ≡ tail_at self.now time }
    {
        let index = time as usize;
        if !self.leaves && index + 1 == self.cells.len() {
            Some(self.cells[index])
        } else {
            None
        }
    }

    /// Its move in the step.
    pub(crate) fn hop(&self, time: u32) -> Option<Hop>
        ensures { result ≡ hop_at self.now.path time }
    {
        let index = time as usize;
        if index + 1 < self.cells.len() {
            hop_from(self.cells[index], self.cells[index + 1])
        } else {
            None
        }
    }

    /// Where its agent stands at the time, before it comes to rest, and where it is one step later.
    pub(crate) fn leg(&self, time: u32) -> Option<Hop>
        ensures { result ≡ leg_at self.now time }
    {
        leg_from(self.stand(time), self.hop(time))
    }
}

// From where an agent stands, if it does, to where its move leads, if it makes one.
fn leg_from(stand: Option<Cell>, hop: Option<Hop>) -> Option<Hop>
    ensures { result ≡ leg_between stand hop }
{
    let from = stand?;
    match hop {
        Some(hop) => Some(Hop { from, to: hop.to }),
        None => Some(Hop { from, to: from }),
    }
}

// The move from one cell to the next, if they differ.
fn hop_from(from: Cell, to: Cell) -> Option<Hop>
    ensures { result ≡ hop_between (Some from) (Some to) }
{
    if from == to {
        None
    } else {
        Some(Hop { from, to })
    }
}
