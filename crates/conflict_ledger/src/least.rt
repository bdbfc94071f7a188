ghost use Rattle.std.specs.Prelude.{◌≡◌};
ghost use Rattle.grid_cells.specs.Cell.{point};
ghost use Rattle.conflict_ledger.specs.Kept.{IsLeastOf};

use grid_cells::{Agent, Cell, List, Step};
use mapf_rules::{Conflict, Kind};
use std::alloc::Global;

// An entry of the kind that is listed before all others of it. It need not stand in any fleet.
pub(crate) fn least_of(alloc: Global, kind: Kind) -> Conflict
    ensures { IsLeastOf kind result }
{
    let time = Step::new(0);
    let first = Agent::LEAST;
    let second = Agent::LEAST;
    let cell = first_cell();
    match kind {
        Kind::Vertex => Conflict::Vertex {
            time,
            first,
            second,
            cell,
        },
        Kind::Parked => Conflict::Parked {
            time,
            first,
            second,
            cell,
        },
        Kind::Edge => least_edge(),
        Kind::Following => Conflict::Following {
            time,
            follower: first,
            leader: second,
            cell,
        },
        Kind::Swapping => least_swapping(),
        Kind::Cycle => Conflict::Cycle {
            time,
            ring: List::new(Vec::new(alloc)),
        },
    }
}

// The entry of a move of two agents that is listed before all others.
fn least_edge() -> Conflict
    ensures { IsLeastOf Kind.Edge result }
{
    let cell = first_cell();
    Conflict::Edge {
        time: Step::new(0),
        first: Agent::LEAST,
        second: Agent::LEAST,
        cell,
        next: cell,
    }
}

// The entry of two agents that change places that is listed before all others.
fn least_swapping() -> Conflict
    ensures { IsLeastOf Kind.Swapping result }
{
    let cell = first_cell();
    Conflict::Swapping {
        time: Step::new(0),
        first: Agent::LEAST,
        second: Agent::LEAST,
        cell,
        other: cell,
    }
}

// The upper left cell.
fn first_cell() -> Cell
    ensures { result ≡ point 0 0 }
{
    let Some(cell) = Cell::new(0, 0) else {
        unreachable!()
    };
    cell
}
