//! Where the mark of an entry stands, and how it is drawn.
ghost use Rattle.std.specs.Prelude.{◌≡◌, ◌==◌, if◌then◌else◌, codes};
ghost use Rattle.plan_table.specs.Route.{tracks_of};
ghost use Rattle.desk_pictures.specs.Spots.{between, ring_cell, spot_across, spot_of, symbol_of};

use grid_cells::{Agent, Cell, Step};
use mapf_rules::{Conflict, position};
use plan_table::{Mode, Plans};

/// A point of the picture, in halves of a cell: a cell's middle has twice its column and row.
#[derive(Clone, Copy)]
pub(crate) struct Spot {
    pub across: u32,
    pub down: u32,
}

/// The middle of the two cells.
pub(crate) fn middle(first: Cell, second: Cell) -> Spot
    ensures { result ≡ between first second }
{
    Spot {
        across: first.x() + second.x(),
        down: first.y() + second.y(),
    }
}

/// Where the entry's mark stands: at its cell, between its two cells, and of a ring between the
/// first agent's cell and the one across.
pub(crate) fn spot_of(plans: &Plans, mode: Mode, entry: &Conflict) -> Spot
    ensures { result ≡ spot_of (tracks_of mode plans.now.rows) entry.now }
{
    match entry {
        Conflict::Vertex { cell, .. } => middle(*cell, *cell),
        Conflict::Parked { cell, .. } => middle(*cell, *cell),
        Conflict::Edge { cell, next, .. } => middle(*cell, *next),
        Conflict::Following { cell, .. } => middle(*cell, *cell),
        Conflict::Swapping { cell, other, .. } => middle(*cell, *other),
        Conflict::Cycle { time, ring } => spot_across(plans, mode, *time, ring.items()),
    }
}

// Between the cells of the ring's first agent and of the one across.
fn spot_across(plans: &Plans, mode: Mode, time: Step, ring: &[Agent]) -> Spot
    ensures { result ≡ spot_across (tracks_of mode plans.now.rows) time ring.now }
{
    let first = cell_in(plans, mode, time, ring, 0);
    let second = cell_in(plans, mode, time, ring, ring.len() / 2);
    match (first, second) {
        (Some(first), Some(second)) => middle(first, second),
        _ => Spot { across: 0, down: 0 },
    }
}

/// Where the ring's agent at that index is at the time.
pub(crate) fn cell_in(
    plans: &Plans,
    mode: Mode,
    time: Step,
    ring: &[Agent],
    index: usize,
) -> Option<Cell>
    ensures { result ≡ ring_cell (tracks_of mode plans.now.rows) time ring.now index }
{
    match ring.get(index) {
        Some(agent) => position(plans, mode, *agent, time.number()),
        None => None,
    }
}

/// The name of the entry's sign. Signs of two cells lie along them.
pub(crate) fn symbol_of(entry: &Conflict) -> &'static [u8]
    ensures { result.now ≡ symbol_of entry.now }
{
    match entry {
        Conflict::Vertex { .. } => b"V",
        Conflict::Parked { .. } => b"P",
        Conflict::Edge { cell, next, .. } => edge_symbol(*cell, *next),
        Conflict::Following { .. } => b"F",
        Conflict::Swapping { cell, other, .. } => swap_symbol(*cell, *other),
        Conflict::Cycle { .. } => b"C",
    }
}

fn edge_symbol(cell: Cell, next: Cell) -> &'static [u8]
    ensures { result.now ≡ (if cell.x == next.x then codes "D" else codes "E") }
{
    if cell.x() == next.x() { b"D" } else { b"E" }
}

fn swap_symbol(cell: Cell, other: Cell) -> &'static [u8]
    ensures { result.now ≡ (if cell.x == other.x then codes "T" else codes "S") }
{
    if cell.x() == other.x() { b"T" } else { b"S" }
}
