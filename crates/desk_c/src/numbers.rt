//! Cells and conflicts as numbers, as C has them.
ghost use Rattle.std.specs.Prelude.{◌≡◌, ◌⊎◌, map, All, IfOk, IfErr, slice_get, unwrap_or};
ghost use Rattle.desk_c.specs.Numbers.{HasFront, IsOfCell, cell_numbers, entry_numbers, no_cell};
ghost use Rattle.desk_c.specs.declared.statuses.Stop.TheVariants as stop;

use crate::statuses::Stop;
use desk_core::Conflict;
use grid_cells::{Agent, Cell};
use std::alloc::Global;

/// What stands for a number that isn't there.
pub const NO_NUMBER: u32 = 4_294_967_295;

/// A cell: its column and its row.
#[repr(C)]
#[derive(Clone, Copy)]
pub struct CellNumbers {
    pub x: u32,
    pub y: u32,
}

/// An entry of the conflict list: its kind by its place in the list's order, from 0, its time, its agents as the
/// list writes them, and its cells. NO_NUMBER stands for what its kind doesn't have; of a cycle the first two agents are given.
#[repr(C)]
#[derive(Clone, Copy)]
pub struct EntryNumbers {
    pub kind: u32,
    pub time: u32,
    pub first: u32,
    pub second: u32,
    pub cell: CellNumbers,
    pub other: CellNumbers,
}

fn numbers_of_cell(cell: Cell) -> CellNumbers
    ensures { result ≡ cell_numbers cell }
{
    CellNumbers {
        x: cell.x(),
        y: cell.y(),
    }
}

// No cell.
fn nowhere() -> CellNumbers
    ensures { result ≡ no_cell }
{
    CellNumbers {
        x: NO_NUMBER,
        y: NO_NUMBER,
    }
}

// The number of the agent at that index.
fn agent_at(ring: &[Agent], index: usize) -> u32
    ensures { result ≡ unwrap_or (slice_get ring.now index) NO_NUMBER }
{
    match ring.get(index) {
        Some(agent) => agent.number(),
        None => NO_NUMBER,
    }
}

fn entry(
    kind: u32,
    time: u32,
    agents: (u32, u32),
    cell: CellNumbers,
    other: CellNumbers,
) -> EntryNumbers
    ensures { result ≡ record { kind = kind; time = time; first = agents.0; second = agents.1; cell = cell; other = other } }
{
    EntryNumbers {
        kind,
        time,
        first: agents.0,
        second: agents.1,
        cell,
        other,
    }
}

// The entry as numbers.
fn numbers_of(conflict: &Conflict) -> EntryNumbers
    ensures { result ≡ entry_numbers conflict.now }
{
    let time = conflict.time().number();
    match conflict {
        Conflict::Vertex {
            first,
            second,
            cell,
            ..
        } => {
            let agents = (first.number(), second.number());
            entry(0, time, agents, numbers_of_cell(*cell), nowhere())
        }
        Conflict::Parked {
            first,
            second,
            cell,
            ..
        } => {
            let agents = (first.number(), second.number());
            entry(1, time, agents, numbers_of_cell(*cell), nowhere())
        }
        Conflict::Edge {
            first,
            second,
            cell,
            next,
            ..
        } => {
            let agents = (first.number(), second.number());
            entry(
                2,
                time,
                agents,
                numbers_of_cell(*cell),
                numbers_of_cell(*next),
            )
        }
        Conflict::Following {
            follower,
            leader,
            cell,
            ..
        } => {
            let agents = (follower.number(), leader.number());
            entry(3, time, agents, numbers_of_cell(*cell), nowhere())
        }
        Conflict::Swapping {
            first,
            second,
            cell,
            other,
            ..
        } => {
            let agents = (first.number(), second.number());
            entry(
                4,
                time,
                agents,
                numbers_of_cell(*cell),
                numbers_of_cell(*other),
            )
        }
        Conflict::Cycle { ring, .. } => {
            let agents = (agent_at(ring.items(), 0), agent_at(ring.items(), 1));
            entry(5, time, agents, nowhere(), nowhere())
        }
    }
}

/// Copies the front of the entries that there is room for, as numbers, and gives the count of all.
pub(crate) fn copy_front(entries: &[Conflict], room: &mut [EntryNumbers], count: &mut usize)
    ensures { HasFront (map entry_numbers entries.now) room.old room.new count.new }
{
    let all = entries.len();
    let most = all.min(room.len());
    for index in 0..most {
        room[index] = numbers_of(&entries[index]);
    }
    *count = all;
}

/// The cells of those numbers.
///
/// # Errors
///
/// Numbers that no cell has, or want of memory.
pub(crate) fn cells_of(alloc: Global, path: &[CellNumbers]) -> Result<Vec<Cell>, Stop>
    ensures cells { IfOk result (λ cells. path.now ≡ map cell_numbers cells.items) }
    ensures none { IfErr result (λ why. ((why ≡ stop.NoNumber) × (All IsOfCell path.now → ⊥)) ⊎ (why ≡ stop.OutOfMemory)) }
{
    let mut cells = Vec::new(alloc);
    if cells.reserve(path.len()).is_err() {
        return Err(Stop::OutOfMemory);
    }
    for numbers in path {
        let Some(cell) = Cell::new(numbers.x, numbers.y) else {
            return Err(Stop::NoNumber);
        };
        if cells.push(cell).is_err() {
            return Err(Stop::OutOfMemory);
        }
    }
    Ok(cells)
}
