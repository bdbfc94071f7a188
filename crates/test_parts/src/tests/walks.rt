//! Agents, cells and short walks by chance, on a map of any size.
use grid_cells::{Agent, Cell, Size};
use plan_table::Plan;
use std::alloc::Global;
use std::process::Abort;
use test_support::Chain;

/// One of so many agents.
pub fn any_agent(rt: &impl Abort, chain: &mut Chain, agents: u32) -> Agent {
    Agent::new(chain.roll((agents as usize).max(1)) as u32).expect(rt, "an agent")
}

/// A cell of the map.
pub fn any_cell(rt: &impl Abort, chain: &mut Chain, size: Size) -> Cell {
    let x = chain.roll(1_000) as u32 % size.width();
    let y = chain.roll(1_000) as u32 % size.height();
    size.cell(x, y).expect(rt, "a cell")
}

// The next cell of a round through the four cells in the corner, and from elsewhere one nearer to it.
fn round_square(x: u32, y: u32) -> (u32, u32) {
    match (x, y) {
        (0, 0) => (1, 0),
        (1, 0) => (1, 1),
        (1, 1) => (0, 1),
        (0, 1) => (0, 0),
        (0 | 1, _) => (x, y.saturating_sub(1)),
        _ => (x.saturating_sub(1), y),
    }
}

/// The next cell of that round where the turn is above 4, or one that is adjacent or the same. Where
/// the map lacks it, the cell itself.
pub fn next_to(size: Size, cell: Cell, turn: usize) -> Cell {
    let (x, y) = (cell.x(), cell.y());
    let place = match turn {
        0 => (x.saturating_sub(1), y),
        1 => (x.saturating_add(1), y),
        2 => (x, y.saturating_sub(1)),
        3 => (x, y.saturating_add(1)),
        4 => (x, y),
        _ => round_square(x, y),
    };
    size.cell(place.0, place.1).unwrap_or(cell)
}

/// The plan of the cells.
pub fn plan_of(rt: &impl Abort, cells: Vec<Cell>) -> Plan {
    match Plan::new(cells) {
        Ok(plan) => plan,
        Err(_) => panic!(rt; "no plan"),
    }
}

/// A plan that begins with the cells, of which the last is `here`, and goes on for some steps.
pub fn walk_on(
    rt: &impl Abort,
    mut cells: Vec<Cell>,
    mut here: Cell,
    chain: &mut Chain,
    size: Size,
) -> Plan {
    for _ in 0..chain.roll(7) {
        here = next_to(size, here, chain.roll(24));
        cells.push(here).expect(rt, "memory");
    }
    plan_of(rt, cells)
}

/// A plan from any cell.
pub fn walk(rt: &impl Abort, alloc: Global, chain: &mut Chain, size: Size) -> Plan {
    let start = any_cell(rt, chain, size);
    let mut cells = Vec::new(alloc);
    cells.push(start).expect(rt, "memory");
    walk_on(rt, cells, start, chain, size)
}
