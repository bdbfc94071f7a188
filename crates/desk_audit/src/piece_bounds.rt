//! The lower bounds of a piece's agents, noted place by place: by their paths, and for many agents of one goal by one field.
ghost use Rattle.std.specs.Prelude.{◌≡◌, ◌+◌, ◌-◌, ◌≤◌, ◌<◌, ◌⊎◌, ℕ, IfOk, IfSome, Option, Some, None};
ghost use Rattle.std.specs.Prelude.{length, slice_get, slice_index_or, slice_set};
ghost use Rattle.plan_table.specs.declared.plans.Row.{Row};
ghost use Rattle.scene_edits.specs.Scene.{IsRowOn};
ghost use Rattle.desk_report.specs.Report.{IsBound};
ghost use Rattle.desk_audit.specs.Parts.{HasBounds, AreOnMap};

use crate::bounds::{bound_by, bound_by_path, searched};
use goal_fields::{AStar, PlainField};
use grid_cells::{Cell, Grid, OutOfMemory};
use plan_table::{Plans, Row};
use std::alloc::Global;
use std::collections::HashMap;

/// For so many agents of one goal a field of all distances to it is made, in place of a search for each.
const MANY: u32 = 16;

/// How many of the agents that have to be searched for have each goal.
type Takers = HashMap<Cell, u32>;

/// A list of that many bounds, of which none is noted.
pub(crate) fn none_noted(alloc: Global, many: u32) -> Result<Vec<Option<Option<u32>>>, OutOfMemory>
    ensures none { IfOk result (λ bounds. (k : ℕ) → slice_index_or bounds.items k None ≡ None) }
    ensures len { IfOk result (λ bounds. length bounds.items ≡ many) }
{
    Ok(vec![in alloc; None; many as usize]?)
}

// Notes a lower bound at the place.
fn note(bounds: &mut Vec<Option<Option<u32>>>, place: usize, bound: Option<u32>)
    requires { place < length bounds.old.items }
    ensures noted { bounds.new.items ≡ slice_set bounds.old.items place (Some bound) }
    ensures len { length bounds.new.items ≡ length bounds.old.items }
{
    bounds[place] = Some(bound);
}

// Counts one more agent of that goal.
fn count(takers: &mut Takers, goal: Cell) -> Result<(), OutOfMemory> {
    let many = takers.get(&goal).copied().unwrap_or(0);
    takers.insert(goal, many.saturating_add(1))?;
    Ok(())
}

// Notes the lower bound at the place, where the agent's path tells it, or else counts the agent by its goal.
fn note_by_path(
    bounds: &mut Vec<Option<Option<u32>>>,
    takers: &mut Takers,
    place: usize,
    grid: &Grid,
    row: &Row,
) -> Result<(), OutOfMemory>
    requires place { place < length bounds.old.items }
    requires on_map { IsRowOn grid.now.size row.now }
    ensures noted { (bounds.new.items ≡ bounds.old.items)
        ⊎ ((bound : Option ℕ) × (bounds.new.items ≡ slice_set bounds.old.items place (Some bound)) × IsBound grid.now row.now bound) }
    ensures len { length bounds.new.items ≡ length bounds.old.items }
{
    match bound_by_path(grid, row) {
        Some(steps) => {
            note(bounds, place, Some(steps));
            Ok(())
        }
        None => count(takers, row.goal),
    }
}

/// Notes the lower bounds that the agents' paths tell, and counts the others by their goals.
pub(crate) fn note_by_paths(
    alloc: Global,
    bounds: &mut Vec<Option<Option<u32>>>,
    grid: &Grid,
    plans: &Plans,
    from: u32,
) -> Result<Takers, OutOfMemory>
    requires within { from + length bounds.old.items ≤ length plans.now.rows }
    requires on_map { AreOnMap grid.now plans.now.rows }
    requires bounds { HasBounds grid.now plans.now.rows from bounds.old.items }
    ensures bounds { HasBounds grid.now plans.now.rows from bounds.new.items }
    ensures len { length bounds.new.items ≡ length bounds.old.items }
{
    let agents = plans.count();
    let mut takers = HashMap::new(alloc);
    for rank in from..agents {
        let place = (rank - from) as usize;
        if place < bounds.len() {
            note_by_path(bounds, &mut takers, place, grid, plans.entry_at(rank).1)?;
        }
    }
    Ok(takers)
}

// Notes the lower bound of each agent of the piece whose goal is that one.
fn note_bounds(
    bounds: &mut Vec<Option<Option<u32>>>,
    field: &PlainField,
    goal: Cell,
    plans: &Plans,
    from: u32,
)
    requires goal { field.now.goal ≡ goal }
    requires within { from + length bounds.old.items ≤ length plans.now.rows }
    requires on_map { AreOnMap field.now.grid plans.now.rows }
    requires bounds { HasBounds field.now.grid plans.now.rows from bounds.old.items }
    ensures bounds { HasBounds field.now.grid plans.now.rows from bounds.new.items }
    ensures len { length bounds.new.items ≡ length bounds.old.items }
{
    let agents = plans.count();
    for rank in from..agents {
        let place = (rank - from) as usize;
        if place < bounds.len() {
            let row = plans.entry_at(rank).1;
            if row.goal == goal {
                note(bounds, place, bound_by(field, row));
            }
        }
    }
}

/// The lower bound of the agent at the rank: one that was noted, or else by A*, or where many agents have
/// its goal by a field, by which those of the others are noted too.
pub(crate) fn bound_at(
    alloc: Global,
    bounds: &mut Vec<Option<Option<u32>>>,
    room: &mut Option<AStar>,
    takers: &Takers,
    grid: &Grid,
    plans: &Plans,
    from: u32,
    rank: u32,
) -> Result<Option<u32>, OutOfMemory>
    requires order { from ≤ rank }
    requires rank { rank - from < length bounds.old.items }
    requires within { from + length bounds.old.items ≤ length plans.now.rows }
    requires on_map { AreOnMap grid.now plans.now.rows }
    requires bounds { HasBounds grid.now plans.now.rows from bounds.old.items }
    requires room { IfSome room.old (λ search. search ≡ grid.now) }
    ensures bounds { HasBounds grid.now plans.now.rows from bounds.new.items }
    ensures len { length bounds.new.items ≡ length bounds.old.items }
    ensures room { IfSome room.new (λ search. search ≡ grid.now) }
    ensures bound { IfOk result (λ bound. (entry : ℕ × Row) → slice_get plans.now.rows rank ≡ Some entry → IsBound grid.now entry.1 bound) }
{
    if let Some(bound) = bounds[(rank - from) as usize] {
        return Ok(bound);
    }
    let _agents = plans.count();
    let row = plans.entry_at(rank).1;
    if takers.get(&row.goal).copied().unwrap_or(0) < MANY {
        return searched(alloc, room, grid, row);
    }
    let field = PlainField::new(alloc, grid, row.goal)?;
    note_bounds(bounds, &field, row.goal, plans, from);
    Ok(bound_by(&field, row))
}
