//! The lower bound of an agent: told by its path, found by A*, or in a field of its goal.
ghost use Rattle.std.specs.Prelude.{◌≡◌, IfOk, IfSome, Some, None};
ghost use Rattle.scene_edits.specs.Scene.{IsRowOn};
ghost use Rattle.desk_report.specs.Report.{IsBound};

use goal_fields::{AStar, PlainField, steps_between};
use grid_cells::{Grid, OutOfMemory, Step};
use mapf_rules::{is_finished, is_unblocked};
use plan_table::Row;
use std::alloc::Global;

/// The bound that the agent's path tells: where it comes to its goal over open cells in no more steps
/// than lie between its start and its goal where nothing is closed, there are none shorter.
#[tactic(auto, using(crate::proofs::Bounding::bound_by_path))]
pub(crate) fn bound_by_path(grid: &Grid, row: &Row) -> Option<u32>
    requires { IsRowOn grid.now.size row.now }
    ensures { IfSome result (λ steps. IsBound grid.now row.now (Some steps)) }
{
    let steps = steps_between(row.plan.at(Step::new(0)), row.goal);
    if steps == row.plan.last() && is_finished(row) && is_unblocked(grid, &row.plan) {
        Some(steps)
    } else {
        None
    }
}

/// The lower bound of the agent with that row, where the field is that of its goal.
pub(crate) fn bound_by(field: &PlainField, row: &Row) -> Option<u32>
    requires goal { field.now.goal ≡ row.now.goal }
    requires on_map { IsRowOn field.now.grid.size row.now }
    ensures { IsBound field.now.grid row.now result }
{
    let _last = row.plan.last();
    field.distance(row.plan.at(Step::new(0)))
}

// The room of earlier searches on the grid, or new room where there is none.
fn room_of(alloc: Global, room: &mut Option<AStar>, grid: &Grid) -> Result<AStar, OutOfMemory>
    requires { IfSome room.old (λ search. search ≡ grid.now) }
    ensures made { IfOk result (λ search. search ≡ grid.now) }
    ensures taken { room.new ≡ None }
{
    match room.take() {
        Some(search) => Ok(search),
        None => AStar::new(alloc, grid),
    }
}

/// The lower bound of the agent with that row, by A*.
pub(crate) fn searched(
    alloc: Global,
    room: &mut Option<AStar>,
    grid: &Grid,
    row: &Row,
) -> Result<Option<u32>, OutOfMemory>
    requires room { IfSome room.old (λ search. search ≡ grid.now) }
    requires on_map { IsRowOn grid.now.size row.now }
    ensures room { IfSome room.new (λ search. search ≡ grid.now) }
    ensures bound { IfOk result (IsBound grid.now row.now) }
{
    let _last = row.plan.last();
    let start = row.plan.at(Step::new(0));
    let mut search = room_of(alloc, room, grid)?;
    let found = search.distance(start, row.goal);
    *room = Some(search);
    found
}
