//! What the members of an object of JSON tell of paths.
ghost use Rattle.std.specs.Prelude.{◌≡◌, ◌≤◌, ◌^◌, [], length, string_bytes, IfOk, IfSome};
ghost use Rattle.std.specs.Option.{option_copied, option_map};
ghost use Rattle.serde_json.specs.View.{items_view, view};
ghost use Rattle.scene_edits.specs.declared.scenes.TheConstants.{MOST_AGENTS};
ghost use Rattle.path_files.specs.Answers.{IsRead};
ghost use Rattle.path_files.specs.Robots.{cell_in, list_in, model_fault, model_fault_in, number_below, of_agent, path_of};
ghost use Rattle.path_files.specs.Robots.{paths_from, paths_in, place_at, starts_from, starts_in, team_size, told_paths};

use crate::faults::{Member, PathsFault};
use crate::moves::{cell, path_from};
use grid_cells::{Cell, List, MOST_SIDE};
use scene_edits::MOST_AGENTS;
use serde_json::Value;
use std::alloc::Global;

// The fault of an action model by name.
fn model_fault(name: Option<&str>) -> Option<PathsFault>
    ensures { result ≡ model_fault (option_map (λ name. name.now) name.entry) }
{
    match name {
        Some(name) if name == "MAPF" => None,
        Some(name) if name == "MAPF_T" => Some(PathsFault::TurningRobots),
        _ => Some(PathsFault::OtherModel),
    }
}

/// The fault of the action model that the object tells.
pub(crate) fn model_fault_in(object: &Value) -> Option<PathsFault>
    ensures { result ≡ model_fault_in (view object.now) }
{
    let model = object.get("actionModel")?;
    model_fault(model.as_str())
}

// The number, where it is below that.
fn number_below(bound: u64, value: &Value) -> Option<u32>
    requires { bound ≤ 2 ^ 32 }
    ensures { result ≡ number_below bound (view value.now) }
{
    let number = value.as_u64()?;
    if number < bound {
        Some(number as u32)
    } else {
        None
    }
}

/// How many robots the object tells.
pub(crate) fn team_size(value: Option<&Value>) -> Result<Option<u32>, PathsFault>
    ensures { result ≡ team_size (option_map (λ value. view value.now) value.entry) }
{
    let Some(value) = value else {
        return Ok(None);
    };
    match number_below(1 << 32, value) {
        Some(agents) => Ok(Some(agents)),
        None => Err(PathsFault::BadMember {
            member: Member::TeamSize,
        }),
    }
}

// The row or the column at that index.
fn place_at(index: usize, value: &Value) -> Option<u32>
    ensures { result ≡ place_at index (view value.now) }
{
    number_below(MOST_SIDE as u64, value.get(index)?)
}

// The cell of a list of a row and a column.
fn cell_in(value: &Value) -> Option<Cell>
    ensures { result ≡ cell_in (view value.now) }
{
    let row = place_at(0, value)?;
    let column = place_at(1, value)?;
    Cell::new(column, row)
}

// The cells of these lists.
fn starts_of(alloc: Global, list: &[Value]) -> Result<List<Cell>, PathsFault>
    ensures { IsRead (starts_from [] (items_view list.now)) result }
{
    let mut starts = Vec::new(alloc);
    for value in list {
        let agent = starts.len();
        if agent >= MOST_AGENTS as usize {
            return Err(PathsFault::TooManyPaths);
        }
        let Some(cell) = cell_in(value) else {
            return Err(PathsFault::BadStart { agent });
        };
        starts.push(cell).map_err(|_| PathsFault::OutOfMemory)?;
    }
    Ok(List::new(starts))
}

/// The robots' starts.
///
/// # Errors
/// `BadMember`, `TooManyPaths` or `BadStart`; or want of memory.
pub(crate) fn starts_in(alloc: Global, object: &Value) -> Result<List<Cell>, PathsFault>
    ensures { IsRead (starts_in (view object.now)) result }
{
    match object.get("start").and_then(Value::as_array) {
        Some(list) => starts_of(alloc, list),
        None => Err(PathsFault::BadMember {
            member: Member::Start,
        }),
    }
}

// The agent's path, with its fault told of the agent.
fn of_agent(agent: usize, path: Result<List<Cell>, PathsFault>) -> Result<List<Cell>, PathsFault>
    ensures { result ≡ of_agent agent path }
{
    match path {
        Err(PathsFault::BadMove { time, .. }) => Err(PathsFault::BadAction { agent, time }),
        path => path,
    }
}

// The agent's path from its start.
fn path_of(
    alloc: Global,
    starts: &[Cell],
    agent: usize,
    value: &Value,
) -> Result<List<Cell>, PathsFault>
    ensures { IsRead (path_of starts.now agent (view value.now)) result }
{
    let Some(moves) = value.as_str() else {
        return Err(PathsFault::BadAction { agent, time: 0 });
    };
    let start = match starts.get(agent) {
        Some(start) => *start,
        None => cell(0, 0),
    };
    of_agent(
        agent,
        path_from(alloc, false, agent, start, moves.as_bytes()),
    )
}

// The paths of these texts.
fn paths_of(alloc: Global, starts: &[Cell], list: &[Value]) -> Result<List<List<Cell>>, PathsFault>
    ensures is { IsRead (paths_from starts.now [] (items_view list.now)) result }
    ensures few { IfOk result (λ paths. length paths ≤ MOST_AGENTS) }
{
    let mut paths = Vec::new(alloc);
    for value in list {
        let agent = paths.len();
        if agent >= MOST_AGENTS as usize {
            return Err(PathsFault::TooManyPaths);
        }
        let path = path_of(alloc, starts, agent, value)?;
        paths.push(path).map_err(|_| PathsFault::OutOfMemory)?;
    }
    if paths.is_empty() {
        return Err(PathsFault::NoPaths);
    }
    Ok(List::new(paths))
}

// The member that tells the paths: those that were gone, else those that were planned.
fn told_paths(object: &Value) -> Option<&Value>
    ensures { option_map (λ paths. view paths.now) result ≡ told_paths (view object.now) }
{
    match object.get("actualPaths") {
        Some(paths) => Some(paths),
        None => object.get("plannerPaths"),
    }
}

/// The robots' paths from these starts.
///
/// # Errors
/// `BadMember`, or the first of `TooManyPaths` and `BadAction`, or `NoPaths`; or want of memory.
pub(crate) fn paths_in(
    alloc: Global,
    starts: &[Cell],
    object: &Value,
) -> Result<List<List<Cell>>, PathsFault>
    ensures is { IsRead (paths_in starts.now (view object.now)) result }
    ensures few { IfOk result (λ paths. length paths ≤ MOST_AGENTS) }
{
    match told_paths(object).and_then(Value::as_array) {
        Some(list) => paths_of(alloc, starts, list),
        None => Err(PathsFault::BadMember {
            member: Member::Paths,
        }),
    }
}
