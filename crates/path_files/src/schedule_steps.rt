//! What is told of a schedule, line by line.
ghost use Rattle.std.specs.Prelude.{◌≡◌, ◌+◌, ◌^◌, ◌<◌, ◌≤◌, [], ◌∷◌, ◌++◌, length, unwrap_or, IfOk, OnOk, Ok, Some};
ghost use Rattle.path_files.specs.Answers.{IsRead};
ghost use Rattle.path_files.specs.ScheduleSteps.{
  IsWithin,
  may_end,
  no_schedule,
  schedule_with,
  with_agent,
  with_cell,
  with_place_line,
  with_spot,
};

use crate::faults::PathsFault;
use crate::schedule_lines::{Spot, agent_named, cell_at, is_begun, no_spot, spot_with};
use crate::told::with_path;
use grid_cells::{Cell, List, OutOfMemory};
use scene_edits::MOST_AGENTS;
use std::alloc::Global;
use std::mem;

/// What is told so far of a schedule.
#[derive(Drop)]
pub(crate) struct Schedule {
    /// The paths, each in its agent's place.
    pub(crate) told: List<Option<List<Cell>>>,
    /// The agent whose places come.
    pub(crate) agent: Option<u32>,
    /// How many of them are told, and the time of the next.
    pub(crate) time: usize,
    /// The next.
    pub(crate) spot: Spot,
}

/// Whether it may end here: no place is begun, and its agent has one.
pub(crate) fn may_end(schedule: &Schedule) -> bool
    ensures { result ≡ may_end schedule.now }
{
    !is_begun(schedule.spot) && (schedule.agent.is_none() || schedule.time > 0)
}

// Adds a cell at the end of a path, which begins where there is none.
fn add_cell(alloc: Global, place: &mut Option<List<Cell>>, cell: Cell) -> Result<(), OutOfMemory>
    ensures { OnOk result (place.new ≡ Some (unwrap_or place.old [] ++ cell ∷ [])) }
{
    let mut cells = match mem::replace(place, None) {
        Some(path) => path.into_items(),
        None => Vec::new(alloc),
    };
    cells.push(cell)?;
    *place = Some(List::new(cells));
    Ok(())
}

// The paths, where the agent's goes on with a cell.
fn with_cell(
    alloc: Global,
    told: List<Option<List<Cell>>>,
    agent: usize,
    cell: Cell,
) -> Result<List<Option<List<Cell>>>, PathsFault>
    requires { agent < length told }
    ensures is { IsRead (Ok (with_cell told agent cell)) result }
    ensures same { IfOk result (λ more. length more ≡ length told) }
{
    let mut places = told.into_items();
    match add_cell(alloc, &mut places[agent], cell) {
        Ok(()) => Ok(List::new(places)),
        Err(_) => Err(PathsFault::OutOfMemory),
    }
}

// The schedule with what is told of the agent's next place.
fn with_spot(
    alloc: Global,
    schedule: Schedule,
    agent: u32,
    spot: Spot,
) -> Result<Schedule, PathsFault>
    requires room { IsWithin schedule × (schedule.agent ≡ Some agent) }
    requires time { schedule.time + 1 < 2 ^ 64 }
    ensures is { IsRead (Ok (with_spot schedule agent spot)) result }
    ensures within { IfOk result (λ more. IsWithin more × (more.time ≤ schedule.time + 1)) }
{
    let Schedule { told, time, .. } = schedule;
    let agent_told = Some(agent);
    let Some(cell) = cell_at(&spot) else {
        return Ok(Schedule {
            told,
            agent: agent_told,
            time,
            spot,
        });
    };
    let told = with_cell(alloc, told, agent as usize, cell)?;
    Ok(Schedule {
        told,
        agent: agent_told,
        time: time + 1,
        spot: no_spot(),
    })
}

// The schedule with a line of a place.
fn with_place_line(
    alloc: Global,
    schedule: Schedule,
    line: usize,
    bytes: &[u8],
) -> Result<Schedule, PathsFault>
    requires room { IsWithin schedule }
    requires time { schedule.time + 1 < 2 ^ 64 }
    ensures is { IsRead (with_place_line schedule line bytes.now) result }
    ensures within { IfOk result (λ more. IsWithin more × (more.time ≤ schedule.time + 1)) }
{
    let time = schedule.time;
    let Some(agent) = schedule.agent else {
        drop(schedule);
        return Err(PathsFault::BadAgent { line });
    };
    let Some(spot) = spot_with(time, schedule.spot, bytes) else {
        drop(schedule);
        return Err(PathsFault::BadPlace { line, time });
    };
    with_spot(alloc, schedule, agent, spot)
}

// The schedule with a line of an agent.
fn with_agent(
    alloc: Global,
    schedule: Schedule,
    line: usize,
    agent: u32,
) -> Result<Schedule, PathsFault>
    requires { IsWithin schedule }
    ensures is { IsRead (with_agent schedule line agent) result }
    ensures within { IfOk result (λ more. IsWithin more × (more.time ≡ 0)) }
{
    let time = schedule.time;
    if !may_end(&schedule) {
        drop(schedule);
        return Err(PathsFault::BadPlace { line, time });
    }
    if agent >= MOST_AGENTS {
        drop(schedule);
        return Err(PathsFault::TooManyAgents { line });
    }
    let path = List::new(Vec::new(alloc));
    let told = with_path(line, schedule.told, agent as usize, path)?;
    Ok(Schedule {
        told,
        agent: Some(agent),
        time: 0,
        spot: no_spot(),
    })
}

/// The schedule with one more line.
///
/// # Errors
/// `BadPlace`, `TooManyAgents` or `BadAgent`; or want of memory.
pub(crate) fn schedule_with(
    alloc: Global,
    schedule: Schedule,
    line: usize,
    bytes: &[u8],
) -> Result<Schedule, PathsFault>
    requires room { IsWithin schedule }
    requires time { schedule.time + 1 < 2 ^ 64 }
    ensures is { IsRead (schedule_with schedule line bytes.now) result }
    ensures within { IfOk result (λ more. IsWithin more × (more.time ≤ schedule.time + 1)) }
{
    match agent_named(bytes) {
        Some(agent) => with_agent(alloc, schedule, line, agent),
        None => with_place_line(alloc, schedule, line, bytes),
    }
}

/// A schedule of which nothing is told.
pub(crate) fn no_schedule(alloc: Global) -> Schedule
    ensures is { result ≡ no_schedule }
    ensures within { IsWithin result }
{
    Schedule {
        told: List::new(Vec::new(alloc)),
        agent: None,
        time: 0,
        spot: no_spot(),
    }
}
