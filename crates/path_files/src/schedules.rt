ghost use Rattle.std.specs.Prelude.{◌≡◌, ◌+◌, ◌^◌, ◌<◌, ◌≤◌, length, IfOk};
ghost use Rattle.bench_reader.specs.Lines.{lines_of};
ghost use Rattle.scene_edits.specs.declared.scenes.TheConstants.{MOST_AGENTS};
ghost use Rattle.path_files.specs.Answers.{IsRead};
ghost use Rattle.path_files.specs.Lines.{written_from};
ghost use Rattle.path_files.specs.ScheduleSteps.{no_schedule};
ghost use Rattle.path_files.specs.Schedules.{by_schedule, schedule_from, schedule_of, stray_line};

use crate::faults::PathsFault;
use crate::forms::{Form, has_paths, is_of_paths};
use crate::lines::next_written;
use crate::paths::SolverPaths;
use crate::schedule_lines::begins_schedule;
use crate::schedule_steps::{Schedule, may_end, no_schedule, schedule_with};
use crate::told::all_told;
use grid_cells::{Cell, List};
use std::alloc::Global;

// The fault of a line that is none of the schedule's, where such come behind it.
fn stray_line(schedule: &Schedule, line: usize) -> PathsFault
    ensures { result ≡ stray_line schedule.now line }
{
    if schedule.agent.is_none() {
        return PathsFault::BadAgent { line };
    }
    PathsFault::BadPlace {
        line,
        time: schedule.time,
    }
}

// The paths of a text behind the line `schedule:`, each in its agent's place, where its lines count
// from `first`.
fn read_places(
    alloc: Global,
    text: &[u8],
    first: usize,
) -> Result<List<Option<List<Cell>>>, PathsFault>
    requires { first + length text.now < 2 ^ 64 }
    ensures is { IsRead (schedule_from no_schedule (written_from first (lines_of text.now))) result }
    ensures few { IfOk result (λ told. length told ≤ MOST_AGENTS) }
{
    let mut schedule = no_schedule(alloc);
    let mut rest = text;
    let mut number = first;
    while let Some((line, bytes, below)) = next_written(rest, number) {
        if may_end(&schedule) && !is_of_paths(Form::BySchedule, bytes) {
            if has_paths(Form::BySchedule, below, line + 1) {
                return Err(stray_line(&schedule, line));
            }
            return Ok(schedule.told);
        }
        schedule = schedule_with(alloc, schedule, line, bytes)?;
        rest = below;
        number = line + 1;
    }
    if !may_end(&schedule) {
        return Err(PathsFault::MissingPlace {
            time: schedule.time,
        });
    }
    Ok(schedule.told)
}

// The paths of a text behind the line `schedule:`, where its lines count from `first`.
fn read_agents(alloc: Global, text: &[u8], first: usize) -> Result<SolverPaths, PathsFault>
    requires { first + length text.now < 2 ^ 64 }
    ensures is { IsRead (schedule_of (written_from first (lines_of text.now))) result }
    ensures few { IfOk result (λ spelled. length spelled.paths ≤ MOST_AGENTS) }
{
    let told = read_places(alloc, text, first)?;
    let paths = all_told(alloc, b"", told)?;
    Ok(SolverPaths {
        form: Form::BySchedule,
        starts: None,
        goals: None,
        agents: None,
        paths,
    })
}

/// The paths of a schedule.
///
/// # Errors
/// The first fault, line by line, and then `MissingAgent`; or want of memory.
pub(crate) fn read_schedule(alloc: Global, text: &[u8]) -> Result<SolverPaths, PathsFault>
    ensures is { IsRead (by_schedule (written_from 1 (lines_of text.now))) result }
    ensures few { IfOk result (λ spelled. length spelled.paths ≤ MOST_AGENTS) }
{
    let mut rest = text;
    let mut number = 1;
    while let Some((line, bytes, below)) = next_written(rest, number) {
        if begins_schedule(bytes) {
            return read_agents(alloc, below, line + 1);
        }
        rest = below;
        number = line + 1;
    }
    Err(PathsFault::MissingSchedule)
}
