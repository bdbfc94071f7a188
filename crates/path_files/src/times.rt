ghost use Rattle.std.specs.Prelude.{◌≡◌, ◌+◌, ◌^◌, ◌<◌, ◌≤◌, None, [], length, IfOk};
ghost use Rattle.bench_reader.specs.Lines.{lines_of};
ghost use Rattle.scene_edits.specs.declared.scenes.TheConstants.{MOST_AGENTS};
ghost use Rattle.path_files.specs.Lines.{written_from};
ghost use Rattle.path_files.specs.Times.{row_at, times_from, times_of, no_times, by_time};
ghost use Rattle.path_files.specs.Heads.{no_head};
ghost use Rattle.path_files.specs.Answers.{IsRead};

use crate::faults::PathsFault;
use crate::forms::{Form, has_paths, is_of_paths};
use crate::heads::{Head, with_line};
use crate::lines::{next_written, numbered};
use crate::paths::SolverPaths;
use crate::rows::{add_row, row_of};
use grid_cells::{Cell, List};
use session_lines::is_word;
use std::alloc::Global;

// The cells of the agents in the line of that time.
fn row_at(
    alloc: Global,
    time: usize,
    count: Option<usize>,
    line: usize,
    bytes: &[u8],
) -> Result<List<Cell>, PathsFault>
    ensures is { IsRead (row_at time count line bytes.now) result }
    ensures few { IfOk result (λ row. length row ≤ MOST_AGENTS) }
{
    match numbered(bytes) {
        Some((told, cells)) if told as usize == time => row_of(alloc, line, count, cells),
        _ => Err(PathsFault::BadTime { line }),
    }
}

// The rows of a text by time, as paths, where its lines count from `first`.
#[tactic(auto, using(crate::proofs::RowLemmas::with_row_few))]
fn read_rows(alloc: Global, text: &[u8], first: usize) -> Result<List<List<Cell>>, PathsFault>
    requires { first + length text.now < 2 ^ 64 }
    ensures is { IsRead (times_from 0 None [] (written_from first (lines_of text.now))) result }
    ensures few { IfOk result (λ paths. length paths ≤ MOST_AGENTS) }
{
    let mut count = None;
    let mut paths = Vec::new(alloc);
    let mut time: usize = 0;
    let mut rest = text;
    let mut number = first;
    while let Some((line, bytes, below)) = next_written(rest, number) {
        if !is_of_paths(Form::ByTime, bytes) {
            if time == 0 || has_paths(Form::ByTime, below, line + 1) {
                return Err(PathsFault::BadTime { line });
            }
            return Ok(List::new(paths));
        }
        let row = row_at(alloc, time, count, line, bytes)?;
        add_row(alloc, &mut paths, row.items()).map_err(|_| PathsFault::OutOfMemory)?;
        count = Some(row.items().len());
        time += 1;
        rest = below;
        number = line + 1;
    }
    if time == 0 {
        return Err(PathsFault::NoPaths);
    }
    Ok(List::new(paths))
}

// The paths of a text by time behind that head, where its lines count from `first`.
fn read_times(
    alloc: Global,
    head: Head,
    text: &[u8],
    first: usize,
) -> Result<SolverPaths, PathsFault>
    requires { first + length text.now < 2 ^ 64 }
    ensures is { IsRead (times_of head (written_from first (lines_of text.now))) result }
    ensures few { IfOk result (λ spelled. length spelled.paths ≤ MOST_AGENTS) }
{
    let paths = read_rows(alloc, text, first)?;
    Ok(SolverPaths {
        form: Form::ByTime,
        starts: head.starts,
        goals: head.goals,
        agents: head.agents,
        paths,
    })
}

// The fault of a text that is over before its paths.
fn no_times(head: &Head) -> PathsFault
    ensures { result ≡ no_times head.now }
{
    if head.unsolved {
        PathsFault::NoPaths
    } else {
        PathsFault::MissingSolution
    }
}

/// The paths of a text by time.
///
/// # Errors
/// The first fault, line by line; or want of memory.
pub(crate) fn read_by_time(alloc: Global, text: &[u8]) -> Result<SolverPaths, PathsFault>
    ensures is { IsRead (by_time no_head (written_from 1 (lines_of text.now))) result }
    ensures few { IfOk result (λ spelled. length spelled.paths ≤ MOST_AGENTS) }
{
    let mut head = Head {
        starts: None,
        goals: None,
        agents: None,
        unsolved: false,
    };
    let mut rest = text;
    let mut number = 1;
    while let Some((line, bytes, below)) = next_written(rest, number) {
        if is_word(bytes, b"solution=") {
            return read_times(alloc, head, below, line + 1);
        }
        if numbered(bytes).is_some() {
            return read_times(alloc, head, rest, number);
        }
        head = with_line(alloc, head, line, bytes)?;
        rest = below;
        number = line + 1;
    }
    Err(no_times(&head))
}
