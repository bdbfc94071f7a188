ghost use Rattle.std.specs.Prelude.{◌≡◌, ◌⊎◌, true, IfErr, OnOk, MatchResult};
ghost use Rattle.bench_reader.specs.Words.{words_of};
ghost use Rattle.bench_reader.specs.ScenText.{is_version, is_written, IsPlaced, IsTaskLine, GoesOn};
ghost use Rattle.bench_reader.specs.ScenFaults.{IsOffMap, IsLineFault, IsScenAnswer};

use crate::fields::{Fields, fields_of, task_words};
use crate::lines::{first_line, is_blank_line, next_line};
use crate::tasks::Task;
use crate::words::two_words;
use grid_cells::{List, Size};
use std::alloc::Global;
use thiserror::Error;

/// Why a text is no scenario for a map of a size. Lines and fields count from 1.
#[derive(Clone, Copy, Debug, PartialEq, Eq, Error)]
pub enum ScenFault {
    /// The first line is neither `version 1` nor `version 1.0`.
    #[error("bad version")]
    BadVersion,
    /// Not nine words.
    #[error("field count in line {line}")]
    FieldCount { line: usize },
    /// The first field that should be a number below 2^32 and isn't.
    #[error("bad number in line {line}, field {field}")]
    BadNumber { line: usize, field: usize },
    /// The line is for a map of another size.
    #[error("size mismatch in line {line}")]
    SizeMismatch { line: usize },
    /// The first of start x, start y, goal x and goal y that lies off the map.
    #[error("out of map in line {line}, field {field}")]
    OutOfMap { line: usize, field: usize },
    #[error("out of memory")]
    OutOfMemory,
}

// Whether the line is `version 1` or `version 1.0`.
fn is_version(line: &[u8]) -> bool
    ensures { result ≡ is_version (words_of line.now) }
{
    match two_words(line) {
        Some((first, second)) => {
            first == b"version".as_slice()
                && (second == b"1".as_slice() || second == b"1.0".as_slice())
        }
        None => false,
    }
}

// The task of a line with that number.
fn read_task(size: Size, number: usize, line: &[u8]) -> Result<Task, ScenFault>
    ensures { MatchResult result (IsTaskLine size line.now) (IsLineFault size number line.now) }
{
    let Some(words) = task_words(line) else {
        return Err(ScenFault::FieldCount { line: number });
    };
    let fields = match fields_of(&words) {
        Ok(fields) => fields,
        Err(field) => {
            return Err(ScenFault::BadNumber {
                line: number,
                field,
            });
        }
    };
    if fields.width != size.width() || fields.height != size.height() {
        return Err(ScenFault::SizeMismatch { line: number });
    }
    match place(size, fields) {
        Ok(task) => Ok(task),
        Err(field) => Err(ScenFault::OutOfMap {
            line: number,
            field,
        }),
    }
}

// The task, or the first field, counted from 1, that lies off the map.
fn place(size: Size, fields: Fields) -> Result<Task, usize>
    ensures { MatchResult result (IsPlaced size fields) (IsOffMap size fields) }
{
    if fields.start_x >= size.width() {
        return Err(5);
    }
    let Some(start) = size.cell(fields.start_x, fields.start_y) else {
        return Err(6);
    };
    if fields.goal_x >= size.width() {
        return Err(7);
    }
    let Some(goal) = size.cell(fields.goal_x, fields.goal_y) else {
        return Err(8);
    };
    Ok(Task {
        bucket: fields.bucket,
        start,
        goal,
    })
}

// Adds the task of a line with that number, if it isn't blank.
fn take_line(tasks: &mut Vec<Task>, size: Size, number: usize, line: &[u8]) -> Result<(), ScenFault>
    ensures ok { OnOk result (GoesOn size line.now tasks.old.items tasks.new.items) }
    ensures fault { IfErr result (λ fault. (fault ≡ ScenFault.OutOfMemory)
        ⊎ ((is_written line.now ≡ true) × IsLineFault size number line.now fault)) }
{
    if is_blank_line(line) {
        return Ok(());
    }
    match read_task(size, number, line) {
        Ok(task) => match tasks.push(task) {
            Ok(()) => Ok(()),
            Err(_) => Err(ScenFault::OutOfMemory),
        },
        Err(fault) => Err(fault),
    }
}

/// Reads the text of a scenario (MovingAI grid benchmarks) for a map of that size: a task for each
/// line that isn't blank behind the version. The map's name and the optimal length aren't looked at.
///
/// # Errors
///
/// The first fault of the text: the version, then line by line, in the order of `ScenFault`.
pub fn read_scen(alloc: Global, text: &[u8], size: Size) -> Result<List<Task>, ScenFault>
    ensures { IsScenAnswer size text.now result }
{
    let (version, mut rest) = first_line(text);
    if !is_version(version) {
        return Err(ScenFault::BadVersion);
    }
    let mut tasks = Vec::new(alloc);
    let mut number = 2;
    while let Some((line, behind)) = next_line(rest) {
        take_line(&mut tasks, size, number, line)?;
        rest = behind;
        number += 1;
    }
    Ok(List::new(tasks))
}
