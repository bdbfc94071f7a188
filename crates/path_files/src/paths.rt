ghost use Rattle.std.specs.Prelude.{◌≡◌, ◌≤◌, length, IfOk};
ghost use Rattle.scene_edits.specs.declared.scenes.TheConstants.{MOST_AGENTS};
ghost use Rattle.path_files.specs.Answers.{IsRead};
ghost use Rattle.path_files.specs.Texts.{IsPathsAnswer, in_form, in_named_form, with_starts_for};

use crate::columns::read_moves;
use crate::faults::PathsFault;
use crate::forms::{Form, form_of};
use crate::lines::without_mark;
use crate::relative::is_relative;
use crate::robots::read_json;
use crate::schedules::read_schedule;
use crate::times::read_by_time;
use crate::told::read_told;
use grid_cells::{Cell, List};
use std::alloc::Global;

/// What a file of paths spells: the agents' starts, their goals and how many they are, where it tells
/// them, and for each agent, from 0, its cells from time 0 on; of moves these begin in the cell 0,0.
#[derive(Drop)]
pub struct SolverPaths {
    pub form: Form,
    pub starts: Option<List<Cell>>,
    pub goals: Option<List<Cell>>,
    pub agents: Option<u32>,
    pub paths: List<List<Cell>>,
}

// What a text spells in that form.
fn in_form(alloc: Global, form: Form, text: &[u8]) -> Result<SolverPaths, PathsFault>
    ensures is { IsRead (in_form form text.now) result }
    ensures few { IfOk result (λ spelled. length spelled.paths ≤ MOST_AGENTS) }
{
    match form {
        Form::ByTime => read_by_time(alloc, text),
        Form::ByAgent | Form::BySession => read_told(alloc, form, text),
        Form::ByMoves | Form::ByFlippedMoves => read_moves(alloc, form, text),
        Form::ByJson => read_json(alloc, text),
        Form::BySchedule => read_schedule(alloc, text),
    }
}

// What a text spells in the form that is named, or else in the one that its lines tell.
fn in_named_form(alloc: Global, form: Option<Form>, text: &[u8]) -> Result<SolverPaths, PathsFault>
    ensures is { IsRead (in_named_form form text.now) result }
    ensures few { IfOk result (λ spelled. length spelled.paths ≤ MOST_AGENTS) }
{
    let form = match form {
        Some(form) => form,
        None => form_of(text)?,
    };
    in_form(alloc, form, text)
}

// The paths, unless they are to be set out on a bare map.
fn with_starts(bare: bool, spelled: SolverPaths) -> Result<SolverPaths, PathsFault>
    ensures is { result ≡ with_starts_for bare spelled }
    ensures same { IfOk result (λ kept. kept ≡ spelled) }
{
    if bare && is_relative(spelled.form) {
        return Err(PathsFault::NoStarts);
    }
    Ok(spelled)
}

/// Reads the text of a file of paths, in that form, or in the one that its first line tells which
/// tells one: at most `MOST_AGENTS` paths. On a bare map nothing says where agents start.
///
/// # Errors
/// The first fault of the text, line by line, and in a line from left to right; `NoStarts`; or want of
/// memory.
pub fn read_paths(
    alloc: Global,
    text: &[u8],
    form: Option<Form>,
    bare: bool,
) -> Result<SolverPaths, PathsFault>
    ensures is { IsPathsAnswer bare form text.now result }
    ensures few { IfOk result (λ spelled. length spelled.paths ≤ MOST_AGENTS) }
{
    let spelled = in_named_form(alloc, form, without_mark(text))?;
    with_starts(bare, spelled)
}
