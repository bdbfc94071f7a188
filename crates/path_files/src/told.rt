ghost use Rattle.std.specs.Prelude.{◌≡◌, ◌+◌, ◌^◌, ◌<◌, ◌≤◌, [], length, IfErr, IfOk, OnOk};
ghost use Rattle.bench_reader.specs.Lines.{lines_of};
ghost use Rattle.scene_edits.specs.declared.scenes.TheConstants.{MOST_AGENTS};
ghost use Rattle.path_files.specs.Lines.{written, written_from};
ghost use Rattle.path_files.specs.Told.{path_in_line, with_places, has_path, with_path, told_from, with_place, all_from, all_told, by_told};
ghost use Rattle.path_files.specs.Answers.{IsRead};
ghost use Rattle.path_files.specs.declared.faults.PathsFault.TheVariants.{OutOfMemory};

use crate::agents::path_at;
use crate::faults::PathsFault;
use crate::forms::{Form, has_paths, is_of_paths};
use crate::lines::next_written;
use crate::paths::SolverPaths;
use crate::sessions::path_in;
use grid_cells::{Cell, List};
use std::alloc::Global;

// The agent and the path in a line in that form.
fn path_in_line(
    alloc: Global,
    form: Form,
    line: usize,
    bytes: &[u8],
) -> Result<(u32, List<Cell>), PathsFault>
    ensures is { IsRead (path_in_line form (written line bytes.now)) result }
    ensures bound { IfOk result (λ path. path.0 < MOST_AGENTS) }
{
    match form {
        Form::BySession => path_in(alloc, line, bytes),
        _ => path_at(alloc, line, bytes),
    }
}

// Makes places for so many agents at least.
fn add_places(told: &mut Vec<Option<List<Cell>>>, count: usize) -> Result<(), PathsFault>
    ensures ok { OnOk result (told.new.items ≡ with_places told.old.items count) }
    ensures err { IfErr result (λ fault. fault ≡ OutOfMemory) }
{
    while told.len() < count {
        told.push(None).map_err(|_| PathsFault::OutOfMemory)?;
    }
    Ok(())
}

// Whether the agent has a path.
fn has_path(told: &[Option<List<Cell>>], agent: usize) -> bool
    ensures { result ≡ has_path told.now agent }
{
    match told.get(agent) {
        Some(place) => place.is_some(),
        None => false,
    }
}

/// The paths, and one more, of that line, in its agent's place.
///
/// # Errors
/// `BadAgent` where it has one; or want of memory.
pub(crate) fn with_path(
    line: usize,
    told: List<Option<List<Cell>>>,
    agent: usize,
    path: List<Cell>,
) -> Result<List<Option<List<Cell>>>, PathsFault>
    requires { (agent < MOST_AGENTS) × (length told ≤ MOST_AGENTS) }
    ensures is { IsRead (with_path line told (agent, path)) result }
    ensures few { IfOk result (λ more. (0 < length more) × (length more ≤ MOST_AGENTS)) }
{
    let mut places = told.into_items();
    if has_path(&places, agent) {
        return Err(PathsFault::BadAgent { line });
    }
    add_places(&mut places, agent + 1)?;
    places[agent] = Some(path);
    Ok(List::new(places))
}

// The paths of a text in that form, each in its agent's place.
fn read_places(
    alloc: Global,
    form: Form,
    text: &[u8],
) -> Result<List<Option<List<Cell>>>, PathsFault>
    ensures is { IsRead (told_from form [] (written_from 1 (lines_of text.now))) result }
    ensures few { IfOk result (λ told. length told ≤ MOST_AGENTS) }
{
    let mut told = List::new(Vec::new(alloc));
    let mut rest = text;
    let mut number = 1;
    while let Some((line, bytes, below)) = next_written(rest, number) {
        if is_of_paths(form, bytes) {
            let (agent, path) = path_in_line(alloc, form, line, bytes)?;
            told = with_path(line, told, agent as usize, path)?;
        } else if !told.items().is_empty() {
            if has_paths(form, below, line + 1) {
                return Err(PathsFault::BadAgent { line });
            }
            return Ok(told);
        }
        rest = below;
        number = line + 1;
    }
    Ok(told)
}

// The paths, and that in the place of the agent.
fn with_place(
    agent: usize,
    paths: List<List<Cell>>,
    place: Option<List<Cell>>,
) -> Result<List<List<Cell>>, PathsFault>
    ensures is { IsRead (with_place agent paths place) result }
    ensures few { IfOk result (λ more. length more ≤ length paths + 1) }
{
    let Some(path) = place else {
        if agent == 0 {
            return Ok(paths);
        }
        drop(paths);
        return Err(PathsFault::MissingAgent { agent });
    };
    let mut items = paths.into_items();
    match items.push(path) {
        Ok(()) => Ok(List::new(items)),
        Err(_) => Err(PathsFault::OutOfMemory),
    }
}

// The paths of all agents, in their order.
fn all_from(alloc: Global, told: List<Option<List<Cell>>>) -> Result<List<List<Cell>>, PathsFault>
    ensures is { IsRead (all_from 0 [] told) result }
    ensures few { IfOk result (λ paths. length paths ≤ length told) }
{
    let mut paths = List::new(Vec::new(alloc));
    let mut agent = 0;
    for place in told.into_items() {
        paths = with_place(agent, paths, place)?;
        agent += 1;
    }
    Ok(paths)
}

/// The same, of a text that has to have one.
///
/// # Errors
/// `NoPaths` or `BadAgent`, or `MissingAgent`; or want of memory.
pub(crate) fn all_told(
    alloc: Global,
    text: &[u8],
    told: List<Option<List<Cell>>>,
) -> Result<List<List<Cell>>, PathsFault>
    requires { length told ≤ MOST_AGENTS }
    ensures is { IsRead (all_told (written_from 1 (lines_of text.now)) told) result }
    ensures few { IfOk result (λ paths. length paths ≤ MOST_AGENTS) }
{
    if !told.items().is_empty() {
        return all_from(alloc, told);
    }
    match next_written(text, 1) {
        Some((line, _, _)) => Err(PathsFault::BadAgent { line }),
        None => Err(PathsFault::NoPaths),
    }
}

/// The paths of a text by agent, or of lines of a session.
///
/// # Errors
/// The first fault, line by line, and then `MissingAgent`; or want of memory.
pub(crate) fn read_told(alloc: Global, form: Form, text: &[u8]) -> Result<SolverPaths, PathsFault>
    ensures is { IsRead (by_told form (written_from 1 (lines_of text.now))) result }
    ensures few { IfOk result (λ spelled. length spelled.paths ≤ MOST_AGENTS) }
{
    let told = read_places(alloc, form, text)?;
    let paths = all_told(alloc, text, told)?;
    Ok(SolverPaths {
        form,
        starts: None,
        goals: None,
        agents: None,
        paths,
    })
}
