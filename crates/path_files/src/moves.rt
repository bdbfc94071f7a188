ghost use Rattle.std.specs.Prelude.{◌≡◌, ◌+◌, ◌^◌, ◌<◌, ◌≤◌, [], ◌∷◌, length, false, IfOk, IfSome};
ghost use Rattle.std.specs.List.{list_all};
ghost use Rattle.bench_reader.specs.Lines.{lines_of};
ghost use Rattle.grid_cells.specs.Cell.{point};
ghost use Rattle.grid_cells.specs.declared.sizes.TheConstants.{MOST_SIDE};
ghost use Rattle.scene_edits.specs.declared.scenes.TheConstants.{MOST_AGENTS};
ghost use Rattle.path_files.specs.Answers.{IsRead};
ghost use Rattle.path_files.specs.Lines.{written_from};
ghost use Rattle.path_files.specs.Moves.{moved, move_of, is_move, is_between, is_of_row, is_of_moves, path_from, rows_from, is_flipped, by_rows};

use crate::faults::PathsFault;
use crate::forms::Form;
use crate::lines::next_written;
use crate::paths::SolverPaths;
use bench_reader::is_blank;
use grid_cells::{Cell, List, MOST_SIDE, OutOfMemory};
use scene_edits::MOST_AGENTS;
use std::alloc::Global;

/// The cell in that column and row.
pub(crate) fn cell(x: u32, y: u32) -> Cell
    requires { (x < MOST_SIDE) × (y < MOST_SIDE) }
    ensures { result ≡ point x y }
{
    match Cell::new(x, y) {
        Some(cell) => cell,
        None => unreachable!(),
    }
}

/// The cell so many columns and rows further, going round.
pub(crate) fn moved(from: Cell, by: Cell) -> Cell
    ensures { result ≡ moved from by }
{
    cell(
        (from.x() + by.x()) % MOST_SIDE,
        (from.y() + by.y()) % MOST_SIDE,
    )
}

// How many columns and rows further the letter leads.
fn move_of(flipped: bool, byte: u8) -> Option<Cell>
    ensures { result ≡ move_of flipped byte }
{
    if byte == b'u' || byte == b'U' {
        Cell::new(0, if flipped { 1 } else { MOST_SIDE - 1 })
    } else if byte == b'd' || byte == b'D' {
        Cell::new(0, if flipped { MOST_SIDE - 1 } else { 1 })
    } else if byte == b'l' || byte == b'L' {
        Cell::new(MOST_SIDE - 1, 0)
    } else if byte == b'r' || byte == b'R' {
        Cell::new(1, 0)
    } else if byte == b'w' || byte == b'W' {
        Cell::new(0, 0)
    } else {
        None
    }
}

// Whether the byte may stand between moves.
fn is_between(byte: u8) -> bool
    ensures { result ≡ is_between byte }
{
    byte == b',' || is_blank(byte)
}

// Whether the byte is a move.
#[tactic(auto, unfolding(crate::specs::Moves::is_move))]
fn is_move(byte: u8) -> bool
    ensures { result ≡ is_move byte }
{
    move_of(false, byte).is_some()
}

// Whether the byte may stand in a row of moves.
#[tactic(auto, unfolding(crate::specs::Moves::is_of_row))]
fn is_of_row(byte: u8) -> bool
    ensures { result ≡ is_of_row byte }
{
    is_between(byte) || is_move(byte)
}

// Whether all of the bytes may.
fn are_of_row(bytes: &[u8]) -> bool
    ensures { result ≡ list_all is_of_row bytes.now }
{
    bytes.iter().all(|byte| is_of_row(*byte))
}

/// Whether the line is a row of moves, and begins with one.
pub(crate) fn is_of_moves(line: &[u8]) -> bool
    ensures { result ≡ is_of_moves line.now }
{
    match line {
        [first, rest @ ..] => is_move(*first) && are_of_row(rest),
        [] => false,
    }
}

/// The path of a row of moves, from that start.
///
/// # Errors
/// `BadMove`, or want of memory.
pub(crate) fn path_from(
    alloc: Global,
    flipped: bool,
    line: usize,
    start: Cell,
    bytes: &[u8],
) -> Result<List<Cell>, PathsFault>
    ensures { IsRead (path_from flipped line start bytes.now) result }
{
    let mut at = start;
    let mut path = Vec::new(alloc);
    path.push(at).map_err(|_| PathsFault::OutOfMemory)?;
    let mut time = 0;
    for byte in bytes {
        if is_between(*byte) {
            continue;
        }
        let Some(by) = move_of(flipped, *byte) else {
            return Err(PathsFault::BadMove { line, time });
        };
        at = moved(at, by);
        path.push(at).map_err(|_| PathsFault::OutOfMemory)?;
        time += 1;
    }
    Ok(List::new(path))
}

// The paths of rows of moves, where the text's lines count from `first`.
fn read_rows(
    alloc: Global,
    flipped: bool,
    text: &[u8],
    first: usize,
) -> Result<List<List<Cell>>, PathsFault>
    requires { first + length text.now < 2 ^ 64 }
    ensures is { IsRead (rows_from flipped [] (written_from first (lines_of text.now))) result }
    ensures few { IfOk result (λ paths. length paths ≤ MOST_AGENTS) }
{
    let mut paths = Vec::new(alloc);
    let mut rest = text;
    let mut number = first;
    while let Some((line, bytes, below)) = next_written(rest, number) {
        if paths.len() >= MOST_AGENTS as usize {
            return Err(PathsFault::TooManyAgents { line });
        }
        let path = path_from(alloc, flipped, line, cell(0, 0), bytes)?;
        paths.push(path).map_err(|_| PathsFault::OutOfMemory)?;
        rest = below;
        number = line + 1;
    }
    if paths.is_empty() {
        return Err(PathsFault::NoPaths);
    }
    Ok(List::new(paths))
}

// Whether up is the row behind.
fn is_flipped(form: Form) -> bool
    ensures { result ≡ is_flipped form }
{
    match form {
        Form::ByFlippedMoves => true,
        _ => false,
    }
}

/// What rows of moves spell, where the text's lines count from `first`.
///
/// # Errors
/// `TooManyAgents` or `BadMove`, line by line, or `NoPaths`; or want of memory.
pub(crate) fn by_rows(
    alloc: Global,
    form: Form,
    text: &[u8],
    first: usize,
) -> Result<SolverPaths, PathsFault>
    requires { first + length text.now < 2 ^ 64 }
    ensures is { IsRead (by_rows form (written_from first (lines_of text.now))) result }
    ensures few { IfOk result (λ spelled. length spelled.paths ≤ MOST_AGENTS) }
{
    let paths = read_rows(alloc, is_flipped(form), text, first)?;
    Ok(SolverPaths {
        form,
        starts: None,
        goals: None,
        agents: None,
        paths,
    })
}
