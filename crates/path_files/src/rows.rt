ghost use Rattle.std.specs.Prelude.{◌≡◌, ◌≤◌, [], ◌∷◌, ◌++◌, length, IfOk, MatchOption, OnOk};
ghost use Rattle.scene_edits.specs.declared.scenes.TheConstants.{MOST_AGENTS};
ghost use Rattle.path_files.specs.Rows.{row_fault, row_in_line, paths_with_row};
ghost use Rattle.path_files.specs.Answers.{IsRead};

use crate::cells::{Notation, cells_of};
use crate::faults::PathsFault;
use grid_cells::{Cell, List, OutOfMemory};
use scene_edits::MOST_AGENTS;
use std::alloc::Global;
use std::mem;

// The fault of a list of so many cells, one for each agent, where the one of time 0 has `count`.
fn row_fault(line: usize, count: Option<usize>, cells: usize) -> Option<PathsFault>
    ensures is { result ≡ row_fault line count cells }
    ensures few { MatchOption result (cells ≤ MOST_AGENTS) (λ _. Unit {0}) }
{
    if cells == 0 {
        return Some(PathsFault::NoCells { line });
    }
    if cells > MOST_AGENTS as usize {
        return Some(PathsFault::TooManyAgents { line });
    }
    match count {
        Some(count) if count != cells => Some(PathsFault::CellCount { line }),
        _ => None,
    }
}

/// A list of one cell for each agent. `count` is how many the one of time 0 has, behind it.
///
/// # Errors
/// `BadCell`, then `NoCells`, `TooManyAgents` or `CellCount`; or want of memory.
pub(crate) fn row_of(
    alloc: Global,
    line: usize,
    count: Option<usize>,
    text: &[u8],
) -> Result<List<Cell>, PathsFault>
    ensures is { IsRead (row_in_line line count text.now) result }
    ensures few { IfOk result (λ row. length row ≤ MOST_AGENTS) }
{
    let row = cells_of(alloc, Notation::Commas, line, text)?;
    match row_fault(line, count, row.items().len()) {
        Some(fault) => Err(fault),
        None => Ok(row),
    }
}

// Adds a cell at the end of the path.
fn add_cell(alloc: Global, path: &mut List<Cell>, cell: Cell) -> Result<(), OutOfMemory>
    ensures { OnOk result (path.new ≡ path.old ++ cell ∷ []) }
{
    let mut cells = mem::replace(path, List::new(Vec::new(alloc))).into_items();
    cells.push(cell)?;
    *path = List::new(cells);
    Ok(())
}

/// Adds to each path the row's cell in its place. A path begins where there is none yet.
pub(crate) fn add_row(
    alloc: Global,
    paths: &mut Vec<List<Cell>>,
    row: &[Cell],
) -> Result<(), OutOfMemory>
    ensures { OnOk result (paths.new.items ≡ paths_with_row paths.old.items row.now) }
{
    for (agent, cell) in row.iter().enumerate() {
        if agent == paths.len() {
            paths.push(List::new(Vec::new(alloc)))?;
        }
        add_cell(alloc, &mut paths[agent], *cell)?;
    }
    Ok(())
}
