ghost use Rattle.std.specs.Prelude.{◌≡◌, ◌<◌, None, Some, MatchOption, IfOk};
ghost use Rattle.scene_edits.specs.declared.scenes.TheConstants.{MOST_AGENTS};
ghost use Rattle.path_files.specs.Agents.{agent_told, path_fault, path_behind, path_of, path_at};
ghost use Rattle.path_files.specs.Answers.{IsRead};

use crate::cells::{Notation, cells_of};
use crate::faults::PathsFault;
use crate::lines::{behind, numbered};
use grid_cells::{Cell, List};
use scene_edits::MOST_AGENTS;
use std::alloc::Global;

// The agent, and what stands behind `Agent`, its number and the colon, where the line begins with them.
fn agent_told(line: &[u8]) -> Option<(u32, &[u8])>
    ensures { MatchOption result (agent_told line.now ≡ None) (λ r. agent_told line.now ≡ Some (r.0, r.1.now)) }
{
    numbered(behind(b"Agent ", line)?)
}

/// The fault of a path of so many cells.
pub(crate) fn path_fault(line: usize, cells: usize) -> Option<PathsFault>
    ensures { result ≡ path_fault line cells }
{
    if cells == 0 {
        Some(PathsFault::NoCells { line })
    } else {
        None
    }
}

// The path of those cells.
fn path_behind(alloc: Global, line: usize, cells: &[u8]) -> Result<List<Cell>, PathsFault>
    ensures { IsRead (path_behind line cells.now) result }
{
    let path = cells_of(alloc, Notation::Arrows, line, cells)?;
    match path_fault(line, path.items().len()) {
        Some(fault) => Err(fault),
        None => Ok(path),
    }
}

// The path of that agent, whose cells stand there.
fn path_of(
    alloc: Global,
    agent: u32,
    line: usize,
    cells: &[u8],
) -> Result<(u32, List<Cell>), PathsFault>
    ensures is { IsRead (path_of agent line cells.now) result }
    ensures bound { IfOk result (λ path. path.0 < MOST_AGENTS) }
{
    if agent >= MOST_AGENTS {
        return Err(PathsFault::TooManyAgents { line });
    }
    let path = path_behind(alloc, line, cells)?;
    Ok((agent, path))
}

/// The agent of the line, and its path.
pub(crate) fn path_at(
    alloc: Global,
    line: usize,
    bytes: &[u8],
) -> Result<(u32, List<Cell>), PathsFault>
    ensures is { IsRead (path_at line bytes.now) result }
    ensures bound { IfOk result (λ path. path.0 < MOST_AGENTS) }
{
    match agent_told(bytes) {
        Some((agent, cells)) => path_of(alloc, agent, line, cells),
        None => Err(PathsFault::BadAgent { line }),
    }
}
