ghost use Rattle.std.specs.Prelude.{◌≡◌, ◌<◌, IfOk};
ghost use Rattle.scene_edits.specs.declared.scenes.TheConstants.{MOST_AGENTS};
ghost use Rattle.session_lines.specs.Requests.{request_of};
ghost use Rattle.path_files.specs.Sessions.{path_told, path_in};
ghost use Rattle.path_files.specs.Answers.{IsRead};

use crate::agents::path_fault;
use crate::faults::PathsFault;
use grid_cells::{Cell, List};
use scene_edits::{Edit, MOST_AGENTS};
use session_lines::{LineFault, Request, read_line};
use std::alloc::Global;

// The agent and the path of an edit.
fn path_told(line: usize, edit: Edit) -> Result<(u32, List<Cell>), PathsFault>
    ensures is { result ≡ path_told line edit }
    ensures bound { IfOk result (λ path. path.0 < MOST_AGENTS) }
{
    let Edit::Path { agent, cells } = edit else {
        return Err(PathsFault::BadPath { line });
    };
    let number = agent.number();
    if number >= MOST_AGENTS {
        return Err(PathsFault::TooManyAgents { line });
    }
    match path_fault(line, cells.items().len()) {
        Some(fault) => Err(fault),
        None => Ok((number, cells)),
    }
}

/// The agent and the path in a line.
pub(crate) fn path_in(
    alloc: Global,
    line: usize,
    bytes: &[u8],
) -> Result<(u32, List<Cell>), PathsFault>
    ensures is { IsRead (path_in line (request_of bytes.now)) result }
    ensures bound { IfOk result (λ path. path.0 < MOST_AGENTS) }
{
    match read_line(alloc, bytes) {
        Ok(Request::Edit(edit)) => path_told(line, edit),
        Err(LineFault::OutOfMemory) => Err(PathsFault::OutOfMemory),
        Ok(_) | Err(LineFault::Word | LineFault::Shape) => Err(PathsFault::BadPath { line }),
    }
}
