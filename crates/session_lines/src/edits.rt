ghost use Rattle.std.specs.Prelude.{◌≡◌};
ghost use Rattle.bench_reader.specs.Words.{words_of};
ghost use Rattle.session_lines.specs.Faults.{IsShaped, IsShapedAs};
ghost use Rattle.session_lines.specs.Edits.{ListsCells, add_of, path_edit_of, tail_of, edit_of};

use crate::cells::cells_of;
use crate::commands::EditCommand;
use crate::requests::LineFault;
use crate::shapes::{agent_and_cell, only_agent, only_cell};
use crate::values::{agent_of, cell_of, time_of};
use bench_reader::next_word;
use scene_edits::Edit;
use std::alloc::Global;

// The edit of a line AGENT START GOAL.
fn add_of(line: &[u8]) -> Option<Edit>
    ensures { result ≡ add_of (words_of line.now) }
{
    let (agent, rest) = next_word(line)?;
    let (start, rest) = next_word(rest)?;
    let (goal, rest) = next_word(rest)?;
    let None = next_word(rest) else {
        return None;
    };
    Some(Edit::Add {
        agent: agent_of(agent)?,
        start: cell_of(start)?,
        goal: cell_of(goal)?,
    })
}

// The edit of a line AGENT CELL..
fn path_edit_of(alloc: Global, line: &[u8]) -> Result<Edit, LineFault>
    ensures { IsShaped (path_edit_of (words_of line.now)) result }
{
    let (agent, rest) = next_word(line).ok_or(LineFault::Shape)?;
    let agent = agent_of(agent).ok_or(LineFault::Shape)?;
    let cells = cells_of(alloc, rest)?;
    Ok(Edit::Path { agent, cells })
}

// The edit of a line AGENT TIME CELL..
fn tail_of(alloc: Global, line: &[u8]) -> Result<Edit, LineFault>
    ensures { IsShaped (tail_of (words_of line.now)) result }
{
    let (agent, rest) = next_word(line).ok_or(LineFault::Shape)?;
    let (time, rest) = next_word(rest).ok_or(LineFault::Shape)?;
    let agent = agent_of(agent).ok_or(LineFault::Shape)?;
    let from = time_of(time).ok_or(LineFault::Shape)?;
    let cells = cells_of(alloc, rest)?;
    Ok(Edit::Tail { agent, from, cells })
}

// The edit of a line AGENT X,Y.
fn goal_of(line: &[u8]) -> Option<Edit>
    ensures { result ≡ edit_of EditCommand.Goal (words_of line.now) }
{
    let (agent, goal) = agent_and_cell(line)?;
    Some(Edit::Goal { agent, goal })
}

/// The edit of a line behind its first word.
///
/// # Errors
/// `Shape`, or want of memory for a list of cells.
pub(crate) fn edit_of(alloc: Global, command: EditCommand, line: &[u8]) -> Result<Edit, LineFault>
    ensures { IsShapedAs (ListsCells command) (edit_of command (words_of line.now)) result }
{
    match command {
        EditCommand::Add => add_of(line).ok_or(LineFault::Shape),
        EditCommand::Drop => only_agent(line)
            .map(|agent| Edit::Drop { agent })
            .ok_or(LineFault::Shape),
        EditCommand::Goal => goal_of(line).ok_or(LineFault::Shape),
        EditCommand::Path => path_edit_of(alloc, line),
        EditCommand::Tail => tail_of(alloc, line),
        EditCommand::Open => only_cell(line)
            .map(|cell| Edit::Open { cell })
            .ok_or(LineFault::Shape),
        EditCommand::Close => only_cell(line)
            .map(|cell| Edit::Close { cell })
            .ok_or(LineFault::Shape),
    }
}
