ghost use Rattle.std.specs.Prelude.{◌≡◌, true};
ghost use Rattle.path_files.specs.Heads.{with_line, list_of, with_starts, with_goals, with_agents};
ghost use Rattle.path_files.specs.Answers.{IsRead};

use crate::faults::PathsFault;
use crate::lines::{behind, behind_blanks};
use crate::rows::row_of;
use bench_reader::number_of;
use grid_cells::{Cell, List};
use session_lines::is_word;
use std::alloc::Global;

/// What a text by time says before its paths.
#[derive(Drop)]
pub(crate) struct Head {
    pub(crate) starts: Option<List<Cell>>,
    pub(crate) goals: Option<List<Cell>>,
    pub(crate) agents: Option<u32>,
    /// Whether the solver found no paths.
    pub(crate) unsolved: bool,
}

// The list of that line, where the head doesn't have it yet.
fn list_of(
    alloc: Global,
    list: &Option<List<Cell>>,
    line: usize,
    text: &[u8],
) -> Result<List<Cell>, PathsFault>
    ensures { IsRead (list_of list.now line text.now) result }
{
    if list.is_some() {
        return Err(PathsFault::RepeatedList { line });
    }
    row_of(alloc, line, None, text)
}

// The head with the starts of that line.
fn with_starts(alloc: Global, head: Head, line: usize, text: &[u8]) -> Result<Head, PathsFault>
    ensures { IsRead (with_starts head line text.now) result }
{
    let starts = list_of(alloc, &head.starts, line, text)?;
    Ok(Head {
        starts: Some(starts),
        goals: head.goals,
        agents: head.agents,
        unsolved: head.unsolved,
    })
}

// The head with the goals of that line.
fn with_goals(alloc: Global, head: Head, line: usize, text: &[u8]) -> Result<Head, PathsFault>
    ensures { IsRead (with_goals head line text.now) result }
{
    let goals = list_of(alloc, &head.goals, line, text)?;
    Ok(Head {
        starts: head.starts,
        goals: Some(goals),
        agents: head.agents,
        unsolved: head.unsolved,
    })
}

// The head with the number of agents of that line.
fn with_agents(head: Head, line: usize, text: &[u8]) -> Result<Head, PathsFault>
    ensures { result ≡ with_agents head line text.now }
{
    if head.agents.is_some() {
        return Err(PathsFault::RepeatedList { line });
    }
    match number_of(behind_blanks(text)) {
        Some(agents) => Ok(Head {
            starts: head.starts,
            goals: head.goals,
            agents: Some(agents),
            unsolved: head.unsolved,
        }),
        None => Err(PathsFault::BadHeader { line }),
    }
}

// The head, where it says that the solver found no paths.
fn unsolved(head: Head) -> Head
    ensures { result ≡ record head { unsolved = true } }
{
    Head {
        starts: head.starts,
        goals: head.goals,
        agents: head.agents,
        unsolved: true,
    }
}

/// The head with one more line.
///
/// # Errors
/// `BadHeader`, `RepeatedList` or the fault of a list; or want of memory.
pub(crate) fn with_line(
    alloc: Global,
    head: Head,
    line: usize,
    bytes: &[u8],
) -> Result<Head, PathsFault>
    ensures { IsRead (with_line head line bytes.now) result }
{
    if let Some(cells) = behind(b"starts=", bytes) {
        with_starts(alloc, head, line, cells)
    } else if let Some(cells) = behind(b"goals=", bytes) {
        with_goals(alloc, head, line, cells)
    } else if let Some(number) = behind(b"agents=", bytes) {
        with_agents(head, line, number)
    } else if is_word(bytes, b"solved=0") {
        Ok(unsolved(head))
    } else {
        Ok(head)
    }
}
