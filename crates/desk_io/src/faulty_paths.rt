//! What more is known of a solver's path that isn't taken: the cells for which it isn't.
ghost use Rattle.std.specs.Prelude.{◌≡◌, [], Ok, IfSome, is_none, unwrap_or};
ghost use Rattle.path_files.specs.Texts.{paths_of};
ghost use Rattle.solver_check.specs.Opens.{bytes_of};
ghost use Rattle.desk_io.specs.Starts.{IsStartOf};

use crate::details::Texts;
use bench_reader::{read_map, read_scen};
use grid_cells::{Agent, Cell};
use path_files::{Form, SolverPaths, is_relative, read_paths, set_out};
use scene_edits::EditFault;
use std::alloc::Global;
use std::fmt;

// A cell as a file of paths in that form has it.
#[derive(Clone, Copy)]
struct Spelled(Form, Cell);

impl fmt::Display for Spelled {
    fn fmt<W: fmt::Write>(&self, f: &mut fmt::Formatter<W>) -> fmt::Result {
        let Spelled(form, cell) = self;
        match form {
            Form::ByTime => write!(f, "({},{})", cell.x(), cell.y()),
            Form::ByAgent => write!(f, "({},{})", cell.y(), cell.x()),
            Form::ByJson => write!(f, "[{},{}]", cell.y(), cell.x()),
            Form::BySession | Form::ByMoves | Form::ByFlippedMoves => {
                write!(f, "{},{}", cell.x(), cell.y())
            }
            Form::BySchedule => write!(f, "x: {}, y: {}", cell.x(), cell.y()),
        }
    }
}

// The paths of the texts.
fn spelled_by(alloc: Global, texts: Texts<'_>) -> Option<SolverPaths>
    ensures { IfSome result (λ paths. paths_of (is_none texts.entry.scen) texts.entry.form (unwrap_or (bytes_of texts.entry.journal) []) ≡ Ok paths) }
{
    read_paths(alloc, texts.journal?, texts.form, texts.scen.is_none()).ok()
}

/// Between which cells the agent's path makes no step at that time, where it begins and should, which
/// of its cells is outside the map, or how many paths there are where the agent has no task.
pub(crate) fn cells_of(
    alloc: Global,
    texts: Texts<'_>,
    agent: Agent,
    time: usize,
    why: EditFault,
) -> Option<String> {
    let spelled = spelled_by(alloc, texts)?;
    let form = spelled.form;
    let start = start_of(alloc, texts, &spelled, agent);
    let paths = spelled.paths.items();
    let shown = match (why, paths.get(agent.number() as usize)) {
        (EditFault::UnknownAgent, _) => {
            format!(in alloc; "paths: {}, agents: {}", paths.len(), agent.number()).ok()
        }
        (_, Some(cells)) if is_relative(form) => {
            shown_moves(alloc, form, cells.items(), start, time, why)
        }
        (_, Some(cells)) => shown_cells(alloc, form, cells.items(), start, time, why),
        (_, None) => None,
    };
    drop(spelled);
    shown
}

fn shown_cells(
    alloc: Global,
    form: Form,
    cells: &[Cell],
    start: Option<Cell>,
    time: usize,
    why: EditFault,
) -> Option<String> {
    let cell = Spelled(form, cells.get(time).copied()?);
    match why {
        EditFault::NotAStep { .. } => {
            let before = Spelled(form, cells.get(time.checked_sub(1)?).copied()?);
            format!(in alloc; "from {before} to {cell}").ok()
        }
        EditFault::NotFromStart => {
            let start = Spelled(form, start?);
            format!(in alloc; "starts at {start} and its path at {cell}").ok()
        }
        EditFault::OutOfMap => format!(in alloc; "{cell}").ok(),
        _ => None,
    }
}

// The same of a path of moves, which is set out from the agent's start.
fn shown_moves(
    alloc: Global,
    form: Form,
    cells: &[Cell],
    start: Option<Cell>,
    time: usize,
    why: EditFault,
) -> Option<String> {
    let begun = set_out(alloc, start?, cells).ok()?;
    let shown = shown_cells(alloc, form, begun.items(), start, time, why);
    drop(begun);
    shown
}

/// Where the text of paths has the agent start, and where its goal is.
pub(crate) fn ends_of(alloc: Global, texts: Texts<'_>, agent: Agent) -> Option<String> {
    let spelled = spelled_by(alloc, texts)?;
    let shown = shown_ends(alloc, &spelled, agent.number() as usize);
    drop(spelled);
    shown
}

fn shown_ends(alloc: Global, spelled: &SolverPaths, number: usize) -> Option<String> {
    let cells = spelled.paths.items().get(number)?.items();
    let start = match &spelled.starts {
        Some(starts) => starts.items().get(number).copied()?,
        None => cells.first().copied()?,
    };
    let goal = match &spelled.goals {
        Some(goals) => goals.items().get(number).copied()?,
        None => cells.last().copied()?,
    };
    let (start, goal) = (Spelled(spelled.form, start), Spelled(spelled.form, goal));
    format!(in alloc; "starts at {start}, and its goal is {goal}").ok()
}

// The agent's start: that of its task, where there is a scenario, else the one that the text of paths
// tells.
fn start_of(alloc: Global, texts: Texts<'_>, spelled: &SolverPaths, agent: Agent) -> Option<Cell>
    ensures { IfSome result (IsStartOf (unwrap_or (bytes_of texts.entry.map) []) (bytes_of texts.entry.scen) spelled.now agent) }
{
    let number = agent.number() as usize;
    let Some(scen) = texts.scen else {
        return spelled.starts.as_ref()?.items().get(number).copied();
    };
    let grid = read_map(alloc, texts.map?).ok()?;
    let size = grid.size();
    drop(grid);
    let tasks = read_scen(alloc, scen, size).ok()?;
    let start = tasks.items().get(number).map(|task| task.start);
    drop(tasks);
    start
}
