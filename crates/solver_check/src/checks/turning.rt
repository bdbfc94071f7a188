//! Cells as a text has them whose cells are row and column.
ghost use Rattle.std.specs.Prelude.{◌≡◌, map};
ghost use Rattle.solver_check.specs.Turned.{turned, turned_cell, turned_difference, turned_entry, turned_report, turned_visit, turned_wrong};

use crate::checks::differences::Difference;
use crate::checks::judging::Verdict;
use crate::checks::wrongs::Wrong;
use desk_report::Report;
use grid_cells::{Cell, List};
use mapf_rules::{Conflict, Visit};
use std::alloc::Global;
use std::mem;

/// What has cells.
trait Turning {
    /// The same with the coordinates of each cell exchanged.
    ghost turned: { Self → Self };

    /// Exchanges the coordinates of each cell.
    fn turn(&mut self)
        ensures { self.new ≡ turned self.old };
}

// The cell whose column is that one's row, and its row that one's column.
fn turned_cell(cell: Cell) -> Cell
    ensures { result ≡ turned_cell cell }
{
    match Cell::new(cell.y(), cell.x()) {
        Some(turned) => turned,
        None => unreachable!(),
    }
}

impl Turning for Conflict {
    ghost turned = { turned_entry };

    fn turn(&mut self) {
        match self {
            Conflict::Vertex { cell, .. } => *cell = turned_cell(*cell),
            Conflict::Parked { cell, .. } => *cell = turned_cell(*cell),
            Conflict::Following { cell, .. } => *cell = turned_cell(*cell),
            Conflict::Edge { cell, next, .. } => {
                *cell = turned_cell(*cell);
                *next = turned_cell(*next);
            }
            Conflict::Swapping { cell, other, .. } => {
                *cell = turned_cell(*cell);
                *other = turned_cell(*other);
            }
            Conflict::Cycle { .. } => {}
        }
    }
}

impl Turning for Visit {
    ghost turned = { turned_visit };

    fn turn(&mut self) {
        self.cell = turned_cell(self.cell);
    }
}

impl Turning for Wrong {
    ghost turned = { turned_wrong };

    fn turn(&mut self) {
        match self {
            Wrong::TooLong { cell, .. } => *cell = turned_cell(*cell),
            Wrong::OutOfMap { cell, .. } => *cell = turned_cell(*cell),
            Wrong::NotFromStart { start, cell, .. } => {
                *start = turned_cell(*start);
                *cell = turned_cell(*cell);
            }
            Wrong::NotAStep { before, cell, .. } => {
                *before = turned_cell(*before);
                *cell = turned_cell(*cell);
            }
        }
    }
}

impl Turning for Difference {
    ghost turned = { turned_difference };

    fn turn(&mut self) {
        match self {
            Difference::Start { listed, due, .. } => {
                *listed = turned_cell(*listed);
                *due = turned_cell(*due);
            }
            Difference::Goal { listed, due, .. } => {
                *listed = turned_cell(*listed);
                *due = turned_cell(*due);
            }
            Difference::Paths { .. }
            | Difference::Agents { .. }
            | Difference::Starts { .. }
            | Difference::Goals { .. } => {}
        }
    }
}

fn turn_each<T: Turning>(items: &mut Vec<T>)
    ensures { items.new.items ≡ map T.turned items.old.items }
{
    for item in items.iter_mut() {
        item.turn();
    }
}

fn turn_list<T: Turning + Drop>(alloc: Global, list: &mut List<T>)
    ensures { list.new ≡ map T.turned list.old }
{
    let mut items = mem::replace(list, List::new(Vec::new(alloc))).into_items();
    turn_each(&mut items);
    *list = List::new(items);
}

fn turn_report(alloc: Global, report: &mut Report)
    ensures { report.new ≡ turned_report report.old }
{
    turn_list(alloc, &mut report.conflicts);
    turn_list(alloc, &mut report.visits);
}

/// Exchanges the coordinates of each cell of the verdict.
pub(crate) fn turn(alloc: Global, verdict: &mut Verdict)
    ensures { verdict.new ≡ turned verdict.old }
{
    match verdict {
        Verdict::NoPaths | Verdict::Repeated { .. } => {}
        Verdict::Wrong {
            wrongs,
            differences,
        } => {
            turn_list(alloc, wrongs);
            turn_list(alloc, differences);
        }
        Verdict::Judged {
            report,
            differences,
            ..
        } => {
            turn_report(alloc, report);
            turn_list(alloc, differences);
        }
    }
}
