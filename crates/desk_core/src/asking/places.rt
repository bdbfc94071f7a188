//! Questions of an agent, a cell or a time.
ghost use Rattle.std.specs.Prelude.{◌≡◌};

use super::Question;
use crate::desks::Desk;
use desk_commits::AskFault;
use grid_cells::{Agent, Cell, List, OutOfMemory, Step};
use plan_table::Row;

/// The distance in steps of the cell to the agent's goal on the present map, if there is one.
///
/// # Errors
///
/// The agent isn't live, the cell isn't on the map, or want of memory.
#[derive(Clone, Copy, Debug)]
pub struct Distance {
    pub agent: Agent,
    pub cell: Cell,
}

impl Question for Distance {
    type Answer = Result<Option<u32>, AskFault>;

    ghost use Rattle.desk_commits.specs.Questions.{AnswersDistance};

    ghost answers = { λ question desk answer. AnswersDistance desk.scene question.agent question.cell answer };

    fn put(&self, desk: &mut Desk) -> Result<Option<u32>, AskFault> {
        desk.distance(self.agent, self.cell)
    }
}

/// The agent's goal, and its path without waits at its end.
///
/// # Errors
///
/// The agent isn't live, or want of memory.
#[derive(Clone, Copy, Debug)]
pub struct Planning {
    pub agent: Agent,
}

impl Question for Planning {
    type Answer = Result<Row, AskFault>;

    ghost use Rattle.desk_commits.specs.Questions.{TellsPlan};

    ghost answers = { λ question desk answer. TellsPlan desk.scene question.agent answer };

    fn put(&self, desk: &mut Desk) -> Result<Row, AskFault> {
        let Some(row) = desk.scene.plans().row(self.agent) else {
            return Err(AskFault::UnknownAgent);
        };
        let plan = row.plan.copy()?;
        Ok(Row {
            goal: row.goal,
            plan,
        })
    }
}

/// Whether the cell is open.
///
/// # Errors
///
/// The cell isn't on the map.
#[derive(Clone, Copy, Debug)]
pub struct Probing {
    pub cell: Cell,
}

impl Question for Probing {
    type Answer = Result<bool, AskFault>;

    ghost use Rattle.desk_commits.specs.Questions.{TellsOpen};

    ghost answers = { λ question desk answer. TellsOpen desk.scene question.cell answer };

    fn put(&self, desk: &mut Desk) -> Result<bool, AskFault> {
        let grid = desk.scene.grid();
        if !grid.size().holds(self.cell) {
            return Err(AskFault::OutOfMap);
        }
        Ok(grid.is_open(self.cell))
    }
}

/// The agents whose position at that time is the cell, ascending.
///
/// # Errors
///
/// The cell isn't on the map, or want of memory.
#[derive(Clone, Copy, Debug)]
pub struct Standing {
    pub time: Step,
    pub cell: Cell,
}

impl Question for Standing {
    type Answer = Result<List<Agent>, AskFault>;

    ghost use Rattle.desk_commits.specs.Questions.{TellsStanding};

    ghost answers = { λ question desk answer. TellsStanding desk.scene question.time question.cell answer };

    fn put(&self, desk: &mut Desk) -> Result<List<Agent>, AskFault> {
        if !desk.scene.grid().size().holds(self.cell) {
            return Err(AskFault::OutOfMap);
        }
        let books = desk.take_books()?;
        let agents = books.standing_at(self.time, self.cell);
        desk.put_back(books);
        match agents {
            Ok(agents) => Ok(agents),
            Err(OutOfMemory) => Err(AskFault::OutOfMemory),
        }
    }
}
