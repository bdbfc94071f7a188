//! Questions whose answer is of the whole scene, or of a report of it.
ghost use Rattle.std.specs.Prelude.{◌≡◌};

use super::Question;
use crate::desks::Desk;
use crate::questions::{all_live, cut};
use desk_commits::{AskFault, Reading, Snapshot};
use desk_report::Kinds;
use grid_cells::{Agent, List, OutOfMemory};

/// The report of the scene, at its version.
#[derive(Clone, Copy, Debug)]
pub struct Showing;

impl Question for Showing {
    type Answer = Result<Reading, OutOfMemory>;

    ghost use Rattle.std.specs.Prelude.{IfOk};
    ghost use Rattle.desk_commits.specs.Questions.{ShowsReport};

    ghost answers = { λ _ desk answer. IfOk answer (ShowsReport desk) };

    fn put(&self, desk: &mut Desk) -> Result<Reading, OutOfMemory> {
        desk.reading()
    }
}

/// Whether the scene's plans solve by those kinds.
#[derive(Clone, Copy)]
pub struct Solving {
    pub kinds: Kinds,
}

impl Question for Solving {
    type Answer = Result<bool, OutOfMemory>;

    ghost use Rattle.std.specs.Prelude.{IfOk};
    ghost use Rattle.desk_commits.specs.Questions.{Judges};

    ghost answers = { λ question desk answer. IfOk answer (Judges desk question.kinds) };

    fn put(&self, desk: &mut Desk) -> Result<bool, OutOfMemory> {
        desk.solves(self.kinds)
    }
}

/// A copy of the scene, at its version.
#[derive(Clone, Copy, Debug)]
pub struct Copying;

impl Question for Copying {
    type Answer = Result<Snapshot, OutOfMemory>;

    ghost use Rattle.std.specs.Prelude.{IfOk};
    ghost use Rattle.desk_commits.specs.Questions.{Copies};

    ghost answers = { λ _ desk answer. IfOk answer (Copies desk) };

    fn put(&self, desk: &mut Desk) -> Result<Snapshot, OutOfMemory> {
        desk.snapshot()
    }
}

/// The report of the scene, at its version, cut to those agents: of its lists what names one of them,
/// and the totals of the whole fleet. The agents may come in any order, and more than once.
///
/// # Errors
///
/// One of the agents isn't live, or want of memory.
#[derive(Debug, Drop)]
pub struct Cutting {
    pub agents: List<Agent>,
}

impl Question for Cutting {
    type Answer = Result<Reading, AskFault>;

    ghost use Rattle.desk_commits.specs.Questions.{TellsCut};

    ghost answers = { λ question desk answer. TellsCut desk question.agents answer };

    fn put(&self, desk: &mut Desk) -> Result<Reading, AskFault> {
        let agents = self.agents.items();
        if !all_live(&desk.scene, agents) {
            return Err(AskFault::UnknownAgent);
        }
        let version = desk.version();
        let mut books = desk.take_books()?;
        let report = cut(&mut books, &desk.scene, agents);
        desk.put_back(books);
        match report {
            Ok(report) => Ok(Reading { version, report }),
            Err(OutOfMemory) => Err(AskFault::OutOfMemory),
        }
    }
}
