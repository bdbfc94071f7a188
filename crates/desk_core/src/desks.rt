ghost use Rattle.std.specs.Prelude.{◌≡◌, ◌≤◌, length, IfOk};
ghost use Rattle.desk_commits.specs.State.{opening, version_of};
ghost use Rattle.desk_commits.specs.Questions.{ShowsReport, Judges, AnswersDistance, Copies};

use crate::questions::{goal_asked, report, solves};
use desk_commits::{AskFault, Commit, Limit, Reading, Snapshot, Stamps};
use desk_report::Kinds;
use grid_cells::{Agent, Cell, OutOfMemory};
use live_report::{Books, BuildCount, History};
use scene_edits::Scene;
use std::alloc::Global;
use std::fmt::{Debug, Error, Formatter, Write};
use std::marker::Model;

/// A scene, and the journal of the commits that made it of the scene at the opening.
pub struct Desk {
    pub(crate) alloc: Global,
    pub(crate) scene: Scene,
    pub(crate) journal: Vec<Commit>,
    pub(crate) limit: Limit,
    pub(crate) stamps: Option<Stamps>,
    pub(crate) books: Option<Books>,
    pub(crate) history: Option<History>,
    pub(crate) most: usize,
    pub(crate) builds: BuildCount,
    pub(crate) start: std::snapshot::Snapshot<Scene>,
}

impl Drop for Desk {
    fn drop(self) {
        let Desk {
            alloc: _,
            scene: _scene,
            journal: _journal,
            limit: _,
            stamps: _stamps,
            books: _books,
            history: _history,
            most: _,
            builds: _builds,
            start: _start,
        } = self;
    }
}

impl Model for Desk {
    ghost use Rattle.desk_commits.specs.State.{DeskState};

    ghost Value = { DeskState };

    ghost use Rattle.desk_core.specs.Kept.{IsKeptDesk};

    ghost view = { λ d. record { start = d.start.value; scene = d.scene; journal = d.journal.items; limit = d.limit } };

    ghost invariant = { λ d. IsKeptDesk d.start.value d.scene d.journal.items d.limit d.stamps d.books d.history };
}

impl Debug for Desk {
    fn fmt<W: Write>(&self, f: &mut Formatter<W>) -> Result<(), Error> {
        f.debug_struct("Desk")
            .field("scene", &self.scene)
            .field("journal", &self.journal)
            .field("limit", &self.limit)
            .finish_non_exhaustive()
    }
}

impl Desk {
    /// The desk of that scene, at version 0, whose journal may have so many entries.
    pub fn open(alloc: Global, scene: Scene, limit: Limit) -> Desk
        ensures { result ≡ opening scene limit }
    {
        let start = std::snapshot::Snapshot::of(&scene);
        Desk {
            alloc,
            scene,
            journal: Vec::new(alloc),
            limit,
            stamps: None,
            books: None,
            history: None,
            most: 0,
            builds: BuildCount::new(),
            start,
        }
    }

    /// How many commits the desk has accepted.
    pub fn version(&self) -> u64
        ensures is { result ≡ version_of self.now }
        ensures within { result ≤ self.now.limit }
    {
        self.journal.len() as u64
    }

    /// How many commits the desk may accept.
    pub fn limit(&self) -> Limit
        ensures { result ≡ self.now.limit }
    {
        self.limit
    }

    /// The accepted commits, in their order. Entries are numbered from 1.
    pub fn journal(&self) -> &[Commit]
        ensures is { result.now ≡ self.now.journal }
        ensures within { length result.now ≤ self.now.limit }
    {
        &self.journal
    }

    /// The scene as it is.
    pub fn scene(&self) -> &Scene
        ensures { result.now ≡ self.now.scene }
    {
        &self.scene
    }

    /// The report of the scene, at the desk's version.
    pub fn reading(&mut self) -> Result<Reading, OutOfMemory>
        ensures same { self.new ≡ self.old }
        ensures shown { IfOk result (ShowsReport self.old) }
    {
        let version = self.version();
        let mut books = self.take_books()?;
        let report = report(&mut books, &self.scene);
        self.put_back(books);
        match report {
            Ok(report) => Ok(Reading { version, report }),
            Err(refused) => Err(refused),
        }
    }

    /// Whether the plans of the scene solve by those kinds: what a reading says of them.
    ///
    /// # Errors
    ///
    /// Want of memory, where the books of the scene have to be made.
    pub fn solves(&mut self, kinds: Kinds) -> Result<bool, OutOfMemory>
        ensures same { self.new ≡ self.old }
        ensures told { IfOk result (Judges self.old kinds) }
    {
        let books = self.take_books()?;
        let answer = solves(&books, &self.scene, kinds);
        self.put_back(books);
        Ok(answer)
    }

    /// The distance in steps of the cell to the agent's goal on the present map, if there is one.
    ///
    /// # Errors
    ///
    /// The first fault of the question, or want of memory.
    pub fn distance(&mut self, agent: Agent, cell: Cell) -> Result<Option<u32>, AskFault>
        ensures same { self.new ≡ self.old }
        ensures told { AnswersDistance self.old.scene agent cell result }
    {
        let goal = goal_asked(&self.scene, agent, cell)?;
        let books = self.take_books()?;
        let distance = books.distance(cell, goal);
        self.put_back(books);
        Ok(distance)
    }

    /// A copy of the scene, at the desk's version.
    pub fn snapshot(&self) -> Result<Snapshot, OutOfMemory>
        ensures { IfOk result (Copies self.now) }
    {
        Ok(Snapshot {
            version: self.version(),
            scene: self.scene.copy()?,
        })
    }
}
