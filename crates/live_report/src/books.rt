ghost use Rattle.std.specs.Prelude.{◌≡◌, IfOk, ℕ};
ghost use Rattle.grid_cells.specs.Size.{Holds};
ghost use Rattle.grid_cells.specs.Walks.{IsDistance};
ghost use Rattle.plan_table.specs.Plans.{row_of};
ghost use Rattle.plan_table.specs.declared.plans.Row.{Row};
ghost use Rattle.desk_report.specs.Report.{IsReportOf};
ghost use Rattle.scene_edits.specs.Scene.{SceneState};
ghost use Rattle.live_report.specs.Books.{AreOf};
ghost use Rattle.change_history.specs.Moved.{Follows};
ghost use Rattle.scene_edits.specs.ChangedBy.{ChangedBy};
ghost use Rattle.live_report.specs.Following.{AreBehind, TouchesOnce};

use crate::fleet::FleetBooks;
use crate::lines::Lines;
use crate::prices::PriceBooks;
use change_history::Moves;
use desk_report::Report;
use grid_cells::{Cell, OutOfMemory};
use mapf_rules::Conflict;
use scene_edits::{Change, Scene, flipped, formers};
use std::alloc::Global;
use std::marker::Model;

/// What is kept of a scene: where its agents stand and move, their conflict entries, costs and
/// blocked visits, the distances to their goals, and from a report to a flip of a cell their lines.
pub struct Books {
    pub(crate) alloc: Global,
    pub(crate) fleet: FleetBooks,
    pub(crate) prices: PriceBooks,
    pub(crate) lines: Option<Lines>,
}

impl Drop for Books {
    fn drop(self) {
        let Books {
            alloc: _,
            fleet: _fleet,
            prices: _prices,
            lines: _lines,
        } = self;
    }
}

impl Model for Books {
    ghost use Rattle.live_report.specs.Books.{BooksState};

    ghost Value = { BooksState };

    ghost view = { λ b. record { fleet = b.fleet; prices = b.prices; lines = b.lines } };
}

impl Books {
    /// The books of the scene, made anew.
    ///
    /// # Errors
    ///
    /// Want of memory.
    pub fn of(alloc: Global, scene: &Scene) -> Result<Books, OutOfMemory>
        ensures { IfOk result (AreOf scene.now) }
    {
        let mut books = Books {
            alloc,
            fleet: FleetBooks::new(alloc),
            prices: PriceBooks::new(alloc),
            lines: None,
        };
        let mut unfollowed = Moves::unfollowed(alloc);
        let plans = scene.plans();
        for rank in 0..plans.count() {
            let (agent, row) = plans.entry_at(rank);
            match books.enter(agent, row, scene, &mut unfollowed) {
                Ok(more) => books = more,
                Err(refused) => return Err(refused),
            }
        }
        Ok(books)
    }

    // Their parts: where their memory comes from, the fleet's places and conflicts, its prices, its lines.
    pub(crate) fn into_parts(self) -> (Global, FleetBooks, PriceBooks, Option<Lines>)
        ensures { self ≡ record { fleet = result.1; prices = result.2; lines = result.3 } }
    {
        let Books {
            alloc,
            fleet,
            prices,
            lines,
        } = self;
        (alloc, fleet, prices, lines)
    }

    /// Takes in what edits changed; `scene` is the edited scene. It visits the field of every goal,
    /// and of the rest what the changes name. The index is touched for each agent once, by the records
    /// that its tracks before and after don't share.
    ///
    /// # Errors
    ///
    /// Want of memory: the books are gone then.
    pub fn follow(self, changes: &[Change], scene: &Scene) -> Result<Books, OutOfMemory>
        requires { AreBehind changes.now scene.now self }
        ensures kept { IfOk result (AreOf scene.now) }
        ensures touched { IfOk result (λ books. (before : SceneState) → ChangedBy before changes.now scene.now → AreOf before self
            → TouchesOnce scene.now.mode before.rows scene.now.rows u64.MAX self.fleet.index.touched books.fleet.index.touched) }
    {
        let mut unfollowed = Moves::unfollowed(self.alloc);
        self.follow_noting(changes, scene, &mut unfollowed)
    }

    /// Takes in what edits changed, as `follow` does, and notes the conflict entries that come and go.
    ///
    /// # Errors
    ///
    /// Want of memory: the books are gone then.
    pub fn follow_noting(
        self,
        changes: &[Change],
        scene: &Scene,
        moves: &mut Moves<Conflict>,
    ) -> Result<Books, OutOfMemory>
        requires { AreBehind changes.now scene.now self }
        ensures kept { IfOk result (AreOf scene.now) }
        ensures follows { IfOk result (λ books. Follows self.fleet.conflicts books.fleet.conflicts moves.old moves.new) }
        ensures touched { IfOk result (λ books. (before : SceneState) → ChangedBy before changes.now scene.now → AreOf before self
            → TouchesOnce scene.now.mode before.rows scene.now.rows u64.MAX self.fleet.index.touched books.fleet.index.touched) }
    {
        let Ok(cells) = flipped(self.alloc, changes) else {
            drop(self);
            return Err(OutOfMemory);
        };
        let Ok(formers) = formers(self.alloc, changes, scene.plans()) else {
            drop(self);
            return Err(OutOfMemory);
        };
        let books = self.flip(&cells, scene)?;
        books.catch_up(&formers, scene, moves)
    }

    /// The report of the scene. It copies the agents' lines, which are made where none stand; else the
    /// cost follows the entries and the visits.
    ///
    /// # Errors
    ///
    /// Want of memory.
    pub fn report(&mut self, scene: &Scene) -> Result<Report, OutOfMemory>
        requires { AreOf scene.now self.old }
        ensures kept { AreOf scene.now self.new }
        ensures report { IfOk result (IsReportOf scene.now.grid scene.now.mode scene.now.rows) }
    {
        let lines = self.take_lines(scene)?;
        let report = self.report_by(&lines, scene);
        drop(self.lines.replace(lines));
        report
    }

    /// The distance in steps of the cell to the goal of an agent of the scene, if there is one.
    pub fn distance(&self, from: Cell, goal: Cell) -> Option<u32>
        ensures { (scene : SceneState) (agent : ℕ) (row : Row) → AreOf scene self.now → row_of scene.rows agent ≡ Some row
            → row.goal ≡ goal → Holds scene.grid.size from → IsDistance scene.grid from goal result }
    {
        match self.prices.fields().field(goal) {
            Some(field) => field.distance(from),
            None => None,
        }
    }
}
