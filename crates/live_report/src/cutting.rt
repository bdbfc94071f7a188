//! What is asked of some agents or of a place, by the books: a report cut to them, and who stands there.
ghost use Rattle.std.specs.Prelude.{IfOk};
ghost use Rattle.plan_table.specs.Plans.{row_of};
ghost use Rattle.plan_table.specs.Route.{Fleet, tracks_of};
ghost use Rattle.where_index.specs.Asked.{AreStandingAt};
ghost use Rattle.conflict_ledger.specs.Named.{AreNamed};
ghost use Rattle.desk_report.specs.Cut.{IsCutOf};
ghost use Rattle.scene_edits.specs.Scene.{SceneState};
ghost use Rattle.live_report.specs.Books.{AreOf};
ghost use Rattle.live_report.specs.Fleet.{AreOfFleet};
ghost use Rattle.live_report.specs.Lines.{AreLinesOf};

use crate::books::Books;
use crate::cuts::quick_cut;
use crate::fleet::FleetBooks;
use crate::lines::Lines;
use conflict_ledger::naming;
use desk_report::Report;
use grid_cells::{Agent, Cell, List, OutOfMemory, Step};
use mapf_rules::{Conflict, Kind};
use plan_table::{Mode, Plans};
use scene_edits::Scene;
use std::alloc::Global;

impl FleetBooks {
    /// The conflict entries of the plans that name one of those agents, in their order, each once. The
    /// cost follows what these agents meet.
    ///
    /// # Errors
    ///
    /// Want of memory.
    pub fn naming(
        &self,
        alloc: Global,
        agents: &[Agent],
        plans: &Plans,
        mode: Mode,
    ) -> Result<List<Conflict>, OutOfMemory>
        ensures { IfOk result (λ entries. AreOfFleet (tracks_of mode plans.now.rows) self.now → AreNamed (tracks_of mode plans.now.rows) agents.now entries) }
    {
        naming(alloc, agents, plans, mode, &self.index)
    }

    /// The agents whose position at the time is the cell, ascending.
    ///
    /// # Errors
    ///
    /// Want of memory.
    pub fn standing_at(&self, time: Step, cell: Cell) -> Result<List<Agent>, OutOfMemory>
        ensures { IfOk result (λ agents. (fleet : Fleet) → AreOfFleet fleet self.now → AreStandingAt fleet time cell agents) }
    {
        self.index.standing_at(time, cell)
    }
}

impl Books {
    /// The report of the scene, cut to those agents: what names one of them, and the totals of all. The
    /// entries cost what these agents meet; the totals look at each line.
    ///
    /// # Errors
    ///
    /// Want of memory.
    pub fn cut(&mut self, scene: &Scene, agents: &[Agent]) -> Result<Report, OutOfMemory>
        requires { AreOf scene.now self.old }
        ensures kept { AreOf scene.now self.new }
        ensures cut { IfOk result (IsCutOf scene.now.grid scene.now.mode scene.now.rows agents.now) }
    {
        let lines = self.take_lines(scene)?;
        let cut = self.cut_by(&lines, scene, agents);
        drop(self.lines.replace(lines));
        cut
    }

    // The report of the scene, whose agents have those lines, cut to those agents.
    pub(crate) fn cut_by(
        &self,
        lines: &Lines,
        scene: &Scene,
        agents: &[Agent],
    ) -> Result<Report, OutOfMemory>
        requires books { AreOf scene.now self.now }
        requires lines { AreLinesOf scene.now.grid (row_of scene.now.rows) lines.now }
        ensures { IfOk result (IsCutOf scene.now.grid scene.now.mode scene.now.rows agents.now) }
    {
        let plans = scene.plans();
        let named = self.fleet.naming(self.alloc, agents, plans, scene.mode())?;
        let _listed = self.fleet.entries().has(Kind::Vertex);
        quick_cut(self.alloc, agents, named, self.prices.costs(), lines)
    }

    /// The agents of the scene whose position at the time is the cell, ascending.
    ///
    /// # Errors
    ///
    /// Want of memory.
    pub fn standing_at(&self, time: Step, cell: Cell) -> Result<List<Agent>, OutOfMemory>
        ensures { IfOk result (λ agents. (scene : SceneState) → AreOf scene self.now → AreStandingAt (tracks_of scene.mode scene.rows) time cell agents) }
    {
        self.fleet.standing_at(time, cell)
    }
}
