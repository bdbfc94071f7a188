//! The report of a scene, by the books and the agents' lines.
ghost use Rattle.std.specs.Prelude.{◌≡◌, IfOk, None};
ghost use Rattle.plan_table.specs.Plans.{row_of};
ghost use Rattle.desk_report.specs.Report.{IsReportOf};
ghost use Rattle.live_report.specs.Books.{AreOf};
ghost use Rattle.live_report.specs.Lines.{AreLinesOf};

use crate::books::Books;
use crate::lines::Lines;
use crate::reports::quick_report;
use desk_report::Report;
use grid_cells::OutOfMemory;
use scene_edits::Scene;

impl Books {
    // The lines of the scene's agents: those that stand, and else new ones. None stand until they are
    // put back.
    pub(crate) fn take_lines(&mut self, scene: &Scene) -> Result<Lines, OutOfMemory>
        requires { AreOf scene.now self.old }
        ensures rest { self.new ≡ record self.old { lines = None } }
        ensures lines { IfOk result (AreLinesOf scene.now.grid (row_of scene.now.rows)) }
    {
        if let Some(lines) = self.lines.take() {
            return Ok(lines);
        }
        Lines::of(self.alloc, scene.plans(), self.prices.fields())
    }

    /// Makes the lines of the scene's agents, where they don't stand. `follow_telling` then reports what
    /// changes in them.
    ///
    /// # Errors
    ///
    /// Want of memory.
    pub fn make_lines(&mut self, scene: &Scene) -> Result<(), OutOfMemory>
        requires { AreOf scene.now self.old }
        ensures { AreOf scene.now self.new }
    {
        let lines = self.take_lines(scene)?;
        drop(self.lines.replace(lines));
        Ok(())
    }

    // The report of the scene, whose agents have those lines.
    pub(crate) fn report_by(&self, lines: &Lines, scene: &Scene) -> Result<Report, OutOfMemory>
        requires books { AreOf scene.now self.now }
        requires lines { AreLinesOf scene.now.grid (row_of scene.now.rows) lines.now }
        ensures { IfOk result (IsReportOf scene.now.grid scene.now.mode scene.now.rows) }
    {
        let _plans = scene.plans();
        let conflicts = self.fleet.conflicts()?;
        quick_report(self.alloc, conflicts, self.prices.costs(), lines)
    }
}
