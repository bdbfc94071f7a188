//! What changed in a report, by what came to its lists and went from them.
ghost use Rattle.std.specs.Prelude.{◌≡◌, IfOk};
ghost use Rattle.plan_table.specs.Plans.{row_of};
ghost use Rattle.desk_report.specs.declared.reports.Report.{Report};
ghost use Rattle.live_report.specs.Books.{AreOf};
ghost use Rattle.live_report.specs.Changed.{AreAgentsGone, AreChangesBy, HasReport};
ghost use Rattle.live_report.specs.Histories.{IsFollowed};
ghost use Rattle.live_report.specs.Lines.{AreLinesOf};

use crate::books::Books;
use crate::lines::Lines;
use crate::turnovers::Turnover;
use desk_report::{AgentLine, Changes, Report};
use grid_cells::{Agent, List, OutOfMemory};
use mapf_rules::{Conflict, Kind, Visit};
use plan_table::Plans;
use scene_edits::Scene;
use std::alloc::Global;

impl Books {
    /// What changed up to the report of the scene, where that came to its lists and went from them. The
    /// cost follows what came and went, but for the totals: these look at each line. Lines are made where
    /// none stand.
    ///
    /// # Errors
    ///
    /// Want of memory, also where something wasn't followed.
    pub fn changes(&mut self, turnover: Turnover, scene: &Scene) -> Result<Changes, OutOfMemory>
        requires { AreOf scene.now self.old }
        ensures kept { AreOf scene.now self.new }
        ensures followed { IfOk result (λ _. IsFollowed turnover) }
        ensures told { IfOk result (AreChangesBy turnover scene.now) }
    {
        if !turnover.is_followed() {
            drop(turnover);
            return Err(OutOfMemory);
        }
        let Ok(lines) = self.take_lines(scene) else {
            drop(turnover);
            return Err(OutOfMemory);
        };
        let changes = self.changes_by(turnover, &lines, scene);
        drop(self.lines.replace(lines));
        changes
    }

    // The same, where the scene's agents have those lines, and what came and went is followed.
    fn changes_by(
        &self,
        turnover: Turnover,
        lines: &Lines,
        scene: &Scene,
    ) -> Result<Changes, OutOfMemory>
        requires books { AreOf scene.now self.now }
        requires lines { AreLinesOf scene.now.grid (row_of scene.now.rows) lines.now }
        requires followed { IsFollowed turnover }
        ensures { IfOk result (AreChangesBy turnover scene.now) }
    {
        let Ok(totals) = self.cut_by(lines, scene, &[]) else {
            drop(turnover);
            return Err(OutOfMemory);
        };
        let (plans, entries) = (scene.plans(), self.fleet.entries());
        let _listed = entries.has(Kind::Vertex);
        let Turnover {
            conflicts,
            visits,
            lines,
        } = turnover;
        let (conflicts, gone_conflicts) = conflicts.into_lists(self.alloc)?;
        let (visits, gone_visits) = visits.into_lists(self.alloc)?;
        let (lines, gone_lines) = lines.into_lists(self.alloc)?;
        let gone_agents = agents_gone(self.alloc, gone_lines.items(), plans)?;
        Ok(Changes {
            agents: plans.count() as usize,
            conflicts: entries.len(),
            blocked: self.prices.costs().visits(),
            gone_agents,
            gone_conflicts,
            gone_visits,
            came: with_lists(totals, conflicts, visits, lines),
        })
    }

    /// A law: there is a report of the scene that the books are of.
    pub fn report_is_there(&self, scene: &Scene)
        requires { AreOf scene.now self.now }
        ensures { HasReport scene.now }
    {
        let _plans = scene.plans();
        let _goals = self.prices.fields().count();
        let _unfinished = self.prices.costs().unfinished();
        let _listed = self.fleet.entries().has(Kind::Vertex);
    }
}

// The agents of those lines that have no row.
fn agents_gone(
    alloc: Global,
    lines: &[AgentLine],
    plans: &Plans,
) -> Result<List<Agent>, OutOfMemory>
    ensures { IfOk result (AreAgentsGone plans.now.rows lines.now) }
{
    let mut agents = Vec::new(alloc);
    for line in lines {
        if plans.row(line.agent).is_some() {
            continue;
        }
        agents.push(line.agent)?;
    }
    Ok(List::new(agents))
}

// The totals, with those lists.
fn with_lists(
    totals: Report,
    conflicts: List<Conflict>,
    visits: List<Visit>,
    lines: List<AgentLine>,
) -> Report
    ensures { result ≡ record totals { conflicts = conflicts; visits = visits; lines = lines } }
{
    Report {
        conflicts,
        visits,
        lines,
        sum: totals.sum,
        makespan: totals.makespan,
        bounds: totals.bounds,
        total_gap: totals.total_gap,
    }
}
