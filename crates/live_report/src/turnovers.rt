//! What a commit changes in the report: what comes to its lists and goes from them.
ghost use Rattle.std.specs.Prelude.{◌≡◌, IfOk, IfSome, List, false};
ghost use Rattle.grid_cells.specs.Grid.{Chart};
ghost use Rattle.mapf_rules.specs.declared.visits.Visit.{Visit};
ghost use Rattle.desk_report.specs.declared.reports.AgentLine.{AgentLine};
ghost use Rattle.plan_table.specs.Plans.{row_of};
ghost use Rattle.change_history.specs.Moved.{Tell};
ghost use Rattle.desk_report.specs.Report.{IsReportOf};
ghost use Rattle.desk_report.specs.declared.reports.Report.{Report};
ghost use Rattle.scene_edits.specs.ChangedBy.{ChangedBy};
ghost use Rattle.scene_edits.specs.Scene.{SceneState};
ghost use Rattle.live_report.specs.Books.{AreOf};
ghost use Rattle.live_report.specs.Following.{AreBehind};
ghost use Rattle.live_report.specs.Lines.{AreLinesOf};
ghost use Rattle.live_report.specs.Looks.{IsLook, IsLineOf, IsVisitOf};
ghost use Rattle.live_report.specs.Prices.{Rows};
ghost use Rattle.live_report.specs.Turnovers.{CoverChanges, IsTurnover, ListsEach};

use crate::books::Books;
use crate::lines::Lines;
use crate::looks::{Look, agents_seen, look_at};
use change_history::Moves;
use desk_report::AgentLine;
use grid_cells::{Agent, OutOfMemory};
use mapf_rules::{Conflict, Visit};
use scene_edits::{Change, Scene, flipped, formers};
use std::alloc::Global;

/// What came to each list of a report and went from it, as far as that is followed.
#[derive(Drop)]
pub struct Turnover {
    pub conflicts: Moves<Conflict>,
    pub visits: Moves<Visit>,
    pub lines: Moves<AgentLine>,
}

// What the report had of the agents that a change can touch.
#[derive(Drop)]
struct Seen {
    agents: Vec<Agent>,
    look: Look,
}

impl Books {
    /// Takes in what edits changed, as `follow` does, and reports what that changes in the report.
    /// Lines and visits are followed where lines stand: of the agents whose rows changed, and of all
    /// where a cell flips.
    ///
    /// # Errors
    ///
    /// Want of memory: the books are gone then.
    pub fn follow_telling(
        self,
        changes: &[Change],
        scene: &Scene,
    ) -> Result<(Books, Turnover), OutOfMemory>
        requires { AreBehind changes.now scene.now self }
        ensures kept { IfOk result (λ told. AreOf scene.now told.0) }
        ensures told { IfOk result (λ told. (before : SceneState) (old new : Report) → ChangedBy before changes.now scene.now → AreOf before self
            → IsReportOf before.grid before.mode before.rows old → IsReportOf scene.now.grid scene.now.mode scene.now.rows new → IsTurnover old new told.1) }
    {
        let _plans = scene.plans();
        let seen = self.seen(changes, scene);
        let mut conflicts = Moves::new(self.alloc);
        let Ok(mut books) = self.follow_noting(changes, scene, &mut conflicts) else {
            drop(seen);
            drop(conflicts);
            return Err(OutOfMemory);
        };
        match seen {
            Some(seen) => {
                let turnover = books.turnover_since(seen, conflicts, scene);
                Ok((books, turnover))
            }
            None => {
                let turnover = conflicts_alone(conflicts, books.alloc);
                Ok((books, turnover))
            }
        }
    }

    // What the report of the scene before has of the agents that the changes touch, where lines stand.
    fn seen(&self, changes: &[Change], scene: &Scene) -> Option<Seen>
        requires { AreBehind changes.now scene.now self.now }
        ensures look { IfSome result (λ seen. (before : SceneState) → ChangedBy before changes.now scene.now → AreOf before self.now
            → IsLook before.grid (row_of before.rows) seen.agents.items seen.look) }
        ensures cover { IfSome result (λ seen. (before : SceneState) → ChangedBy before changes.now scene.now → AreOf before self.now
            → CoverChanges seen.agents.items before.grid (row_of before.rows) scene.now.grid (row_of scene.now.rows)) }
    {
        let _size = scene.grid().size();
        let _goals = self.prices.fields().count();
        let Some(lines) = &self.lines else {
            return None;
        };
        let Ok(cells) = flipped(self.alloc, changes) else {
            return None;
        };
        let Ok(formers) = formers(self.alloc, changes, scene.plans()) else {
            return None;
        };
        let Ok(agents) = agents_seen(self.alloc, &formers, &cells, lines) else {
            return None;
        };
        match look_at(self.alloc, &agents, lines, self.prices.costs()) {
            Ok(look) => Some(Seen { agents, look }),
            Err(_) => None,
        }
    }

    // What came and went since those agents were seen, up to the scene.
    fn turnover_since(&mut self, seen: Seen, conflicts: Moves<Conflict>, scene: &Scene) -> Turnover
        requires { AreOf scene.now self.old }
        ensures kept { AreOf scene.now self.new }
        ensures conflicts { result.conflicts ≡ conflicts }
        ensures visits { (map : Chart) (was : Rows) (old new : List Visit) → IsLook map was seen.agents.items seen.look
            → CoverChanges seen.agents.items map was scene.now.grid (row_of scene.now.rows) → ListsEach old (IsVisitOf map was)
            → ListsEach new (IsVisitOf scene.now.grid (row_of scene.now.rows)) → Tell old new result.visits }
        ensures lines { (map : Chart) (was : Rows) (old new : List AgentLine) → IsLook map was seen.agents.items seen.look
            → CoverChanges seen.agents.items map was scene.now.grid (row_of scene.now.rows) → ListsEach old (IsLineOf map was)
            → ListsEach new (IsLineOf scene.now.grid (row_of scene.now.rows)) → Tell old new result.lines }
    {
        let Ok(look) = self.look(&seen.agents, scene) else {
            return conflicts_alone(conflicts, self.alloc);
        };
        let visits = Moves::between(self.alloc, &seen.look.visits, &look.visits);
        let lines = Moves::between(self.alloc, &seen.look.lines, &look.lines);
        Turnover {
            conflicts,
            visits,
            lines,
        }
    }

    // What the report of the scene has of the agents. Its lines are made where none stand, and stand
    // then.
    fn look(&mut self, agents: &[Agent], scene: &Scene) -> Result<Look, OutOfMemory>
        requires { AreOf scene.now self.old }
        ensures kept { AreOf scene.now self.new }
        ensures look { IfOk result (IsLook scene.now.grid (row_of scene.now.rows) agents.now) }
    {
        let lines = self.take_lines(scene)?;
        let look = self.look_by(&lines, agents, scene);
        drop(self.lines.replace(lines));
        look
    }

    // The same, by those lines.
    fn look_by(&self, lines: &Lines, agents: &[Agent], scene: &Scene) -> Result<Look, OutOfMemory>
        requires books { AreOf scene.now self.now }
        requires lines { AreLinesOf scene.now.grid (row_of scene.now.rows) lines.now }
        ensures { IfOk result (IsLook scene.now.grid (row_of scene.now.rows) agents.now) }
    {
        let _plans = scene.plans();
        look_at(self.alloc, agents, lines, self.prices.costs())
    }
}

// The conflicts that came and went, where visits and lines aren't followed.
fn conflicts_alone(conflicts: Moves<Conflict>, alloc: Global) -> Turnover
    ensures conflicts { result.conflicts ≡ conflicts }
    ensures visits { result.visits.followed ≡ false }
    ensures lines { result.lines.followed ≡ false }
{
    Turnover {
        conflicts,
        visits: Moves::unfollowed(alloc),
        lines: Moves::unfollowed(alloc),
    }
}
