//! One agent's row becomes another.
ghost use Rattle.std.specs.Prelude.{◌≡◌, ◌+◌, min, IfOk, Some, None};
ghost use Rattle.grid_cells.specs.Size.{Holds};
ghost use Rattle.live_report.specs.Prices.{Rows};
ghost use Rattle.live_report.specs.Prices as priced;
ghost use Rattle.scene_edits.specs.Formers.{as_row, former_row, former_past};
ghost use Rattle.scene_edits.specs.Kept.{AreAlike};
ghost use Rattle.plan_table.specs.Path.{SamePlaces};
ghost use Rattle.plan_table.specs.Plans.{row_of};
ghost use Rattle.plan_table.specs.Route.{route_in};
ghost use Rattle.change_history.specs.Moved.{Follows};
ghost use Rattle.where_index.specs.Records.{nothing, records_apart};
ghost use Rattle.live_report.specs.Books.{Know, Renews};
ghost use Rattle.live_report.specs.Following.{former_apart};

use crate::books::Books;
use crate::former::{is_same_plan, track_of};
use crate::prices::PriceBooks;
use crate::standing_lines::{with_line, without_line};
use change_history::Moves;
use grid_cells::{Agent, Cell, Grid, OutOfMemory};
use mapf_rules::Conflict;
use plan_table::{Plan, Row};
use scene_edits::{Former, FormerRow, Scene};

impl Books {
    // The agent's row before becomes its row in the scene.
    pub(crate) fn change(
        self,
        former: &Former<'_>,
        scene: &Scene,
        moves: &mut Moves<Conflict>,
    ) -> Result<Books, OutOfMemory>
        requires know { Know scene.now.mode scene.now.grid former.now.agent (former_row former.now) self }
        requires alike { AreAlike (former_past former.now) (row_of scene.now.rows former.now.agent) }
        ensures kept { IfOk result (Renews scene.now.mode scene.now.grid former.now.agent
            (former_row former.now) (row_of scene.now.rows former.now.agent) self) }
        ensures touched { IfOk result (λ books. books.fleet.index.touched
            ≡ min (self.fleet.index.touched + former_apart scene.now.mode scene.now.rows former.now) u64.MAX) }
        ensures follows { IfOk result (λ books. Follows self.fleet.conflicts books.fleet.conflicts moves.old moves.new) }
    {
        let agent = former.agent;
        let _touched = self.fleet.touched();
        match (former.row(), scene.plans().row(agent)) {
            (None, None) => Ok(self),
            (None, Some(row)) => self.enter(agent, row, scene, moves),
            (Some(old), None) => self.leave(agent, old.goal, old.plan, scene, moves),
            (Some(old), Some(row)) => self.revise(agent, &old, row, scene, moves),
        }
    }

    // The agent comes, with that row.
    pub(crate) fn enter(
        self,
        agent: Agent,
        row: &Row,
        scene: &Scene,
        moves: &mut Moves<Conflict>,
    ) -> Result<Books, OutOfMemory>
        requires know { Know scene.now.mode scene.now.grid agent None self }
        requires inside { Holds scene.now.grid.size row.now.goal }
        ensures kept { IfOk result (Renews scene.now.mode scene.now.grid agent None (Some row.now) self) }
        ensures touched { IfOk result (λ books. books.fleet.index.touched
            ≡ min (self.fleet.index.touched + records_apart nothing (route_in scene.now.mode row.now)) u64.MAX) }
        ensures follows { IfOk result (λ books. Follows self.fleet.conflicts books.fleet.conflicts moves.old moves.new) }
    {
        let (alloc, fleet, prices, lines) = self.into_parts();
        let Ok(fleet) = fleet.admit(agent, row.track(scene.mode()), moves) else {
            drop(prices);
            drop(lines);
            return Err(OutOfMemory);
        };
        let Ok(prices) = prices.put(agent, row.goal, &row.plan, scene.grid()) else {
            drop(fleet);
            drop(lines);
            return Err(OutOfMemory);
        };
        let lines = with_line(lines, agent, row, prices.fields());
        Ok(Books {
            alloc,
            fleet,
            prices,
            lines,
        })
    }

    // The agent goes, with that row.
    fn leave(
        self,
        agent: Agent,
        goal: Cell,
        plan: &Plan,
        scene: &Scene,
        moves: &mut Moves<Conflict>,
    ) -> Result<Books, OutOfMemory>
        ensures kept { IfOk result (Renews scene.now.mode scene.now.grid agent (Some (record { goal = goal; plan = plan.now })) None self) }
        ensures touched { IfOk result (λ books. books.fleet.index.touched
            ≡ min (self.fleet.index.touched + records_apart (route_in scene.now.mode (record { goal = goal; plan = plan.now })) nothing) u64.MAX) }
        ensures follows { IfOk result (λ books. Follows self.fleet.conflicts books.fleet.conflicts moves.old moves.new) }
    {
        let (alloc, fleet, mut prices, lines) = self.into_parts();
        let Ok(fleet) = fleet.retract(agent, track_of(goal, plan, scene.mode()), moves) else {
            drop(prices);
            drop(lines);
            return Err(OutOfMemory);
        };
        prices.take(agent, goal);
        let lines = without_line(lines, agent);
        Ok(Books {
            alloc,
            fleet,
            prices,
            lines,
        })
    }

    // The agent stays, and its row changes.
    fn revise(
        self,
        agent: Agent,
        old: &FormerRow<'_>,
        row: &Row,
        scene: &Scene,
        moves: &mut Moves<Conflict>,
    ) -> Result<Books, OutOfMemory>
        requires know { Know scene.now.mode scene.now.grid agent (Some (as_row old.now)) self }
        requires alike { SamePlaces old.now.plan.now row.now.plan old.now.alike }
        requires inside { Holds scene.now.grid.size row.now.goal }
        ensures kept { IfOk result (Renews scene.now.mode scene.now.grid agent (Some (as_row old.now)) (Some row.now) self) }
        ensures touched { IfOk result (λ books. books.fleet.index.touched
            ≡ min (self.fleet.index.touched + records_apart (route_in scene.now.mode (as_row old.now)) (route_in scene.now.mode row.now)) u64.MAX) }
        ensures follows { IfOk result (λ books. Follows self.fleet.conflicts books.fleet.conflicts moves.old moves.new) }
    {
        let mode = scene.mode();
        let was = track_of(old.goal, old.plan, mode);
        let (alloc, fleet, prices, lines) = self.into_parts();
        let Ok(fleet) = fleet.revise(agent, was, row.track(mode), old.alike, moves) else {
            drop(prices);
            drop(lines);
            return Err(OutOfMemory);
        };
        let Ok(prices) = reprice(prices, agent, old, row, scene.grid()) else {
            drop(fleet);
            drop(lines);
            return Err(OutOfMemory);
        };
        let lines = with_line(lines, agent, row, prices.fields());
        Ok(Books {
            alloc,
            fleet,
            prices,
            lines,
        })
    }
}

// The agent's plan and goal become those of the row.
fn reprice(
    prices: PriceBooks,
    agent: Agent,
    old: &FormerRow<'_>,
    row: &Row,
    grid: &Grid,
) -> Result<PriceBooks, OutOfMemory>
    requires alike { SamePlaces old.now.plan.now row.now.plan old.now.alike }
    requires inside { Holds grid.now.size row.now.goal }
    requires know { (rows : Rows) × priced.AreOfRows grid.now rows prices × (rows agent ≡ Some (as_row old.now)) }
    ensures { IfOk result (priced.Reprices grid.now agent (Some (as_row old.now)) (Some row.now) prices) }
{
    let planned = replan(prices, agent, old, row, grid)?;
    planned.aim(agent, old.goal, row.goal, grid)
}

// The agent's plan becomes that of the row.
fn replan(
    prices: PriceBooks,
    agent: Agent,
    old: &FormerRow<'_>,
    row: &Row,
    grid: &Grid,
) -> Result<PriceBooks, OutOfMemory>
    requires alike { SamePlaces old.now.plan.now row.now.plan old.now.alike }
    requires know { (rows : Rows) × priced.AreOfRows grid.now rows prices × (rows agent ≡ Some (as_row old.now)) }
    ensures { IfOk result (priced.Reprices grid.now agent (Some (as_row old.now)) (Some (record { goal = old.now.goal; plan = row.now.plan })) prices) }
{
    if is_same_plan(old.plan, &row.plan, old.alike) {
        return Ok(prices);
    }
    prices.follow_plan(agent, old.goal, &row.plan, old.alike, grid)
}
