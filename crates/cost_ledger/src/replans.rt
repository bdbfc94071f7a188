ghost use Rattle.std.specs.Prelude.{◌≡◌, ◌+◌, ◌≤◌, None, OnOk, IfOk};
ghost use Rattle.plan_table.specs.Path.{last_index};
ghost use Rattle.plan_table.specs.Plans.{row_of};
ghost use Rattle.cost_ledger.specs.Kept.{ends_elsewhere, rest, GainsRow};
ghost use Rattle.plan_table.specs.Sets.{Gains};
ghost use Rattle.cost_ledger.specs.Replans.{GainsVisits, planned_row};

use crate::along::block;
use crate::rests::Rest;
use crate::rows::{Rows, elsewhere};
use grid_cells::{Agent, Cell, Grid, OutOfMemory};
use mapf_rules::Visit;
use plan_table::{Plan, Row};
use std::collections::BTreeSet;

/// An agent, its goal, and the plan that it gets on a grid.
#[derive(Drop)]
pub(crate) struct Planned<'a> {
    pub agent: Agent,
    pub goal: Cell,
    pub plan: &'a Plan,
    pub grid: &'a Grid,
}

/// Adds the row of an agent that has none, and what is kept along its path: its rest, and its visits
/// from a time on. Answers how many paths of the row end elsewhere than at its goal.
pub(crate) fn add_row(
    rows: &mut Rows,
    blocked: &mut BTreeSet<Visit>,
    rests: &mut BTreeSet<Rest>,
    planned: &Planned<'_>,
    since: u32,
) -> Result<u32, OutOfMemory>
    requires absent { row_of rows.old planned.now.agent ≡ None }
    requires within { since ≤ last_index planned.now.plan.now + 1 }
    ensures blocked { OnOk result (GainsVisits blocked.old.keys blocked.new.keys planned.now.grid.now planned.now.agent planned.now.plan.now since) }
    ensures rests { OnOk result (Gains rests.old.keys rests.new.keys (rest (last_index planned.now.plan.now) planned.now.agent)) }
    ensures row { OnOk result (GainsRow rows.old rows.new planned.now.agent (planned_row planned.now)) }
    ensures away { IfOk result (λ away. away ≡ ends_elsewhere (planned_row planned.now)) }
{
    let row = Row {
        goal: planned.goal,
        plan: planned.plan.copy()?,
    };
    let away = elsewhere(&row);
    block(blocked, planned.grid, planned.agent, planned.plan, since)?;
    rests.insert(Rest {
        time: planned.plan.last(),
        agent: planned.agent,
    })?;
    rows.insert(planned.agent, row)?;
    Ok(away)
}
