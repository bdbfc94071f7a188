ghost use Rattle.std.specs.Prelude.{◌≡◌, ◌⊎◌, ℕ, List, OnOk, All, Contains, ◌==◌, if◌then◌else◌};
ghost use Rattle.std.specs.Option.{option_map};
ghost use Rattle.std.specs.BTreeMap.{keys};
ghost use Rattle.plan_table.specs.declared.plans.Row.{Row};
ghost use Rattle.scene_edits.specs.Formers.{as_past};
ghost use Rattle.scene_edits.specs.Named.{JoinBy};
ghost use Rattle.scene_edits.specs.Kept.{past_with, past_known, before_change};

use crate::changes::Change;
use crate::named_agents::FormerRow;
use grid_cells::{Agent, Cell, OutOfMemory};
use plan_table::{Plan, Plans};
use std::collections::BTreeMap;

// How far a path is known to be in its own cells: at all times.
const FOR_EVER: u32 = u32::MAX;

/// What is kept for an agent while changes are taken back: its row, if it had one, and below which
/// time the row's path is known to be in the cells of the path that the agent has after the changes.
#[derive(Clone, Copy)]
pub(crate) struct Kept<'a> {
    // These are of no meaning where there is no plan.
    pub(crate) goal: Cell,
    pub(crate) alike: u32,
    pub(crate) plan: Option<&'a Plan>,
}

// Takes a change back in the rows that are known: what is kept, and else the table.
pub(crate) fn take_back<'a>(
    rows: &mut BTreeMap<Agent, Kept<'a>>,
    change: &'a Change,
    plans: &'a Plans,
) -> Result<(), OutOfMemory>
    ensures past { OnOk result ((agent : ℕ)
        → past_known rows.new plans.now.rows agent ≡ before_change change.now agent (past_known rows.old plans.now.rows agent)) }
    ensures named { OnOk result (JoinBy change.now (keys rows.old) (keys rows.new)) }
{
    match change {
        Change::Added { agent } => keep(rows, *agent, Cell::default(), 0, None),
        Change::Dropped { agent, row } => keep(rows, *agent, row.goal, 0, Some(&row.plan)),
        Change::Aimed { agent, old_goal } => match known(rows, *agent, plans) {
            None => Ok(()),
            Some(row) => keep(rows, *agent, *old_goal, row.alike, Some(row.plan)),
        },
        Change::Moved {
            agent,
            old_plan,
            since,
        } => match known(rows, *agent, plans) {
            None => Ok(()),
            Some(row) => {
                let alike = row.alike.min(since.unwrap_or(row.alike));
                keep(rows, *agent, row.goal, alike, Some(old_plan))
            }
        },
        Change::Flipped { .. } | Change::Same { .. } => Ok(()),
    }
}

// Keeps a goal and a plan for the agent, and how far the plan is that of later, or that it had no row, in place of what was kept
// for it.
fn keep<'a>(
    rows: &mut BTreeMap<Agent, Kept<'a>>,
    agent: Agent,
    goal: Cell,
    alike: u32,
    plan: Option<&'a Plan>,
) -> Result<(), OutOfMemory>
    ensures past { OnOk result ((table : List (ℕ × Row)) (other : ℕ)
        → past_known rows.new table other ≡ (if agent == other then past_with goal alike plan.entry else past_known rows.old table other)) }
    ensures named { OnOk result (All (λ key. Contains (keys rows.old) key ⊎ (agent ≡ key)) (keys rows.new)) }
{
    match rows.insert(agent, Kept { goal, alike, plan }) {
        Ok(_) => Ok(()),
        Err(_) => Err(OutOfMemory),
    }
}

// The agent's row: the one kept, or where nothing is kept for it that of the table, whose path is that of later for ever.
fn known<'a>(
    rows: &BTreeMap<Agent, Kept<'a>>,
    agent: Agent,
    plans: &'a Plans,
) -> Option<FormerRow<'a>>
    ensures { option_map as_past result ≡ past_known rows.now plans.now.rows agent }
{
    match rows.get(&agent) {
        Some(kept) => match kept.plan {
            None => None,
            Some(plan) => Some(FormerRow {
                goal: kept.goal,
                alike: kept.alike,
                plan,
            }),
        },
        None => match plans.row(agent) {
            None => None,
            Some(row) => Some(FormerRow {
                goal: row.goal,
                alike: FOR_EVER,
                plan: &row.plan,
            }),
        },
    }
}
