ghost use Rattle.std.specs.Prelude.{◌≡◌, ℕ, List, IfOk, All, map};
ghost use Rattle.std.specs.Option.{option_map};
ghost use Rattle.std.specs.Ordering.{nat_cmp};
ghost use Rattle.std.specs.BTreeMap.{IsOrdered};
ghost use Rattle.scene_edits.specs.ChangedBy.{HoldsOver};
ghost use Rattle.scene_edits.specs.Named.{IsNamed};
ghost use Rattle.scene_edits.specs.Formers.{as_past, former_past, former_of, AreFormers};

use crate::changes::Change;
use crate::taking_back::{Kept, take_back};
use grid_cells::{Agent, Cell, OutOfMemory};
use plan_table::{Plan, Plans};
use std::alloc::Global;
use std::collections::BTreeMap;

/// An agent that changes name, and the row that it had before them.
#[derive(Clone, Copy)]
pub struct Former<'a> {
    pub agent: Agent,
    // These are of no meaning where there is no plan.
    goal: Cell,
    alike: u32,
    plan: Option<&'a Plan>,
}

/// A row that an agent had, and below which time its path is known to be in the cells of the path
/// that the agent has after the changes.
#[derive(Clone, Copy)]
pub struct FormerRow<'a> {
    pub goal: Cell,
    pub alike: u32,
    pub plan: &'a Plan,
}

impl<'a> Former<'a> {
    /// The agent's row before the changes, if it had one.
    pub fn row(&self) -> Option<FormerRow<'a>>
        ensures { option_map as_past result ≡ former_past self.now }
    {
        match self.plan {
            None => None,
            Some(plan) => Some(FormerRow {
                goal: self.goal,
                alike: self.alike,
                plan,
            }),
        }
    }
}

/// Agents that the changes name, in the order of the agents, with their rows before the changes;
/// `plans` is the table after them. An agent that isn't among them has the row that it had.
pub fn formers<'a>(
    alloc: Global,
    changes: &'a [Change],
    plans: &'a Plans,
) -> Result<Vec<Former<'a>>, OutOfMemory>
    ensures rows { IfOk result (λ formers. HoldsOver changes.now (λ before after.
        after.rows ≡ plans.now.rows → AreFormers before.rows plans.now.rows formers.items)) }
    ensures named { IfOk result (λ formers. All (λ former. IsNamed changes.now former.agent) formers.items) }
{
    let mut rows = BTreeMap::new(alloc);
    let mut left = changes.len();
    while left > 0 {
        left -= 1;
        match take_back(&mut rows, &changes[left], plans) {
            Ok(()) => {}
            Err(refused) => return Err(refused),
        }
    }
    listed(alloc, &rows)
}

// What is kept for each agent, in order.
fn listed<'a>(
    alloc: Global,
    rows: &BTreeMap<Agent, Kept<'a>>,
) -> Result<Vec<Former<'a>>, OutOfMemory>
    ensures entries { IfOk result (λ formers. formers.items ≡ map former_of rows.now.entries) }
    ensures ordered { IsOrdered nat_cmp rows.now }
{
    let _many = rows.len();
    let mut formers = Vec::new(alloc);
    for (agent, kept) in rows {
        let former = Former {
            agent: *agent,
            goal: kept.goal,
            alike: kept.alike,
            plan: kept.plan,
        };
        match formers.push(former) {
            Ok(()) => {}
            Err(_) => return Err(OutOfMemory),
        }
    }
    Ok(formers)
}
