ghost use Rattle.std.specs.Prelude.{◌≡◌, ◌<◌, [], ◌∷◌, ◌++◌, All, IfOk, OnOk};

use grid_cells::{Agent, OutOfMemory};
use plan_table::{Plans, Row};
use std::alloc::Global;

// Adds the row of an agent above all others.
pub(crate) fn append_row(plans: &mut Plans, agent: Agent, row: Row) -> Result<(), OutOfMemory>
    requires above { All (λ entry. entry.0 < agent) plans.old.rows }
    ensures { OnOk result (plans.new.rows ≡ plans.old.rows ++ (agent, row) ∷ []) }
{
    plans.make_room()?;
    plans.insert(agent, row);
    Ok(())
}

// The same rows.
pub(crate) fn copy_of(alloc: Global, plans: &Plans) -> Result<Plans, OutOfMemory>
    ensures { IfOk result (λ copy. copy.rows ≡ plans.now.rows) }
{
    let mut copy = Plans::new(alloc);
    for rank in 0..plans.count() {
        let Some(agent) = plans.agent_at(rank) else {
            unreachable!()
        };
        let Some(row) = plans.row(agent) else {
            unreachable!()
        };
        let row = Row {
            goal: row.goal,
            plan: row.plan.copy()?,
        };
        append_row(&mut copy, agent, row)?;
    }
    Ok(copy)
}
