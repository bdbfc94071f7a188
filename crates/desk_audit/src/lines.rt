//! The lines of a piece, with the lower bounds.
ghost use Rattle.std.specs.Prelude.{◌≤◌, IfOk, length, slice_range};
ghost use Rattle.desk_report.specs.Report.{AreLines};
ghost use Rattle.desk_audit.specs.Parts.{AreOnMap};

use crate::piece_bounds::{bound_at, none_noted, note_by_paths};
use desk_report::{AgentLine, line};
use goal_fields::AStar;
use grid_cells::{Grid, OutOfMemory};
use plan_table::Plans;
use std::alloc::Global;

/// The lines of the agents at ranks from one on and before another, in their order.
pub(crate) fn lines_of(
    alloc: Global,
    grid: &Grid,
    plans: &Plans,
    from: u32,
    to: u32,
) -> Result<Vec<AgentLine>, OutOfMemory>
    requires order { from ≤ to }
    requires within { to ≤ length plans.now.rows }
    requires on_map { AreOnMap grid.now plans.now.rows }
    ensures { IfOk result (λ lines. AreLines grid.now (slice_range plans.now.rows from to) lines.items) }
{
    let mut bounds = none_noted(alloc, to - from)?;
    let takers = note_by_paths(alloc, &mut bounds, grid, plans, from)?;
    let mut room: Option<AStar> = None;
    let mut lines = Vec::new(alloc);
    for rank in from..to {
        let bound = bound_at(
            alloc,
            &mut bounds,
            &mut room,
            &takers,
            grid,
            plans,
            from,
            rank,
        )?;
        let entry = plans.entry_at(rank);
        lines.push(line(grid, entry.0, entry.1, bound))?;
    }
    Ok(lines)
}
