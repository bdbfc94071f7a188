ghost use Rattle.std.specs.Prelude.{◌≡◌, ◌+◌, ◌≤◌, IfOk, length};
ghost use Rattle.grid_cells.specs.Grid.{Chart};
ghost use Rattle.plan_table.specs.Route.{tracks_of};
ghost use Rattle.plan_table.specs.declared.tracks.Mode.{Mode};
ghost use Rattle.mapf_rules.specs.ConflictList.{AreConflicts};
ghost use Rattle.cost_ledger.specs.Ledger.{StandsForMap};
ghost use Rattle.desk_report.specs.Report.{IsReportOf};
ghost use Rattle.live_report.specs.Lines.{AreOpenLines};
ghost use Rattle.live_report.specs.Rows.{HavePathsOn};

use crate::lines::Lines;
use crate::told_lines::told_lines;
use crate::totals::{sum_of_bounds, sum_of_gaps};
use cost_ledger::CostLedger;
use desk_report::Report;
use grid_cells::{List, MOST_AGENT, OutOfMemory};
use mapf_rules::Conflict;
use std::alloc::Global;

/// The report of the rows that the ledger of costs has, where the conflicts and the lines are theirs
/// and the ledger stands for the map. Its cost is that of a copy of the lines, the entries and the
/// visits.
///
/// # Errors
///
/// Want of memory.
pub fn quick_report(
    alloc: Global,
    conflicts: List<Conflict>,
    costs: &CostLedger,
    lines: &Lines,
) -> Result<Report, OutOfMemory>
    requires { length lines.now ≤ MOST_AGENT + 1 }
    ensures { IfOk result (λ report. (grid : Chart) (mode : Mode) →
        StandsForMap costs.now grid
        → AreOpenLines grid costs.now.rows lines.now
        → HavePathsOn grid costs.now.rows
        → AreConflicts (tracks_of mode costs.now.rows) conflicts
        → IsReportOf grid mode costs.now.rows report) }
{
    let visits = costs.blocked_visits()?;
    let lines = told_lines(alloc, lines.items(), visits.items())?;
    let bounds = sum_of_bounds(&lines);
    let total_gap = sum_of_gaps(&lines);
    Ok(Report {
        conflicts,
        visits,
        lines: List::new(lines),
        sum: costs.sum(),
        makespan: costs.makespan(),
        bounds,
        total_gap,
    })
}
