//! A report cut to some agents.
ghost use Rattle.std.specs.Prelude.{◌≡◌, ◌+◌, ◌≤◌, IfOk, List, filter, length};
ghost use Rattle.grid_cells.specs.Grid.{Chart};
ghost use Rattle.plan_table.specs.Route.{tracks_of};
ghost use Rattle.plan_table.specs.declared.tracks.Mode.{Mode};
ghost use Rattle.mapf_rules.specs.ConflictList.{AreConflicts};
ghost use Rattle.mapf_rules.specs.declared.entries.Conflict.{Conflict};
ghost use Rattle.conflict_ledger.specs.Named.{AreNamed};
ghost use Rattle.cost_ledger.specs.Ledger.{StandsForMap};
ghost use Rattle.desk_report.specs.Cut.{is_one, IsCutOf};
ghost use Rattle.live_report.specs.Lines.{AreOpenLines};
ghost use Rattle.live_report.specs.Rows.{HavePathsOn};

use crate::lines::Lines;
use crate::told_lines::told_lines;
use crate::totals::{sum_of_bounds, sum_of_gaps};
use cost_ledger::CostLedger;
use desk_report::{AgentLine, Report};
use grid_cells::{Agent, List, MOST_AGENT, OutOfMemory};
use mapf_rules::{Conflict, Visit};
use std::alloc::Global;

// The lines of those agents, in their order.
fn lines_of(
    alloc: Global,
    lines: &[AgentLine],
    agents: &[Agent],
) -> Result<List<AgentLine>, OutOfMemory>
    ensures { IfOk result (λ kept. kept ≡ filter (λ line. is_one agents.now line.agent) lines.now) }
{
    let mut kept = Vec::new(alloc);
    for line in lines {
        if !agents.contains(&line.agent) {
            continue;
        }
        kept.push(*line)?;
    }
    Ok(List::new(kept))
}

// The visits of those agents, in their order.
fn visits_of(alloc: Global, visits: &[Visit], agents: &[Agent]) -> Result<List<Visit>, OutOfMemory>
    ensures { IfOk result (λ kept. kept ≡ filter (λ visit. is_one agents.now visit.agent) visits.now) }
{
    let mut kept = Vec::new(alloc);
    for visit in visits {
        if !agents.contains(&visit.agent) {
            continue;
        }
        kept.push(*visit)?;
    }
    Ok(List::new(kept))
}

/// The report of the rows that the ledger of costs has, cut to those agents, where the conflicts are
/// those that name one of them, the lines are the rows' and the ledger stands for the map.
///
/// # Errors
///
/// Want of memory.
pub(crate) fn quick_cut(
    alloc: Global,
    agents: &[Agent],
    conflicts: List<Conflict>,
    costs: &CostLedger,
    lines: &Lines,
) -> Result<Report, OutOfMemory>
    requires { length lines.now ≤ MOST_AGENT + 1 }
    ensures { IfOk result (λ cut. (grid : Chart) (mode : Mode) (entries : List Conflict) →
        StandsForMap costs.now grid
        → AreOpenLines grid costs.now.rows lines.now
        → HavePathsOn grid costs.now.rows
        → AreConflicts (tracks_of mode costs.now.rows) entries
        → AreNamed (tracks_of mode costs.now.rows) agents.now conflicts
        → IsCutOf grid mode costs.now.rows agents.now cut) }
{
    let visits = costs.blocked_visits()?;
    let lines = told_lines(alloc, lines.items(), visits.items())?;
    let bounds = sum_of_bounds(&lines);
    let total_gap = sum_of_gaps(&lines);
    Ok(Report {
        conflicts,
        visits: visits_of(alloc, visits.items(), agents)?,
        lines: lines_of(alloc, &lines, agents)?,
        sum: costs.sum(),
        makespan: costs.makespan(),
        bounds,
        total_gap,
    })
}
