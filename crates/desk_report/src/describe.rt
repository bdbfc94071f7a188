ghost use Rattle.std.specs.Prelude.{◌≡◌, ◌+◌, ◌<◌, ◌≤◌, IfOk, length, map, slice_get, Option, Some, ℕ};
ghost use Rattle.mapf_rules.specs.Costs.{IsSumOf, IsSumOfCosts, IsMakespan};
ghost use Rattle.desk_report.specs.Report.{IsBound, IsLine, AreBounds, AreLines, IsReportOf};

use crate::reports::{AgentLine, Report};
use grid_cells::{Agent, Grid, List, MOST_AGENT, OutOfMemory};
use mapf_rules::{
    Conflict, Visit, blocked_visits, conflicts, is_finished, is_unblocked, makespan, settle_time,
    sum_of, sum_of_costs,
};
use plan_table::{Mode, Plans, Row};
use std::alloc::Global;

/// What is said of the agent with that row and that lower bound.
pub fn line(grid: &Grid, agent: Agent, row: &Row, bound: Option<u32>) -> AgentLine
    ensures { IsBound grid.now row.now bound → IsLine grid.now (agent, row.now) result }
{
    let settle = settle_time(&row.plan);
    let finished = is_finished(row);
    let priced = finished && is_unblocked(grid, &row.plan);
    let gap = if priced {
        Some(settle.saturating_sub(bound.unwrap_or(0)))
    } else {
        None
    };
    AgentLine {
        agent,
        settle,
        finished,
        bound,
        gap,
    }
}

// The bound at the index, if the list has one.
fn bound_at(bounds: &[Option<u32>], index: u32) -> Option<u32>
    ensures { (bound : Option ℕ) → slice_get bounds.now index ≡ Some bound → result ≡ bound }
{
    let index = index as usize;
    if index < bounds.len() {
        bounds[index]
    } else {
        None
    }
}

// The lines of the agents, in their order.
fn lines(
    alloc: Global,
    grid: &Grid,
    plans: &Plans,
    bounds: &[Option<u32>],
) -> Result<Vec<AgentLine>, OutOfMemory>
    ensures lines { IfOk result (λ lines. AreBounds grid.now plans.now.rows bounds.now → AreLines grid.now plans.now.rows lines.items) }
    ensures each { IfOk result (λ lines. length lines.items ≡ length plans.now.rows) }
{
    let mut lines = Vec::new(alloc);
    for rank in 0..plans.count() {
        let entry = plans.entry_at(rank);
        let bound = bound_at(bounds, rank);
        lines.push(line(grid, entry.0, entry.1, bound))?;
    }
    Ok(lines)
}

// The bounds of the lines.
fn bounds_of(alloc: Global, lines: &[AgentLine]) -> Result<Vec<Option<u32>>, OutOfMemory>
    ensures { IfOk result (λ bounds. bounds.items ≡ map (λ line. line.bound) lines.now) }
{
    Ok(lines.iter().map(|line| line.bound).collect(alloc)?)
}

// The gaps of the lines.
fn gaps_of(alloc: Global, lines: &[AgentLine]) -> Result<Vec<Option<u32>>, OutOfMemory>
    ensures { IfOk result (λ gaps. gaps.items ≡ map (λ line. line.gap) lines.now) }
{
    Ok(lines.iter().map(|line| line.gap).collect(alloc)?)
}

/// The report of the plans with those conflicts, visits and lines: it adds the totals.
pub fn with_totals(
    alloc: Global,
    plans: &Plans,
    conflicts: List<Conflict>,
    visits: List<Visit>,
    lines: List<AgentLine>,
) -> Result<Report, OutOfMemory>
    requires { length lines ≤ MOST_AGENT + 1 }
    ensures conflicts { IfOk result (λ report. report.conflicts ≡ conflicts) }
    ensures visits { IfOk result (λ report. report.visits ≡ visits) }
    ensures lines { IfOk result (λ report. report.lines ≡ lines) }
    ensures sum { IfOk result (λ report. IsSumOfCosts plans.now.rows report.sum) }
    ensures makespan { IfOk result (λ report. IsMakespan plans.now.rows report.makespan) }
    ensures bounds { IfOk result (λ report. IsSumOf (map (λ line. line.bound) lines) report.bounds) }
    ensures total_gap { IfOk result (λ report. IsSumOf (map (λ line. line.gap) lines) report.total_gap) }
{
    let sum = sum_of_costs(alloc, plans)?;
    let makespan = makespan(alloc, plans)?;
    let bounds = bounds_of(alloc, lines.items())?;
    let gaps = gaps_of(alloc, lines.items())?;
    Ok(Report {
        conflicts,
        visits,
        lines,
        sum,
        makespan,
        bounds: sum_of(&bounds),
        total_gap: sum_of(&gaps),
    })
}

/// The report of the map, the mode and the plans, found by going over all times and all pairs of
/// agents, where the list has the agents' lower bounds in their order.
pub fn plain_report(
    alloc: Global,
    grid: &Grid,
    mode: Mode,
    plans: &Plans,
    bounds: &[Option<u32>],
) -> Result<Report, OutOfMemory>
    ensures { IfOk result (λ report. AreBounds grid.now plans.now.rows bounds.now → IsReportOf grid.now mode plans.now.rows report) }
{
    let _count = plans.count();
    let conflicts = conflicts(alloc, plans, mode)?;
    let visits = blocked_visits(alloc, grid, plans)?;
    let lines = lines(alloc, grid, plans, bounds)?;
    let report = with_totals(alloc, plans, conflicts, visits, List::new(lines))?;
    Ok(report)
}
