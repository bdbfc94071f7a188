//! The lines of a report, by the lines that are kept and the blocked visits.
ghost use Rattle.std.specs.Prelude.{◌≡◌, ◌↔◌, ℕ, List, IfOk, IsTrue, length};
ghost use Rattle.grid_cells.specs.Grid.{Chart};
ghost use Rattle.plan_table.specs.declared.plans.Row.{Row};
ghost use Rattle.mapf_rules.specs.Visits.{IsUnblocked};
ghost use Rattle.desk_report.specs.Report.{IsLine, AreLines};
ghost use Rattle.desk_report.specs.Laws.{IsPathOn};
ghost use Rattle.live_report.specs.Lines.{IsOpenLine, AreOpenLines, AreBlockedIn};

use crate::visitors::{first_from, is_of};
use desk_report::AgentLine;
use grid_cells::OutOfMemory;
use mapf_rules::Visit;
use std::alloc::Global;

// The agent's line, with no gap where a visit of it is blocked.
pub(crate) fn told(line: AgentLine, unblocked: bool) -> AgentLine
    ensures { (grid : Chart) (entry : ℕ × Row) → IsOpenLine grid entry line → IsPathOn grid entry.1.plan
        → (IsTrue unblocked ↔ IsUnblocked grid entry.1.plan) → IsLine grid entry result }
{
    if unblocked {
        line
    } else {
        AgentLine { gap: None, ..line }
    }
}

/// The lines that a report has, where the visits are the blocked ones.
pub(crate) fn told_lines(
    alloc: Global,
    lines: &[AgentLine],
    visits: &[Visit],
) -> Result<Vec<AgentLine>, OutOfMemory>
    ensures lines { IfOk result (λ told. (grid : Chart) (rows : List (ℕ × Row))
        → AreBlockedIn grid rows visits.now → AreOpenLines grid rows lines.now → AreLines grid rows told.items) }
    ensures each { IfOk result (λ told. length told.items ≡ length lines.now) }
{
    if visits.is_empty() {
        Ok(Vec::from_slice(alloc, lines)?)
    } else {
        marked(alloc, lines, visits)
    }
}

// The same, agent by agent.
fn marked(
    alloc: Global,
    lines: &[AgentLine],
    visits: &[Visit],
) -> Result<Vec<AgentLine>, OutOfMemory>
    ensures lines { IfOk result (λ told. (grid : Chart) (rows : List (ℕ × Row))
        → AreBlockedIn grid rows visits.now → AreOpenLines grid rows lines.now → AreLines grid rows told.items) }
    ensures each { IfOk result (λ told. length told.items ≡ length lines.now) }
{
    let mut all = Vec::with_capacity(alloc, lines.len())?;
    let mut next = 0;
    for line in lines {
        next = first_from(visits, next, line.agent);
        let unblocked = !is_of(visits, next, line.agent);
        all.push(told(*line, unblocked))?;
    }
    Ok(all)
}
