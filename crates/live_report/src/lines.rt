ghost use Rattle.std.specs.Prelude.{◌≡◌, ◌<◌, ◌≤◌, ℕ, List, Some, None, IfOk, IfErr, OnOk, length};
ghost use Rattle.grid_cells.specs.Grid.{Chart};
ghost use Rattle.goal_fields.specs.Held.{HasGoal, StandFor};
ghost use Rattle.plan_table.specs.Plans.{IsByAgent, IsAt, IsGapFor};
ghost use Rattle.plan_table.specs.declared.plans.Row.{Row};
ghost use Rattle.live_report.specs.Lines.{IsOpenLine, AreOpenLines, AreLinesOf, GoWith};
ghost use Rattle.live_report.specs.Looks.{IsOpenLineAt};
ghost use Rattle.live_report.specs.Prices.{Rows, with_row_in};
ghost use Rattle.live_report.specs.Rows.{HaveFields};

use crate::bounds::bound;
use desk_report::AgentLine;
use goal_fields::Fields;
use grid_cells::{Agent, OutOfMemory};
use mapf_rules::{is_finished, settle_time};
use plan_table::{Plans, Row};
use std::alloc::Global;
use std::marker::Model;

/// What is said of each agent of a fleet, in their order, as if no visit were blocked.
#[derive(Drop)]
pub struct Lines {
    lines: Vec<AgentLine>,
}

impl Model for Lines {
    ghost use Rattle.std.specs.Prelude.{List};
    ghost use Rattle.desk_report.specs.declared.reports.AgentLine.{AgentLine};

    ghost Value = { List AgentLine };

    ghost view = { λ l. l.lines.items };
}

impl Lines {
    /// The lines of the table's agents, made anew.
    pub fn of(alloc: Global, plans: &Plans, fields: &Fields) -> Result<Lines, OutOfMemory>
        requires { HaveFields plans.now.rows fields.now.fields }
        ensures { IfOk result (λ lines. (grid : Chart) → StandFor grid fields.now.fields
            → AreOpenLines grid plans.now.rows lines) }
    {
        let mut lines = Vec::with_capacity(alloc, plans.count() as usize)?;
        for rank in 0..plans.count() {
            let (agent, row) = plans.entry_at(rank);
            lines.push(line(agent, row, fields))?;
        }
        Ok(Lines { lines })
    }

    /// The lines, in the order of the agents.
    pub fn items(&self) -> &[AgentLine]
        ensures { result.now ≡ self.now }
    {
        &self.lines
    }

    /// The agent's line, if it has one.
    pub(crate) fn line_of(&self, agent: Agent) -> Option<AgentLine>
        ensures { (grid : Chart) (rows : Rows) → AreLinesOf grid rows self.now → IsOpenLineAt grid rows agent result }
    {
        match self.search(agent) {
            Ok(at) => Some(self.lines[at]),
            Err(_) => None,
        }
    }

    /// Gives an agent its line, in the place of the one that it had.
    pub fn put(&mut self, line: AgentLine) -> Result<(), OutOfMemory>
        ensures { OnOk result ((grid : Chart) (rows : Rows) (row : Row) → AreLinesOf grid rows self.old
            → IsOpenLine grid (line.agent, row) line → AreLinesOf grid (with_row_in rows line.agent (Some row)) self.new) }
    {
        match self.search(line.agent) {
            Ok(at) => {
                self.lines[at] = line;
                Ok(())
            }
            Err(at) => {
                self.lines.insert(at, line)?;
                Ok(())
            }
        }
    }

    /// Takes the agent's line out, if it has one.
    pub fn take(&mut self, agent: Agent)
        ensures { (grid : Chart) (rows : Rows) → AreLinesOf grid rows self.old → AreLinesOf grid (with_row_in rows agent None) self.new }
    {
        if let Ok(at) = self.search(agent) {
            self.lines.remove(at);
        }
    }

    // Where the agent's line is, or where it would go.
    fn search(&self, agent: Agent) -> Result<usize, usize>
        ensures within { IfOk result (λ at. at < length self.now) }
        ensures room { IfErr result (λ at. at ≤ length self.now) }
        ensures found { IfOk result (λ at. (table : List (ℕ × Row)) → IsByAgent table → GoWith table self.now → IsAt table agent at) }
        ensures absent { IfErr result (λ at. (table : List (ℕ × Row)) → IsByAgent table → GoWith table self.now → IsGapFor table agent at) }
    {
        self.lines.binary_search_by_key(&agent, |line| line.agent)
    }
}

/// What is said of the agent with that row, as if no visit of it were blocked.
pub(crate) fn line(agent: Agent, row: &Row, fields: &Fields) -> AgentLine
    requires { HasGoal fields.now.fields row.now.goal }
    ensures line { (grid : Chart) → StandFor grid fields.now.fields → IsOpenLine grid (agent, row.now) result }
    ensures agent { result.agent ≡ agent }
{
    let settle = settle_time(&row.plan);
    let finished = is_finished(row);
    let bound = bound(fields, row);
    AgentLine {
        agent,
        settle,
        finished,
        bound,
        gap: finished.then_some(settle.saturating_sub(bound.unwrap_or(0))),
    }
}
