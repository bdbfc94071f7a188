//! What a report has of some agents: their lines and their blocked visits.
ghost use Rattle.std.specs.Prelude.{◌≡◌, ℕ, OnOk, IfOk, Contains, length};
ghost use Rattle.grid_cells.specs.Grid.{Chart};
ghost use Rattle.live_report.specs.Looks.{AreCurrent, HasAgentsOf, HasFormers, IsLook, LooksFurther};
ghost use Rattle.live_report.specs.Prices.{Rows};

use crate::lines::Lines;
use crate::told_lines::told;
use cost_ledger::CostLedger;
use desk_report::AgentLine;
use grid_cells::{Agent, Cell, OutOfMemory};
use mapf_rules::Visit;
use scene_edits::Former;
use std::alloc::Global;

/// The lines and the blocked visits of some agents.
#[derive(Drop)]
pub(crate) struct Look {
    pub lines: Vec<AgentLine>,
    pub visits: Vec<Visit>,
}

/// The lines and the blocked visits of the agents. The cost follows their number and their visits.
pub(crate) fn look_at(
    alloc: Global,
    agents: &[Agent],
    lines: &Lines,
    costs: &CostLedger,
) -> Result<Look, OutOfMemory>
    ensures { IfOk result (λ look. (grid : Chart) (rows : Rows) → AreCurrent grid rows lines.now costs.now → IsLook grid rows agents.now look) }
{
    let mut look = Look {
        lines: Vec::new(alloc),
        visits: Vec::new(alloc),
    };
    for agent in agents {
        look.add(*agent, lines, costs)?;
    }
    Ok(look)
}

impl Look {
    // Adds an agent's line and its visits.
    fn add(&mut self, agent: Agent, lines: &Lines, costs: &CostLedger) -> Result<(), OutOfMemory>
        ensures { OnOk result ((grid : Chart) (rows : Rows) → AreCurrent grid rows lines.now costs.now → LooksFurther grid rows agent self.old self.new) }
    {
        let found = costs.visits_of(agent)?;
        let own = found.items();
        self.visits.extend_from_slice(own)?;
        let Some(line) = lines.line_of(agent) else {
            return Ok(());
        };
        self.lines.push(told(line, own.is_empty()))?;
        Ok(())
    }
}

/// The agents that changes can touch: those whose rows changed, and all of the lines where a cell flips.
pub(crate) fn agents_seen(
    alloc: Global,
    formers: &[Former<'_>],
    cells: &[Cell],
    lines: &Lines,
) -> Result<Vec<Agent>, OutOfMemory>
    ensures formers { IfOk result (λ agents. HasFormers formers.now agents.items) }
    ensures lines { IfOk result (λ agents. (length cells.now ≡ 0 → ⊥) → HasAgentsOf lines.now agents.items) }
{
    let mut agents = Vec::new(alloc);
    for former in formers {
        agents.push(former.agent)?;
    }
    if cells.is_empty() {
        return Ok(agents);
    }
    with_agents_of(agents, lines)
}

// The agents, and those of the lines.
fn with_agents_of(mut agents: Vec<Agent>, lines: &Lines) -> Result<Vec<Agent>, OutOfMemory>
    ensures agents { IfOk result (λ all. (agent : ℕ) → Contains agents.items agent → Contains all.items agent) }
    ensures lines { IfOk result (λ all. HasAgentsOf lines.now all.items) }
{
    for line in lines.items() {
        agents.push(line.agent)?;
    }
    Ok(agents)
}
