//! The visits of one agent.
ghost use Rattle.std.specs.Prelude.{◌≡◌, ◌↔◌, IfOk, Contains};
ghost use Rattle.grid_cells.specs.Cell.{point};
ghost use Rattle.cost_ledger.specs.Agents.{front_of};
ghost use Rattle.mapf_rules.specs.declared.visits.Visit.{Visit};

use grid_cells::{Agent, Cell, List, OutOfMemory, Step};
use mapf_rules::Visit;
use std::alloc::Global;
use std::collections::BTreeSet;
use std::collections::btree_set::Range;

/// The visits of the agent, in their order. The cost follows their number.
pub(crate) fn of_agent(
    alloc: Global,
    blocked: &BTreeSet<Visit>,
    agent: Agent,
) -> Result<List<Visit>, OutOfMemory>
    ensures { IfOk result (λ visits. (visit : Visit) → Contains visits visit ↔ (Contains blocked.now.keys visit × (visit.agent ≡ agent))) }
{
    let found = front(alloc, blocked.range(least_of(agent)..), agent)?;
    Ok(List::new(found))
}

// The visits of the agent before the first of another.
fn front(alloc: Global, visits: Range<'_, Visit>, agent: Agent) -> Result<Vec<Visit>, OutOfMemory>
    ensures { IfOk result (λ found. found.items ≡ front_of agent visits.entry) }
{
    let mut found = Vec::new(alloc);
    for visit in visits {
        if visit.agent != agent {
            return Ok(found);
        }
        found.push(*visit)?;
    }
    Ok(found)
}

// The visit of the agent that comes before all its others.
fn least_of(agent: Agent) -> Visit
    ensures { result ≡ record { agent = agent; time = 0; cell = point 0 0 } }
{
    let Some(cell) = Cell::new(0, 0) else {
        unreachable!()
    };
    Visit {
        agent,
        time: Step::new(0),
        cell,
    }
}
