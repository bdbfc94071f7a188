ghost use Rattle.std.specs.Prelude.{◌≡◌, ◌↔◌, ℕ, ◌<◌, ◌≤◌, IsTrue, IfOk, Some, length, map, slice_get};
ghost use Rattle.std.specs.List.{slice_index_or};
ghost use Rattle.mapf_rules.specs.declared.visits.Visit.{Visit};
ghost use Rattle.live_report.specs.Fleet.{visit_to};

use grid_cells::{Agent, Cell, OutOfMemory, Step};
use mapf_rules::Visit;
use std::alloc::Global;
use where_index::Passing;

/// The first place, from that one on, whose visit is of the agent or of one after it; the end of
/// the list, if there is none.
pub(crate) fn first_from(visits: &[Visit], from: usize, agent: Agent) -> usize
    requires { from ≤ length visits.now }
    ensures from { from ≤ result }
    ensures within { result ≤ length visits.now }
    ensures before { (k : ℕ) (d : Visit) → from ≤ k → k < result → (slice_index_or visits.now k d).agent < agent }
    ensures there { (d : Visit) → result < length visits.now → agent ≤ (slice_index_or visits.now result d).agent }
{
    for place in from..visits.len() {
        if visits[place].agent.number() >= agent.number() {
            return place;
        }
    }
    visits.len()
}

/// Whether the list has a visit at that place, and it is of that agent.
pub(crate) fn is_of(visits: &[Visit], place: usize, agent: Agent) -> bool
    ensures { IsTrue result ↔ ((visit : Visit) × (slice_get visits.now place ≡ Some visit) × (visit.agent ≡ agent)) }
{
    place < visits.len() && visits[place].agent == agent
}

/// The visits to the cell of those who pass through it.
pub(crate) fn visits_to(
    alloc: Global,
    cell: Cell,
    passings: &[Passing],
) -> Result<Vec<Visit>, OutOfMemory>
    ensures { IfOk result (λ visits. visits.items ≡ map (visit_to cell) passings.now) }
{
    let mut visits = Vec::new(alloc);
    for passing in passings {
        visits.push(Visit {
            agent: passing.agent,
            time: Step::new(passing.time),
            cell,
        })?;
    }
    Ok(visits)
}
