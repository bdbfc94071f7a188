ghost use Rattle.std.specs.Prelude.{◌≡◌, ◌+◌, ◌^◌, ◌<◌, ◌≤◌, ◌↔◌, IsTrue, length, Some, IfOk};
ghost use Rattle.mapf_rules.specs.Costs.{IsSettleTime, IsFinished, IsCost, AreCosts, IsSumOf, IsGreatestOf, IsSumOfCosts, IsMakespan};

use grid_cells::{MOST_AGENT, OutOfMemory, Step};
use plan_table::{MOST_LAST_INDEX, Plan, Plans, Row};
use std::alloc::Global;

/// The settle time in steps: the least time from which the plan's agent rests.
#[tactic(auto, using(crate::proofs::Settling::settles))]
pub fn settle_time(plan: &Plan) -> u32
    ensures is { IsSettleTime plan.now result }
    ensures bound { result ≤ MOST_LAST_INDEX }
{
    plan.last()
}

/// Whether the cell in which the agent comes to rest is its goal.
pub fn is_finished(row: &Row) -> bool
    ensures { IsTrue result ↔ IsFinished row.now }
{
    row.plan.at(Step::new(settle_time(&row.plan))) == row.goal
}

// The agent's settle time, if it is finished.
fn cost(row: &Row) -> Option<u32>
    ensures { IsCost row.now result }
{
    let time = settle_time(&row.plan);
    if is_finished(row) { Some(time) } else { None }
}

/// The costs of the agents, in their order.
pub fn costs(alloc: Global, plans: &Plans) -> Result<Vec<Option<u32>>, OutOfMemory>
    ensures { IfOk result (λ costs. AreCosts plans.now.rows costs.items) }
{
    let mut costs = Vec::new(alloc);
    for rank in 0..plans.count() {
        let entry = plans.entry_at(rank);
        costs.push(cost(entry.1))?;
    }
    Ok(costs)
}

/// The sum of the numbers, if each is given.
pub fn sum_of(given: &[Option<u32>]) -> Option<u64>
    requires { length given.now ≤ MOST_AGENT + 1 }
    ensures { IsSumOf given.now result }
{
    let mut total = 0;
    for each in given {
        match each {
            Some(number) => total += wide(*number),
            None => return None,
        }
    }
    Some(total)
}

// The number in a wider type.
fn wide(number: u32) -> u64
    ensures is { result ≡ number }
    ensures bound { result < 2 ^ 32 }
{
    u64::from(number)
}

/// The greatest of the numbers, if each is given.
pub fn greatest_of(given: &[Option<u32>]) -> Option<u32>
    ensures { IsGreatestOf given.now result }
{
    let mut most = 0;
    for each in given {
        match each {
            Some(number) => most = most.max(*number),
            None => return None,
        }
    }
    Some(most)
}

/// The sum of the costs, if every agent is finished.
pub fn sum_of_costs(alloc: Global, plans: &Plans) -> Result<Option<u64>, OutOfMemory>
    ensures { IfOk result (IsSumOfCosts plans.now.rows) }
{
    let _count = plans.count();
    let costs = costs(alloc, plans)?;
    Ok(sum_of(&costs))
}

/// The greatest of the costs, if every agent is finished.
pub fn makespan(alloc: Global, plans: &Plans) -> Result<Option<u32>, OutOfMemory>
    ensures { IfOk result (IsMakespan plans.now.rows) }
{
    let costs = costs(alloc, plans)?;
    Ok(greatest_of(&costs))
}
