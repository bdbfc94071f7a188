ghost use Rattle.std.specs.Prelude.{◌≡◌, Some, None, OnOk, slice_index};
ghost use Rattle.where_index.specs.Flows.{flow, HasFlows, ChangesFlows, ChangesCount};

use crate::tallies::Tally;
use crate::trails::Hop;
use crate::ways::Way;
use grid_cells::{Agent, OutOfMemory};
use std::alloc::Global;

/// How many agents move each way in each step.
#[derive(Drop)]
pub(crate) struct Flows {
    pub up: Tally,
    pub left: Tally,
    pub right: Tally,
    pub down: Tally,
}

impl Flows {
    /// Nobody moves.
    pub(crate) fn new(alloc: Global) -> Flows
        ensures { HasFlows result (λ _ _. None) }
    {
        Flows {
            up: Tally::new(alloc),
            left: Tally::new(alloc),
            right: Tally::new(alloc),
            down: Tally::new(alloc),
        }
    }

    /// How many agents move that way in the step.
    pub(crate) fn at(&self, way: Way, time: u32) -> u32
        ensures { result ≡ slice_index (flow self.now way) time }
    {
        match way {
            Way::Up => self.up.at(time),
            Way::Left => self.left.at(time),
            Way::Right => self.right.at(time),
            Way::Down => self.down.at(time),
        }
    }

    /// Adds the agent's move in that step, where it has none.
    pub(crate) fn add(&mut self, agent: Agent, time: u32, hop: &Hop) -> Result<(), OutOfMemory>
        ensures { OnOk result (ChangesFlows self.old self.new agent time None (Some hop.now)) }
    {
        add_to(&mut self.up, Way::Up, agent, time, hop)?;
        add_to(&mut self.left, Way::Left, agent, time, hop)?;
        add_to(&mut self.right, Way::Right, agent, time, hop)?;
        add_to(&mut self.down, Way::Down, agent, time, hop)
    }

    /// Takes the agent's move in that step out.
    pub(crate) fn lose(&mut self, agent: Agent, time: u32, hop: &Hop)
        ensures { ChangesFlows self.old self.new agent time (Some hop.now) None }
    {
        lose_from(&mut self.up, Way::Up, agent, time, hop);
        lose_from(&mut self.left, Way::Left, agent, time, hop);
        lose_from(&mut self.right, Way::Right, agent, time, hop);
        lose_from(&mut self.down, Way::Down, agent, time, hop);
    }
}

// Counts the agent's move in that step, if it goes that way.
fn add_to(
    tally: &mut Tally,
    way: Way,
    agent: Agent,
    time: u32,
    hop: &Hop,
) -> Result<(), OutOfMemory>
    ensures { OnOk result (ChangesCount tally.old tally.new way agent time None (Some hop.now)) }
{
    let _number = agent.number();
    if way.leads(hop.from, hop.to) {
        tally.add(time)?;
    }
    Ok(())
}

// Counts the agent's move in that step no more, if it goes that way.
fn lose_from(tally: &mut Tally, way: Way, agent: Agent, time: u32, hop: &Hop)
    ensures { ChangesCount tally.old tally.new way agent time (Some hop.now) None }
{
    let _number = agent.number();
    if way.leads(hop.from, hop.to) {
        tally.lose(time);
    }
}
