ghost use Rattle.std.specs.Prelude.{◌≡◌, ◌↔◌, ◌≤◌, Some, IsSome, IfOk, IsTrue};
ghost use Rattle.std.specs.Option.{option_map};
ghost use Rattle.plan_table.specs.Route.{Fleet, position_of};
ghost use Rattle.where_index.specs.Ends.{EndsAt};
ghost use Rattle.where_index.specs.Index.{StandsFor, end_in};
ghost use Rattle.where_index.specs.Asked.{AreStandingAt, AreMovers, Goes, ArePassing, AreOccupants};

use crate::ends::End;
use crate::gathering::{agents_of, passings_of};
use crate::index::WhereIndex;
use crate::moves::Move;
use crate::occupants::Occupants;
use crate::passings::Passing;
use crate::ways::Way;
use grid_cells::{Agent, Cell, List, OutOfMemory, Step};

impl WhereIndex {
    /// The agents whose position at the step is the cell, ascending.
    pub fn standing_at(&self, step: Step, cell: Cell) -> Result<List<Agent>, OutOfMemory>
        ensures { IfOk result (λ agents. (fleet : Fleet) → StandsFor self.now fleet → AreStandingAt fleet step cell agents) }
    {
        let time = step.number();
        let stands = self.traffic.stands.from(cell, time);
        let tails = self.traffic.tails.from(cell, 0);
        agents_of(self.alloc, stands, tails, time)
    }

    /// Who is in the cell at some step from one on. It takes no memory.
    pub fn occupants(&self, cell: Cell, from: Step) -> Occupants<'_>
        ensures { (fleet : Fleet) → StandsFor self.now fleet → AreOccupants fleet cell from result }
    {
        Occupants {
            stands: self.traffic.stands.from(cell, from.number()),
            tails: self.traffic.tails.from(cell, 0),
        }
    }

    /// Those who move out of the cell in the step, by agent.
    pub fn movers(&self, step: Step, cell: Cell) -> &[Move]
        ensures { (fleet : Fleet) → StandsFor self.now fleet → AreMovers fleet step cell result.now }
    {
        self.traffic.movers(cell, step.number())
    }

    /// Whether some agent moves that way in the step.
    pub fn goes(&self, step: Step, way: Way) -> bool
        ensures { (fleet : Fleet) → StandsFor self.now fleet → IsTrue result ↔ Goes fleet step way }
    {
        self.traffic.stands.are_within();
        self.traffic.flows.at(way, step.number()) > 0
    }

    /// Those who are in the cell at the step or later, up to the last index of their paths, by time,
    /// then agent. The cost follows their number.
    pub fn coming_through(&self, cell: Cell, from: Step) -> Result<List<Passing>, OutOfMemory>
        ensures { IfOk result (λ passings. (fleet : Fleet) → StandsFor self.now fleet → ArePassing fleet cell from passings) }
    {
        let time = from.number();
        let stands = self.traffic.stands.from(cell, time);
        let tails = self.traffic.tails.from(cell, time);
        passings_of(self.alloc, stands, tails)
    }

    /// Whether the agent's position at the step is the cell.
    pub fn is_at(&self, agent: Agent, step: Step, cell: Cell) -> bool
        ensures { (fleet : Fleet) → StandsFor self.now fleet → IsTrue result ↔ (position_of fleet agent step ≡ Some cell) }
    {
        let time = step.number();
        if self.traffic.stands.has(cell, time, agent) {
            return true;
        }
        match self.end_of(agent) {
            Some(end) => end.last <= time && self.traffic.tails.has(cell, end.last, agent),
            None => false,
        }
    }

    /// Whether the agent has a position at the step.
    pub fn has_position(&self, agent: Agent, step: Step) -> bool
        ensures { (fleet : Fleet) → StandsFor self.now fleet → IsTrue result ↔ IsSome (position_of fleet agent step) }
    {
        match self.end_of(agent) {
            Some(end) => !end.leaves || step.number() <= end.last,
            None => false,
        }
    }

    /// The last index of the agent's path, and its last cell, if the agent is in it.
    pub fn end(&self, agent: Agent) -> Option<(u32, Cell)>
        ensures { (fleet : Fleet) → StandsFor self.now fleet → EndsAt (fleet agent) result }
    {
        match self.end_of(agent) {
            Some(end) => Some((end.last, end.cell)),
            None => None,
        }
    }

    /// Whether the agent leaves after the last index of its path, if the agent is in it.
    pub fn leaves(&self, agent: Agent) -> Option<bool>
        ensures { (fleet : Fleet) → StandsFor self.now fleet → result ≡ option_map (λ route. route.leaves) (fleet agent) }
    {
        match self.end_of(agent) {
            Some(end) => Some(end.leaves),
            None => None,
        }
    }

    // Where and when the agent's path ends, and whether it leaves then.
    fn end_of(&self, agent: Agent) -> Option<End>
        ensures { result ≡ end_in self.now.ends agent }
    {
        self.ends.get(&agent).copied()
    }
}
