ghost use Rattle.std.specs.Prelude.{◌≡◌, ◌↔◌, [], OnOk, IsTrue};
ghost use Rattle.std.specs.BTreeMap.Range.{IsLeBy};
ghost use Rattle.plan_table.specs.Sets.{Gains, Loses};
ghost use Rattle.live_report.specs.Aims.{aim, aim_cmp, IsAimedAt, HasBetween};

use grid_cells::{Agent, Cell, OutOfMemory};
use std::alloc::Global;
use std::collections::BTreeSet;
use std::marker::Model;

/// An agent that aims at a goal. Aims compare by goal, then agent.
#[derive(Clone, Copy, PartialEq, Eq, PartialOrd, Ord)]
pub(crate) struct Aim {
    pub goal: Cell,
    pub agent: Agent,
}

/// A set of aims, in their order.
#[derive(Drop)]
pub(crate) struct Aims {
    aims: BTreeSet<Aim>,
}

impl Model for Aims {
    ghost use Rattle.std.specs.Prelude.{List};
    ghost use Rattle.live_report.specs.declared.aims.Aim.{Aim};
    ghost use Rattle.live_report.specs.Aims.{HaveAgents};

    ghost Value = { List Aim };

    ghost view = { λ a. a.aims.keys };

    ghost invariant = { λ a. HaveAgents a.aims.keys };
}

impl Aims {
    /// No aims.
    pub(crate) fn new(alloc: Global) -> Aims
        ensures { result ≡ [] }
    {
        Aims {
            aims: BTreeSet::new(alloc),
        }
    }

    /// Adds the agent's aim at the goal.
    pub(crate) fn add(&mut self, goal: Cell, agent: Agent) -> Result<(), OutOfMemory>
        ensures { OnOk result (Gains self.old self.new (aim goal agent)) }
    {
        let _number = agent.number();
        self.aims.insert(Aim { goal, agent })?;
        Ok(())
    }

    /// Takes the agent's aim at the goal out, if it is there.
    pub(crate) fn lose(&mut self, goal: Cell, agent: Agent)
        ensures { Loses self.old self.new (aim goal agent) }
    {
        self.aims.remove(&Aim { goal, agent });
    }

    /// Whether some agent aims at the goal.
    pub(crate) fn has_goal(&self, goal: Cell) -> bool
        ensures { IsTrue result ↔ IsAimedAt self.now goal }
    {
        let _aims = &self.aims;
        let least = Aim {
            goal,
            agent: Agent::LEAST,
        };
        let greatest = Aim {
            goal,
            agent: Agent::GREATEST,
        };
        self.has_between(least, greatest)
    }

    // Whether there is an aim from the one to the other.
    fn has_between(&self, low: Aim, high: Aim) -> bool
        requires { IsLeBy aim_cmp low high }
        ensures { IsTrue result ↔ HasBetween self.now low high }
    {
        self.aims.range(low..=high).next().is_some()
    }
}
