ghost use Rattle.std.specs.Prelude.{◌↔◌, IsTrue};
ghost use Rattle.desk_report.specs.Solves.{Solves};

use change_history::Item;
use grid_cells::{Agent, List, OutOfMemory};
use mapf_rules::{Conflict, Kinds, Visit};

/// What is said of one agent: its settle time in steps, whether it is finished, its lower bound in
/// steps, and its gap, the steps that its settle time has above the bound. Lines compare by agent, then
/// by their other fields in turn.
#[derive(Clone, Copy, PartialEq, Eq, PartialOrd, Ord)]
pub struct AgentLine {
    pub agent: Agent,
    pub settle: u32,
    pub finished: bool,
    pub bound: Option<u32>,
    pub gap: Option<u32>,
}

impl Item for AgentLine {
    fn copy(&self) -> Result<AgentLine, OutOfMemory> {
        Ok(*self)
    }

    fn told_apart() {}
}

/// What is said of a map and a fleet's plans. The totals are given only where every agent has what
/// they are made of.
#[derive(PartialEq)]
pub struct Report {
    pub conflicts: List<Conflict>,
    pub visits: List<Visit>,
    pub lines: List<AgentLine>,
    pub sum: Option<u64>,
    pub makespan: Option<u32>,
    pub bounds: Option<u64>,
    pub total_gap: Option<u64>,
}

impl Drop for Report {
    fn drop(self) {
        let Report {
            conflicts: _conflicts,
            visits: _visits,
            lines: _lines,
            sum: _,
            makespan: _,
            bounds: _,
            total_gap: _,
        } = self;
    }
}

impl Report {
    /// Whether every agent is finished, no visit is blocked, and no conflict is of a named kind.
    pub fn solves(&self, kinds: Kinds) -> bool
        ensures { IsTrue result ↔ Solves self.now kinds }
    {
        let finished = self.lines.items().iter().all(|line| line.finished);
        let named = self
            .conflicts
            .items()
            .iter()
            .any(|entry| kinds.names(entry.kind()));
        finished && self.visits.items().is_empty() && !named
    }
}
