use crate::reports::Report;
use grid_cells::{Agent, List};
use mapf_rules::{Conflict, Visit};

/// What changed from one report to a later one. What came and went in between is no part of it.
#[derive(PartialEq)]
pub struct Changes {
    /// How many agents the later report has.
    pub agents: usize,
    /// How many conflicts it has.
    pub conflicts: usize,
    /// How many blocked visits it has.
    pub blocked: usize,
    /// The agents that it no longer has, ascending.
    pub gone_agents: List<Agent>,
    /// The conflicts that it no longer has, in their order.
    pub gone_conflicts: List<Conflict>,
    /// The blocked visits that it no longer has, in their order.
    pub gone_visits: List<Visit>,
    /// What it has and the earlier one hasn't, and its totals.
    pub came: Report,
}

impl Drop for Changes {
    fn drop(self) {
        let Changes {
            agents: _,
            conflicts: _,
            blocked: _,
            gone_agents: _gone_agents,
            gone_conflicts: _gone_conflicts,
            gone_visits: _gone_visits,
            came: _came,
        } = self;
    }
}
