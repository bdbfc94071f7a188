//! Parts of a report, each of some of its agents.
ghost use Rattle.std.specs.Prelude.{◌≡◌, ◌++◌, ◌≤◌, [], IfOk, OnOk, length};
ghost use Rattle.plan_table.specs.Route.{tracks_of};
ghost use Rattle.desk_audit.specs.Index.{IsIndexOf};
ghost use Rattle.desk_audit.specs.Parts.{IsPart, AreOnMap};

use crate::entries::entries_of;
use crate::lines::lines_of;
use crate::sightings::Sightings;
use crate::visits::visits_of;
use desk_report::AgentLine;
use grid_cells::{Grid, OutOfMemory};
use mapf_rules::{Conflict, Visit};
use plan_table::{Mode, Plans};
use std::alloc::Global;

/// Entries in any order, visits and lines.
#[derive(Drop)]
pub(crate) struct Part {
    pub conflicts: Vec<Conflict>,
    pub visits: Vec<Visit>,
    pub lines: Vec<AgentLine>,
}

impl Part {
    /// The part of no agents.
    pub(crate) fn new(alloc: Global) -> Part
        ensures conflicts { result.conflicts.items ≡ [] }
        ensures visits { result.visits.items ≡ [] }
        ensures lines { result.lines.items ≡ [] }
    {
        Part {
            conflicts: Vec::new(alloc),
            visits: Vec::new(alloc),
            lines: Vec::new(alloc),
        }
    }

    /// The part of the agents at ranks from one on and before another.
    pub(crate) fn of(
        alloc: Global,
        grid: &Grid,
        mode: Mode,
        plans: &Plans,
        index: &[Sightings],
        from: u32,
        to: u32,
    ) -> Result<Part, OutOfMemory>
        requires order { from ≤ to }
        requires within { to ≤ length plans.now.rows }
        requires on_map { AreOnMap grid.now plans.now.rows }
        requires index { IsIndexOf (tracks_of mode plans.now.rows) index.now }
        ensures { IfOk result (IsPart grid.now mode plans.now.rows from to) }
    {
        let conflicts = entries_of(alloc, plans, mode, index, from, to)?;
        let visits = visits_of(alloc, grid, plans, from, to)?;
        let lines = lines_of(alloc, grid, plans, from, to)?;
        Ok(Part {
            conflicts,
            visits,
            lines,
        })
    }

    /// Adds what the other part has, after what this one has.
    pub(crate) fn append(&mut self, other: Part) -> Result<(), OutOfMemory>
        ensures conflicts { OnOk result (self.new.conflicts.items ≡ self.old.conflicts.items ++ other.conflicts.items) }
        ensures visits { OnOk result (self.new.visits.items ≡ self.old.visits.items ++ other.visits.items) }
        ensures lines { OnOk result (self.new.lines.items ≡ self.old.lines.items ++ other.lines.items) }
    {
        let Part {
            mut conflicts,
            mut visits,
            mut lines,
        } = other;
        self.conflicts.append(&mut conflicts)?;
        self.visits.append(&mut visits)?;
        self.lines.append(&mut lines)?;
        Ok(())
    }
}
