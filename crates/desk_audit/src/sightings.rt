//! The index of an audit: which agents are in which cell at which time. It is made once, from the
//! plans alone, share by share of the times, and lent to all pieces.
ghost use Rattle.std.specs.Prelude.{◌≡◌, ◌<◌, IfOk, OnOk};
ghost use Rattle.plan_table.specs.Route.{tracks_of};
ghost use Rattle.desk_audit.specs.Filing.{IsFiled, Files, HasFiled, KeepsFiled};
ghost use Rattle.desk_audit.specs.Index.{IsShareOf, HasRests, AllRestFrom, AddsPath, AddsPlaces, HasPaths};

use crate::shares::number_at;
use crate::tables::{Pass, Table};
use grid_cells::{Agent, Cell, OutOfMemory, Step};
use plan_table::{Mode, Plan, Plans};
use std::alloc::Global;

/// A share of the times: those that leave that number when they are divided by so many.
#[derive(Clone, Copy)]
pub(crate) struct Share {
    pub many: u32,
    pub number: u32,
}

/// Where agents are at the times of a share: while they follow their paths, by cell and time and
/// again by cell alone, and where they rest for ever, by cell.
#[derive(Drop)]
pub(crate) struct Sightings {
    // Each agent in each cell of its path, by cell and time.
    pub moments: Table,
    // Each agent that never leaves in its last cell, by cell, with the last index of its path.
    pub rests: Table,
    // Each agent in each cell of its path in which an agent rests, after the first of all rests has
    // begun, by cell.
    pub passes: Table,
    // A time before which no rest begins.
    pub first_rest: u32,
}

impl Sightings {
    /// The share of the plans' index.
    pub(crate) fn new(
        alloc: Global,
        mode: Mode,
        plans: &Plans,
        share: Share,
    ) -> Result<Sightings, OutOfMemory>
        requires { 0 < share.many }
        ensures { IfOk result (IsShareOf (tracks_of mode plans.now.rows) share) }
    {
        let agents = plans.count() as usize;
        let cells = cells_of(plans) / share.many as usize;
        let mut moments = Table::new(alloc, cells.saturating_mul(4), cells)?;
        let mut rests = Table::new(alloc, agents, agents)?;
        let mut passes = Table::new(alloc, agents, 0)?;
        file_rests(&mut rests, mode, plans)?;
        let first_rest = first_rest(mode, plans);
        file_paths(&mut moments, &mut passes, &rests, plans, first_rest, share)?;
        Ok(Sightings {
            moments,
            rests,
            passes,
            first_rest,
        })
    }
}

// How many cells the paths have.
fn cells_of(plans: &Plans) -> usize {
    let mut cells: usize = 0;
    for rank in 0..plans.count() {
        let entry = plans.entry_at(rank);
        cells = cells.saturating_add(entry.1.plan.cells().len());
    }
    cells
}

// Files each agent that never leaves under its last cell.
fn file_rests(rests: &mut Table, mode: Mode, plans: &Plans) -> Result<(), OutOfMemory>
    requires { IsFiled rests.old }
    ensures filed { OnOk result (IsFiled rests.new) }
    ensures rests { OnOk result (HasRests (tracks_of mode plans.now.rows) rests.new) }
{
    for rank in 0..plans.count() {
        let entry = plans.entry_at(rank);
        let agent = entry.0;
        let time = entry.1.plan.last();
        let cell = entry.1.plan.at(Step::new(time));
        if !entry.1.track(mode).leaves {
            rests.file(cell, 0, Pass { time, agent })?;
        }
    }
    Ok(())
}

// The least last index of an agent that never leaves.
fn first_rest(mode: Mode, plans: &Plans) -> u32
    ensures { AllRestFrom (tracks_of mode plans.now.rows) result }
{
    let mut first = u32::MAX;
    for rank in 0..plans.count() {
        let entry = plans.entry_at(rank);
        let last = entry.1.plan.last();
        if !entry.1.track(mode).leaves && last < first {
            first = last;
        }
    }
    first
}

// Files the agent in a cell in which an agent rests, once the first of all rests has begun.
fn file_pass(
    passes: &mut Table,
    rests: &Table,
    first_rest: u32,
    cell: Cell,
    pass: Pass,
) -> Result<(), OutOfMemory>
    requires passes { IsFiled passes.old }
    requires rests { IsFiled rests.now }
    ensures filed { OnOk result (IsFiled passes.new) }
    ensures keeps { OnOk result (KeepsFiled passes.old passes.new) }
    ensures has { OnOk result (first_rest < pass.time → HasFiled rests.now cell 0 → Files passes.new cell 0 pass) }
{
    if pass.time <= first_rest {
        return Ok(());
    }
    if !rests.has(cell, 0) {
        return Ok(());
    }
    passes.file(cell, 0, pass)
}

// Files the agent in the cell of its path at that time, if the time is of the share.
fn file_place(
    moments: &mut Table,
    passes: &mut Table,
    rests: &Table,
    agent: Agent,
    plan: &Plan,
    first_rest: u32,
    share: Share,
    time: u32,
) -> Result<(), OutOfMemory>
    requires moments { IsFiled moments.old }
    requires passes { IsFiled passes.old }
    requires rests { IsFiled rests.now }
    requires some { 0 < share.many }
    ensures { OnOk result (AddsPlaces moments.old moments.new passes.old passes.new rests.now agent plan.now first_rest share (λ at. at ≡ time)) }
{
    if number_at(time, share.many as usize) != share.number as usize {
        return Ok(());
    }
    let cell = plan.at(Step::new(time));
    moments.file(cell, time, Pass { time, agent })?;
    file_pass(passes, rests, first_rest, cell, Pass { time, agent })
}

// Files the agent in each cell of its path at the times of the share.
fn file_path(
    moments: &mut Table,
    passes: &mut Table,
    rests: &Table,
    agent: Agent,
    plan: &Plan,
    first_rest: u32,
    share: Share,
) -> Result<(), OutOfMemory>
    requires moments { IsFiled moments.old }
    requires passes { IsFiled passes.old }
    requires rests { IsFiled rests.now }
    requires some { 0 < share.many }
    ensures { OnOk result (AddsPath moments.old moments.new passes.old passes.new rests.now agent plan.now first_rest share) }
{
    for time in 0..plan.last() + 1 {
        file_place(moments, passes, rests, agent, plan, first_rest, share, time)?;
    }
    Ok(())
}

// Files each agent in each cell of its path at the times of the share.
fn file_paths(
    moments: &mut Table,
    passes: &mut Table,
    rests: &Table,
    plans: &Plans,
    first_rest: u32,
    share: Share,
) -> Result<(), OutOfMemory>
    requires moments { IsFiled moments.old }
    requires passes { IsFiled passes.old }
    requires rests { IsFiled rests.now }
    requires some { 0 < share.many }
    ensures { OnOk result (HasPaths moments.new passes.new rests.now plans.now.rows first_rest share) }
{
    for rank in 0..plans.count() {
        let entry = plans.entry_at(rank);
        let plan = &entry.1.plan;
        file_path(moments, passes, rests, entry.0, plan, first_rest, share)?;
    }
    Ok(())
}
