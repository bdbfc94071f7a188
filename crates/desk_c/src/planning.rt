//! What a planner asks a desk on numbers.
ghost use Rattle.std.specs.Prelude.{◌≡◌, ◌∷◌, [], IfOk, IfErr};
ghost use Rattle.desk_c.specs.Planning.{CommitsPath, GivesEntries, MakesCommit, TellsDistance, TellsEntries, TellsSolves, TriesPath};
ghost use Rattle.desk_c.specs.declared.statuses.Stop.TheVariants as stop;

use crate::numbers::{CellNumbers, EntryNumbers, cells_of, copy_front};
use crate::statuses::{DONE, Stop, status_of};
use desk_commits::{Commit, Reading};
use desk_core::{Cutting, Desk, Edit, Trial};
use desk_report::Kinds;
use grid_cells::{Agent, Cell, List, OutOfMemory, Planner};
use std::alloc::Global;

// The commit of the agent's path alone, made on the desk's version.
fn path_commit(alloc: Global, desk: &Desk, agent: u32, path: &[CellNumbers]) -> Result<Commit, Stop>
    ensures { MakesCommit desk.now agent path.now result }
{
    let Some(agent) = Agent::new(agent) else {
        return Err(Stop::NoNumber);
    };
    let cells = match cells_of(alloc, path) {
        Ok(cells) => List::new(cells),
        Err(why) => return Err(why),
    };
    let mut edits = Vec::new(alloc);
    if let Err(_refused) = edits.push(Edit::Path { agent, cells }) {
        return Err(Stop::OutOfMemory);
    }
    let Some(planner) = Planner::new(0) else {
        unreachable!()
    };
    match Commit::new(planner, desk.version(), Vec::new(alloc), edits) {
        Ok(commit) => Ok(commit),
        Err(_) => unreachable!(),
    }
}

/// Commits the path, and answers the new version.
pub(crate) fn commit_path(
    alloc: Global,
    desk: &mut Desk,
    agent: u32,
    path: &[CellNumbers],
) -> Result<u64, Stop>
    ensures { CommitsPath desk.old agent path.now result desk.new }
{
    let commit = match path_commit(alloc, desk, agent, path) {
        Ok(commit) => commit,
        Err(why) => return Err(why),
    };
    match desk.commit(commit) {
        Ok(version) => Ok(version),
        Err((refusal, _back)) => Err(Stop::Refused(refusal)),
    }
}

// The question of that agent alone.
fn cutting(alloc: Global, agent: Agent) -> Result<Cutting, Stop>
    ensures alone { IfOk result (λ question. question.agents ≡ agent ∷ []) }
    ensures memory { IfErr result (λ why. why ≡ stop.OutOfMemory) }
{
    let mut agents = Vec::new(alloc);
    match agents.push(agent) {
        Ok(()) => Ok(Cutting {
            agents: List::new(agents),
        }),
        Err(_) => Err(Stop::OutOfMemory),
    }
}

/// What the report would say of the agent after the commit of the path.
pub(crate) fn try_path(
    alloc: Global,
    desk: &mut Desk,
    agent: u32,
    path: &[CellNumbers],
) -> Result<Reading, Stop>
    ensures told { TriesPath desk.old agent path.now result }
    ensures same { desk.new ≡ desk.old }
{
    let commit = match path_commit(alloc, desk, agent, path) {
        Ok(commit) => commit,
        Err(why) => return Err(why),
    };
    let Some(agent) = Agent::new(agent) else {
        return Err(Stop::NoNumber);
    };
    let question = match cutting(alloc, agent) {
        Ok(question) => question,
        Err(why) => return Err(why),
    };
    match desk.ask(&Trial { commit, question }) {
        Ok((_, Ok(reading))) => Ok(reading),
        Ok((_, Err(fault))) => Err(Stop::NotAsked(fault)),
        Err(refusal) => Err(Stop::Refused(refusal)),
    }
}

/// What the report says of the agent.
pub(crate) fn entries_of(alloc: Global, desk: &mut Desk, agent: u32) -> Result<Reading, Stop>
    ensures told { TellsEntries desk.old agent result }
    ensures same { desk.new ≡ desk.old }
{
    let Some(agent) = Agent::new(agent) else {
        return Err(Stop::NoNumber);
    };
    let question = match cutting(alloc, agent) {
        Ok(question) => question,
        Err(why) => return Err(why),
    };
    match desk.ask(&question) {
        Ok(reading) => Ok(reading),
        Err(fault) => Err(Stop::NotAsked(fault)),
    }
}

/// Whether the plans solve by those kinds.
pub(crate) fn solves(desk: &mut Desk, kinds: Kinds) -> Result<bool, Stop>
    ensures told { TellsSolves desk.old kinds result }
    ensures same { desk.new ≡ desk.old }
{
    match desk.solves(kinds) {
        Ok(answer) => Ok(answer),
        Err(OutOfMemory) => Err(Stop::OutOfMemory),
    }
}

/// The distance of the cell to the agent's goal.
pub(crate) fn distance(desk: &mut Desk, agent: u32, cell: CellNumbers) -> Result<Option<u32>, Stop>
    ensures told { TellsDistance desk.old agent cell result }
    ensures same { desk.new ≡ desk.old }
{
    let Some(agent) = Agent::new(agent) else {
        return Err(Stop::NoNumber);
    };
    let Some(cell) = Cell::new(cell.x, cell.y) else {
        return Err(Stop::NoNumber);
    };
    match desk.distance(agent, cell) {
        Ok(distance) => Ok(distance),
        Err(fault) => Err(Stop::NotAsked(fault)),
    }
}

/// Copies the front of the reading's conflicts that there is room for, and gives the number of all and the status.
pub(crate) fn give_entries(
    answer: Result<Reading, Stop>,
    room: &mut [EntryNumbers],
    count: &mut usize,
) -> u32
    ensures { GivesEntries answer result room.old room.new count.old count.new }
{
    match answer {
        Ok(reading) => {
            copy_front(reading.report.conflicts.items(), room, count);
            DONE
        }
        Err(why) => status_of(why),
    }
}
