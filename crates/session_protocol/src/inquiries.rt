//! What the questions of version 2 of lines are answered.
ghost use Rattle.std.specs.Prelude.{◌≡◌};
ghost use Rattle.session_protocol.specs.Table.{AsksCounter, Inquires, TellsSince};
ghost use Rattle.desk_commits.specs.Questions.{TellsCut, TellsPlan, TellsOpen, TellsStanding};

use crate::replies::Reply;
use crate::waiting::Waiting;
use desk_core::{Changing, Counter, Cutting, Planning, Probing, Standing};
use grid_cells::{Agent, Cell, List, Step};
use session_lines::Inquiry;

// The report, cut to those agents.
fn cut<C: Counter>(counter: &mut C, agents: List<Agent>) -> Reply
    ensures { AsksCounter C.counting counter.old (λ desk. TellsCut desk agents) Reply.Shown result counter.new }
{
    match counter.ask(&Cutting { agents }) {
        Ok(reading) => Reply::Shown(reading),
        Err(fault) => Reply::NotAsked(fault),
    }
}

// What changed in the report since that version.
fn changes<C: Counter>(counter: &mut C, since: u64) -> Reply
    ensures { TellsSince C.counting counter.old since result counter.new }
{
    match counter.ask(&Changing { version: since }) {
        Ok((now, changes)) => Reply::Changed(now, since, changes),
        Err(fault) => Reply::NotTold(fault),
    }
}

// The agent's goal and its path.
fn plan<C: Counter>(counter: &mut C, agent: Agent) -> Reply
    ensures { AsksCounter C.counting counter.old (λ desk. TellsPlan desk.scene agent) (Reply.Planned agent) result counter.new }
{
    match counter.ask(&Planning { agent }) {
        Ok(row) => Reply::Planned(agent, row),
        Err(fault) => Reply::NotAsked(fault),
    }
}

// Whether the cell is open.
fn probe<C: Counter>(counter: &mut C, cell: Cell) -> Reply
    ensures { AsksCounter C.counting counter.old (λ desk. TellsOpen desk.scene cell) Reply.Open result counter.new }
{
    match counter.ask(&Probing { cell }) {
        Ok(is_so) => Reply::Open(is_so),
        Err(fault) => Reply::NotAsked(fault),
    }
}

// Who is in the cell at that time.
fn standing<C: Counter>(counter: &mut C, time: Step, cell: Cell) -> Reply
    ensures { AsksCounter C.counting counter.old (λ desk. TellsStanding desk.scene time cell) Reply.Standing result counter.new }
{
    match counter.ask(&Standing { time, cell }) {
        Ok(agents) => Reply::Standing(agents),
        Err(fault) => Reply::NotAsked(fault),
    }
}

/// The reply to a question of version 2.
pub(crate) fn inquire<C: Counter, P: Waiting<C>>(
    counter: &mut C,
    inquiry: Inquiry,
    waiting: &P,
) -> Reply
    ensures { Inquires C.counting counter.old inquiry result counter.new }
{
    match inquiry {
        Inquiry::Report(agents) => cut(counter, agents),
        Inquiry::Changes(since) => changes(counter, since),
        Inquiry::Plan(agent) => plan(counter, agent),
        Inquiry::Cell(cell) => probe(counter, cell),
        Inquiry::At(time, cell) => standing(counter, time, cell),
        Inquiry::Wait(seen, seconds) => {
            Reply::Version(waiting.version_above(counter, seen, seconds))
        }
    }
}
