//! What calls on numbers answer.
ghost use Rattle.std.specs.Prelude.{◌≡◌};
ghost use Rattle.desk_c.specs.Statuses.{Gives, GivesDistance, status_of, status_of_edit, status_of_refusal};

use desk_commits::{AskFault, Refusal};
use scene_edits::EditFault;

/// The call is done.
pub const DONE: u32 = 0;
/// No desk is open.
pub const CLOSED: u32 = 1;
/// Memory ran out, and nothing was done.
pub const OUT_OF_MEMORY: u32 = 2;
/// No agent, or no cell, has such a number.
pub const NO_SUCH_NUMBER: u32 = 3;
/// The agent isn't live.
pub const UNKNOWN_AGENT: u32 = 4;
/// A cell isn't on the map.
pub const OUT_OF_MAP: u32 = 5;
/// The path has no cell.
pub const EMPTY_PATH: u32 = 6;
/// The path doesn't begin where the agent's plan begins.
pub const NOT_FROM_START: u32 = 7;
/// A cell of the path is no step from the one before.
pub const NOT_A_STEP: u32 = 8;
/// The path is too long.
pub const TOO_LONG: u32 = 9;
/// The journal has as many entries as it may.
pub const JOURNAL_FULL: u32 = 10;
/// No way leads from the cell to the goal.
pub const NO_WAY: u32 = 11;
/// Another refusal of the desk, which a path alone, committed on its version, doesn't have.
pub const REFUSED: u32 = 12;

/// Why a call on numbers isn't answered.
#[derive(Drop)]
pub enum Stop {
    NoNumber,
    OutOfMemory,
    /// The desk refuses the commit.
    Refused(Refusal),
    /// The desk doesn't answer the question.
    NotAsked(AskFault),
}

fn status_of_edit(fault: EditFault) -> u32
    ensures { result ≡ status_of_edit fault }
{
    match fault {
        EditFault::UnknownAgent => UNKNOWN_AGENT,
        EditFault::OutOfMap => OUT_OF_MAP,
        EditFault::EmptyPath => EMPTY_PATH,
        EditFault::NotFromStart => NOT_FROM_START,
        EditFault::NotAStep { at: _ } => NOT_A_STEP,
        EditFault::TooLong => TOO_LONG,
        EditFault::AgentTaken | EditFault::TooManyAgents | EditFault::NoSuchTime => REFUSED,
    }
}

fn status_of_refusal(refusal: Refusal) -> u32
    ensures { result ≡ status_of_refusal refusal }
{
    match refusal {
        Refusal::JournalFull { limit: _ } => JOURNAL_FULL,
        Refusal::OutOfMemory => OUT_OF_MEMORY,
        Refusal::Faulty { index: _, why } => status_of_edit(why),
        Refusal::Ahead { .. } | Refusal::NoEdits | Refusal::Stale { .. } => REFUSED,
    }
}

/// The status that tells why.
pub(crate) fn status_of(why: Stop) -> u32
    ensures { result ≡ status_of why }
{
    match why {
        Stop::NoNumber => NO_SUCH_NUMBER,
        Stop::OutOfMemory => OUT_OF_MEMORY,
        Stop::Refused(refusal) => status_of_refusal(refusal),
        Stop::NotAsked(AskFault::UnknownAgent) => UNKNOWN_AGENT,
        Stop::NotAsked(AskFault::OutOfMap) => OUT_OF_MAP,
        Stop::NotAsked(AskFault::OutOfMemory) => OUT_OF_MEMORY,
    }
}

/// Puts a value where the caller wants it, if there is one, and gives the status.
pub(crate) fn give<T: Copy>(answer: Result<T, Stop>, place: &mut T) -> u32
    ensures { Gives answer result place.old place.new }
{
    match answer {
        Ok(value) => {
            *place = value;
            DONE
        }
        Err(why) => status_of(why),
    }
}

/// The same of a distance, if a way leads there.
pub(crate) fn give_distance(answer: Result<Option<u32>, Stop>, place: &mut u32) -> u32
    ensures { GivesDistance answer result place.old place.new }
{
    match answer {
        Ok(Some(distance)) => {
            *place = distance;
            DONE
        }
        Ok(None) => NO_WAY,
        Err(why) => status_of(why),
    }
}
