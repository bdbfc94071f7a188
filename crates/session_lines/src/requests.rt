ghost use Rattle.std.specs.Prelude.{◌≡◌};
ghost use Rattle.std.specs.Option.{ok_or};
ghost use Rattle.bench_reader.specs.Words.{words_of};
ghost use Rattle.session_lines.specs.Faults.{IsShapedAs};
ghost use Rattle.session_lines.specs.Shapes.{alone};
ghost use Rattle.session_lines.specs.Requests.{thing_watched, shaped, AsksForCells, IsRequest};

use crate::commands::{Command, command_of, is_remark};
use crate::edits::edit_of;
use crate::inquiries::Inquiry;
use crate::kinds::kinds_of;
use crate::shapes::agent_and_cell;
use crate::values::{agent_of, cell_of};
use bench_reader::next_word;
use grid_cells::{Agent, Cell};
use mapf_rules::Kinds;
use scene_edits::{Edit, Thing};
use std::alloc::Global;

/// What a session line asks for.
#[derive(Drop)]
pub enum Request {
    /// A blank line or a remark: nothing, and no answer.
    Silent,
    /// To gather a commit anew.
    Begin,
    /// To watch the thing, for the commit that is gathered.
    Watch(Thing),
    /// The edit, by itself or for the commit that is gathered.
    Edit(Edit),
    /// To commit what is gathered.
    Commit,
    /// To gather no more, and let go what is gathered.
    Cancel,
    /// What committing what is gathered would be answered, and would change.
    Try,
    /// The version.
    Version,
    /// The version and the report.
    Report,
    /// The distance, in steps, from the cell to the agent's goal.
    Distance(Agent, Cell),
    /// Whether the plans solve the problem, by these kinds of conflicts.
    Solves(Kinds),
    /// One of the questions of version 2.
    Ask(Inquiry),
}

/// Why a line is no request.
#[derive(Clone, Copy, Debug, PartialEq, Eq)]
pub enum LineFault {
    /// The first word is none of a session's.
    Word,
    /// Too few or too many words, or a word that doesn't fit its place or range.
    Shape,
    OutOfMemory,
}

/// The request of a session line, without its line feed.
///
/// # Errors
/// `Word` before `Shape`, or want of memory for the cells of a `path` or a `tail`.
#[tactic(auto, unfolding(crate::specs::Requests::request_of))]
pub fn read_line(alloc: Global, line: &[u8]) -> Result<Request, LineFault>
    ensures { IsRequest line.now result }
{
    let Some((word, rest)) = next_word(line) else {
        return Ok(Request::Silent);
    };
    if is_remark(word) {
        return Ok(Request::Silent);
    }
    let Some(command) = command_of(word) else {
        return Err(LineFault::Word);
    };
    request_of(alloc, command, rest)
}

// The request of a command and the line behind its word.
fn request_of(alloc: Global, command: Command, line: &[u8]) -> Result<Request, LineFault>
    ensures { IsShapedAs (AsksForCells command) (shaped command (words_of line.now)) result }
{
    match command {
        Command::Edit(command) => Ok(Request::Edit(edit_of(alloc, command, line)?)),
        Command::Begin => alone(Request::Begin, line),
        Command::Watch => watch_of(line).ok_or(LineFault::Shape),
        Command::Commit => alone(Request::Commit, line),
        Command::Cancel => alone(Request::Cancel, line),
        Command::Version => alone(Request::Version, line),
        Command::Report => alone(Request::Report, line),
        Command::Distance => distance_of(line).ok_or(LineFault::Shape),
        Command::Solves => solves_of(line).ok_or(LineFault::Shape),
    }
}

// The request, where the line has no word.
pub(crate) fn alone(request: Request, line: &[u8]) -> Result<Request, LineFault>
    ensures { result ≡ ok_or (alone request (words_of line.now)) LineFault.Shape }
{
    match next_word(line) {
        Some(_) => Err(LineFault::Shape),
        None => Ok(request),
    }
}

// The thing that the words of a line name.
fn thing_of(line: &[u8]) -> Option<Thing>
    ensures { result ≡ thing_watched (words_of line.now) }
{
    let (kind, rest) = next_word(line)?;
    let Some((name, rest)) = next_word(rest) else {
        return if kind == b"map".as_slice() {
            Some(Thing::Map)
        } else {
            None
        };
    };
    let None = next_word(rest) else {
        return None;
    };
    if kind == b"agent".as_slice() {
        Some(Thing::Agent(agent_of(name)?))
    } else if kind == b"cell".as_slice() {
        Some(Thing::Cell(cell_of(name)?))
    } else {
        None
    }
}

// The watch of a thing.
fn watch_of(line: &[u8]) -> Option<Request>
    ensures { result ≡ shaped Command.Watch (words_of line.now) }
{
    Some(Request::Watch(thing_of(line)?))
}

// The question of a line AGENT X,Y.
fn distance_of(line: &[u8]) -> Option<Request>
    ensures { result ≡ shaped Command.Distance (words_of line.now) }
{
    let (agent, cell) = agent_and_cell(line)?;
    Some(Request::Distance(agent, cell))
}

// The question of a line KIND..
fn solves_of(line: &[u8]) -> Option<Request>
    ensures { result ≡ shaped Command.Solves (words_of line.now) }
{
    Some(Request::Solves(kinds_of(line)?))
}
