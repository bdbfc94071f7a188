ghost use Rattle.std.specs.Prelude.{◌≡◌, ◌+◌, ◌^◌, ◌<◌, length};
ghost use Rattle.bench_reader.specs.Lines.{lines_of};
ghost use Rattle.bench_reader.specs.Words.{words_of};
ghost use Rattle.path_files.specs.Forms.{is_of_agent, is_of_json, is_of_schedule, is_of_session, is_of_times};
ghost use Rattle.path_files.specs.Forms.{told_by, usual_behind, form_of, is_of_paths, has_paths};
ghost use Rattle.path_files.specs.Lines.{written_from};

use crate::columns::column_in;
use crate::faults::PathsFault;
use crate::lines::{behind, next_written, numbered};
use crate::moves::is_of_moves;
use crate::schedule_lines::{begins_schedule, is_scheduled, is_statistics};
use bench_reader::next_word;
use session_lines::is_word;

/// How a file of paths is written.
#[derive(Clone, Copy, PartialEq, Eq)]
pub enum Form {
    /// A line for each time, with the cells of all agents, as LaCAM and PIBT write it.
    ByTime,
    /// A line for each agent, with the cells of all times, as CBS, EECBS, PBS and MAPF-LNS2 write it.
    ByAgent,
    /// A line `path AGENT CELL..` for each agent, as the desk's sessions have them.
    BySession,
    /// A row of moves for each agent, `u d l r w`, as MAPF Tracker has them, or a CSV file with a column
    /// of such rows: up is the row before.
    ByMoves,
    /// The same, where up is the row behind.
    ByFlippedMoves,
    /// An object of JSON, as the League of Robot Runners and PlanViz write it where robots don't turn.
    ByJson,
    /// Each agent's places at all times, as libMultiRobotPlanning writes them in YAML.
    BySchedule,
}

// Whether the line is an agent's.
fn is_of_agent(line: &[u8]) -> bool
    ensures { result ≡ is_of_agent line.now }
{
    behind(b"Agent ", line).is_some()
}

// Whether the first word of the line is `path`.
fn is_of_session(line: &[u8]) -> bool
    ensures { result ≡ is_of_session (words_of line.now) }
{
    match next_word(line) {
        Some((word, _)) => is_word(word, b"path"),
        None => false,
    }
}

// Whether the line is `solution=`, or begins with a number and a colon.
fn is_of_times(line: &[u8]) -> bool
    ensures { result ≡ is_of_times line.now }
{
    is_word(line, b"solution=") || numbered(line).is_some()
}

// Whether the line begins a schedule, or the statistics before it.
fn is_of_schedule(line: &[u8]) -> bool
    ensures { result ≡ is_of_schedule line.now }
{
    begins_schedule(line) || is_statistics(line)
}

/// The form that the line tells.
pub(crate) fn told_by(line: &[u8]) -> Option<Form>
    ensures { result ≡ told_by line.now }
{
    if is_of_agent(line) {
        Some(Form::ByAgent)
    } else if is_of_session(line) {
        Some(Form::BySession)
    } else if is_of_times(line) {
        Some(Form::ByTime)
    } else if is_of_schedule(line) {
        Some(Form::BySchedule)
    } else if is_of_moves(line) || column_in(line).is_some() {
        Some(Form::ByMoves)
    } else {
        None
    }
}

// The form where no line tells one, behind that line.
fn usual_behind(usual: Result<Form, PathsFault>, line: &[u8]) -> Result<Form, PathsFault>
    ensures { result ≡ usual_behind usual line.now }
{
    if line.contains(&b'=') {
        Ok(Form::ByTime)
    } else {
        usual
    }
}

// Whether the line begins an object of JSON.
fn is_of_json(line: &[u8]) -> bool
    ensures { result ≡ is_of_json line.now }
{
    behind(b"{", line).is_some()
}

/// The form that the first line tells which tells one, or else a line `key=value`.
pub(crate) fn form_of(text: &[u8]) -> Result<Form, PathsFault>
    ensures { result ≡ form_of (written_from 1 (lines_of text.now)) }
{
    let Some((first, begun, _)) = next_written(text, 1) else {
        return Err(PathsFault::NoPaths);
    };
    if is_of_json(begun) {
        return Ok(Form::ByJson);
    }
    let mut usual = Err(PathsFault::NoForm { line: first });
    let mut rest = text;
    let mut number = 1;
    while let Some((line, bytes, below)) = next_written(rest, number) {
        if let Some(form) = told_by(bytes) {
            return Ok(form);
        }
        usual = usual_behind(usual, bytes);
        rest = below;
        number = line + 1;
    }
    usual
}

/// Whether the line may be one of the paths in that form.
pub(crate) fn is_of_paths(form: Form, line: &[u8]) -> bool
    ensures { result ≡ is_of_paths form line.now }
{
    match form {
        Form::ByTime => match line {
            [first, ..] => first.is_ascii_digit(),
            [] => false,
        },
        Form::ByAgent => is_of_agent(line),
        Form::BySession | Form::ByMoves | Form::ByFlippedMoves => true,
        Form::ByJson => true,
        Form::BySchedule => is_scheduled(line),
    }
}

/// Whether a line of a text, where its lines count from `first`, may be one of the paths in that form.
pub(crate) fn has_paths(form: Form, text: &[u8], first: usize) -> bool
    requires { first + length text.now < 2 ^ 64 }
    ensures { result ≡ has_paths form (written_from first (lines_of text.now)) }
{
    let mut rest = text;
    let mut number = first;
    while let Some((line, bytes, below)) = next_written(rest, number) {
        if is_of_paths(form, bytes) {
            return true;
        }
        rest = below;
        number = line + 1;
    }
    false
}
