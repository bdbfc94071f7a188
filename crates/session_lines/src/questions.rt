//! The lines that version 2 has beyond those of version 1.
ghost use Rattle.std.specs.Prelude.{◌≡◌};
ghost use Rattle.bench_reader.specs.Words.{words_of};
ghost use Rattle.session_lines.specs.Faults.{IsShaped, IsShapedAs};
ghost use Rattle.session_lines.specs.Questions.{question_command_of, report_of, question_of, AsksForAgents, IsRequestIn};

use crate::agents::agents_of;
use crate::inquiries::Inquiry;
use crate::requests::{LineFault, Request, alone, read_line};
use crate::shapes::{only_agent, only_cell, only_version, time_and_cell, version_and_seconds};
use crate::values::is_word;
use crate::versions::LinesVersion;
use bench_reader::next_word;
use std::alloc::Global;

/// The questions of version 2, by the first words of their lines.
#[derive(Clone, Copy)]
pub enum QuestionCommand {
    Report,
    Changes,
    Try,
    Plan,
    Cell,
    At,
    Wait,
}

// The question that a line with that first word asks.
fn question_command_of(word: &[u8]) -> Option<QuestionCommand>
    ensures { result ≡ question_command_of word.now }
{
    if is_word(word, b"report") {
        Some(QuestionCommand::Report)
    } else if is_word(word, b"changes") {
        Some(QuestionCommand::Changes)
    } else if is_word(word, b"try") {
        Some(QuestionCommand::Try)
    } else if is_word(word, b"plan") {
        Some(QuestionCommand::Plan)
    } else if is_word(word, b"cell") {
        Some(QuestionCommand::Cell)
    } else if is_word(word, b"at") {
        Some(QuestionCommand::At)
    } else if is_word(word, b"wait") {
        Some(QuestionCommand::Wait)
    } else {
        None
    }
}

/// The request of a session line in that version, without its line feed.
///
/// # Errors
/// `Word` before `Shape`, or want of memory for the cells of a `path` or a `tail`, or for the agents
/// of a `report`.
pub fn read_line_in(alloc: Global, version: LinesVersion, line: &[u8]) -> Result<Request, LineFault>
    ensures { IsRequestIn version line.now result }
{
    match version {
        LinesVersion::One => read_line(alloc, line),
        LinesVersion::Two => read_second(alloc, line),
    }
}

// The request of a line in version 2.
#[tactic(auto, unfolding(crate::specs::Questions::second_request_of, crate::specs::Requests::request_of))]
fn read_second(alloc: Global, line: &[u8]) -> Result<Request, LineFault>
    ensures { IsRequestIn LinesVersion.Two line.now result }
{
    let Some((word, rest)) = next_word(line) else {
        return Ok(Request::Silent);
    };
    match question_command_of(word) {
        Some(command) => question_of(alloc, command, rest),
        None => read_line(alloc, line),
    }
}

// The question of a command and the line behind its word.
fn question_of(alloc: Global, command: QuestionCommand, line: &[u8]) -> Result<Request, LineFault>
    ensures { IsShapedAs (AsksForAgents command (words_of line.now)) (question_of command (words_of line.now)) result }
{
    match command {
        QuestionCommand::Report => report_of(alloc, line),
        QuestionCommand::Changes => only_version(line)
            .map(|version| Request::Ask(Inquiry::Changes(version)))
            .ok_or(LineFault::Shape),
        QuestionCommand::Try => alone(Request::Try, line),
        QuestionCommand::Plan => only_agent(line)
            .map(|agent| Request::Ask(Inquiry::Plan(agent)))
            .ok_or(LineFault::Shape),
        QuestionCommand::Cell => only_cell(line)
            .map(|cell| Request::Ask(Inquiry::Cell(cell)))
            .ok_or(LineFault::Shape),
        QuestionCommand::At => time_and_cell(line)
            .map(|(time, cell)| Request::Ask(Inquiry::At(time, cell)))
            .ok_or(LineFault::Shape),
        QuestionCommand::Wait => version_and_seconds(line)
            .map(|(version, seconds)| Request::Ask(Inquiry::Wait(version, seconds)))
            .ok_or(LineFault::Shape),
    }
}

// The report, or that of the agents that the words of a line name.
fn report_of(alloc: Global, line: &[u8]) -> Result<Request, LineFault>
    ensures { IsShapedAs (AsksForAgents QuestionCommand.Report (words_of line.now)) (report_of (words_of line.now)) result }
{
    let Some(_) = next_word(line) else {
        return Ok(Request::Report);
    };
    let agents = agents_of(alloc, line)?;
    Ok(Request::Ask(Inquiry::Report(agents)))
}
