//! What more is known of a run's fault, by the texts that it is about.
ghost use Rattle.std.specs.Prelude.{◌≡◌, ◌≤◌, [], string_len, unwrap_or};
ghost use Rattle.desk_io.specs.FaultyLines.{line_in_map, line_in_paths, line_in_scen};
ghost use Rattle.solver_check.specs.Opens.{bytes_of};

use crate::expectations::expected;
use crate::faulty_paths::{cells_of, ends_of};
use bench_reader::{MapFault, ScenFault};
use desk_commits::{Refusal, ReplayFault};
use desk_report::Spout;
use journal_text::{JournalFault, entry_text};
use path_files::{Form, PathsFault};
use plan_table::Mode;
use session_protocol::put_refusal;
use solver_check::{CheckFault, Problem, RunFault, letter_of};
use std::alloc::{AllocError, Global};

/// The most letters that are shown of a text.
const MOST_SHOWN: usize = 400;

/// The texts of a run, where they were read from files.
#[derive(Clone, Copy)]
pub struct Texts<'t> {
    pub map: Option<&'t [u8]>,
    pub scen: Option<&'t [u8]>,
    /// A journal, or a solver's paths.
    pub journal: Option<&'t [u8]>,
    /// How the paths are written; without it, their first line tells it.
    pub form: Option<Form>,
}

/// The text, or an empty one where there is none.
pub fn bytes_in(text: Option<&[u8]>) -> &[u8]
    ensures { result.now ≡ unwrap_or (bytes_of text.entry) [] }
{
    match text {
        Some(bytes) => bytes,
        None => b"",
    }
}

/// The problem of the texts, for so many agents in that mode.
pub fn problem_of(texts: Texts<'_>, agents: Option<u32>, mode: Mode) -> Problem<'_>
    ensures map { result.map.now ≡ unwrap_or (bytes_of texts.entry.map) [] }
    ensures scen { bytes_of result.scen ≡ bytes_of texts.entry.scen }
    ensures agents { result.agents ≡ agents }
    ensures mode { result.mode ≡ mode }
{
    Problem {
        map: bytes_in(texts.map),
        scen: texts.scen,
        agents,
        mode,
    }
}

/// A fault of a run of which more may be known, by the texts that it is about.
pub trait Detailed {
    /// What more is known: the line that the fault names, the entry that was refused and why, or the
    /// cells of a path.
    fn more(&self, alloc: Global, texts: Texts<'_>) -> Option<String>;
}

impl Detailed for RunFault {
    fn more(&self, alloc: Global, texts: Texts<'_>) -> Option<String> {
        match *self {
            RunFault::Map(why) => line_of(alloc, texts.map, map_line(why)),
            RunFault::Scen(why) => line_of(alloc, texts.scen, scen_line(why)),
            RunFault::Journal(JournalFault::BadLine { line }) => {
                line_of(alloc, texts.journal, Some(line))
            }
            RunFault::Replay(ReplayFault::ModeDiffers) => line_of(alloc, texts.journal, Some(2)),
            RunFault::Replay(ReplayFault::Refused { entry, why }) => {
                entry_of(alloc, texts.journal, entry, why)
            }
            _ => None,
        }
    }
}

impl Detailed for CheckFault {
    fn more(&self, alloc: Global, texts: Texts<'_>) -> Option<String> {
        match self {
            CheckFault::Run(fault) => fault.more(alloc, texts),
            CheckFault::Paths(why) => line_of_paths(alloc, texts.journal, *why),
            CheckFault::Agent { agent, .. } => ends_of(alloc, texts, *agent),
            CheckFault::Path { agent, time, why } => cells_of(alloc, texts, *agent, *time, *why),
            _ => None,
        }
    }
}

// The line that a fault of a file of paths is about, counted from 1.
fn paths_line(why: PathsFault) -> Option<usize>
    ensures { result ≡ line_in_paths why }
{
    match why {
        PathsFault::NoForm { line }
        | PathsFault::BadHeader { line }
        | PathsFault::RepeatedList { line }
        | PathsFault::BadTime { line }
        | PathsFault::BadAgent { line }
        | PathsFault::BadPath { line }
        | PathsFault::BadCell { line, .. }
        | PathsFault::BadMove { line, .. }
        | PathsFault::BadJson { line, .. }
        | PathsFault::NoCells { line }
        | PathsFault::CellCount { line }
        | PathsFault::BadPlace { line, .. }
        | PathsFault::TooManyAgents { line } => Some(line),
        _ => None,
    }
}

// The line that a fault of a file of paths is about, and what should stand there.
fn line_of_paths(alloc: Global, text: Option<&[u8]>, why: PathsFault) -> Option<String> {
    let mut shown = line_of(alloc, text, paths_line(why))?;
    let expected = expected(why);
    match write!(shown, " (expected {expected})") {
        Ok(()) => Some(shown),
        Err(_) => None,
    }
}

// The line that a map's fault is about, counted from 1.
fn map_line(why: MapFault) -> Option<usize>
    ensures { result ≡ line_in_map why }
{
    match why {
        MapFault::NotOctile => Some(1),
        MapFault::BadHeader { line } | MapFault::ExtraLine { line } => Some(line),
        MapFault::ShortRow { row } | MapFault::LongRow { row } | MapFault::BadLetter { row, .. } =>
            { Some(row.saturating_add(5)) }
        _ => None,
    }
}

// The line that a scenario's fault is about, counted from 1.
fn scen_line(why: ScenFault) -> Option<usize>
    ensures { result ≡ line_in_scen why }
{
    match why {
        ScenFault::BadVersion => Some(1),
        ScenFault::FieldCount { line }
        | ScenFault::BadNumber { line, .. }
        | ScenFault::SizeMismatch { line }
        | ScenFault::OutOfMap { line, .. } => Some(line),
        ScenFault::OutOfMemory => None,
    }
}

// The line of that number, as it is shown.
fn line_of(alloc: Global, text: Option<&[u8]>, number: Option<usize>) -> Option<String> {
    let (text, number) = (text?, number?);
    let mut line: usize = 1;
    let mut shown = format!(in alloc; "line {number}: ").ok()?;
    for byte in text {
        if *byte == b'\n' {
            line = line.saturating_add(1);
        } else if line == number {
            put_shown(&mut shown, *byte).ok()?;
        }
    }
    if line >= number { Some(shown) } else { None }
}

// An entry of a journal, counted from 1, and why it was refused, in the words of a session.
fn entry_of(alloc: Global, text: Option<&[u8]>, number: usize, why: Refusal) -> Option<String> {
    let lines = entry_text(alloc, text?, number)?;
    let shown = refused_entry(alloc, lines.as_slice(), why);
    drop(lines);
    shown
}

// Why the entry of those lines was refused, and the lines, each with a semicolon behind it.
fn refused_entry(alloc: Global, lines: &[u8], why: Refusal) -> Option<String> {
    let mut words = Spout::new(Vec::new(alloc));
    put_refusal(&mut words, why).ok()?;
    let words = words.into_inner();
    let mut shown = String::new(alloc);
    for byte in &words {
        put_shown(&mut shown, *byte).ok()?;
    }
    shown.push_str(": ").ok()?;
    for byte in lines {
        put_shown(&mut shown, if *byte == b'\n' { b';' } else { *byte }).ok()?;
    }
    Some(shown)
}

// One more byte of what is shown, if there is room.
fn put_shown(shown: &mut String, byte: u8) -> Result<(), AllocError>
    ensures { string_len shown.old ≤ MOST_SHOWN → string_len shown.new ≤ MOST_SHOWN }
{
    if shown.len() < MOST_SHOWN {
        shown.push(letter_of(byte))?;
    }
    Ok(())
}
