//! The word `draw`.
ghost use Rattle.std.specs.Prelude.{◌≡◌, [], Some, Err, IfErr, OnOk, unwrap_or};
ghost use Rattle.std.specs.Option.{option_copied};
ghost use Rattle.single_runs.specs.Draws.{Draws, FailsDraw};
ghost use Rattle.solver_check.specs.Opens.{bytes_of};
ghost use Rattle.mapf_desk.specs.Files.{OfFiles};
ghost use Rattle.mapf_desk.specs.Runs.{FailsOver, HasDrawn, IsUndrawn, LacksTasks};
ghost use Rattle.mapf_desk.specs.Words.{courses_in, courses_of};

use crate::faults::ProgramFault;
use desk_cli::DrawWords;
use desk_io::{Folder, More, Noting, Texts, finish, problem_of, read_from, tell_stage};
use desk_pictures::Frame;
use desk_report::{Sink, Spout};
use grid_cells::Step;
use single_runs::{Courses, run_draw};
use solver_check::{CheckFault, Fault};
use std::alloc::Global;
use std::io;
use std::io::BufWriter;
use std::sync::Wait;
use std::thread::Threads;

/// How many threads make the report.
pub(crate) const WORKERS: u32 = 4;

/// The text that tells where agents go: a solver's paths where these are named, and else a journal.
pub(crate) fn courses_of<'t>(paths: Option<&'static str>, text: Option<&'t [u8]>) -> Courses<'t>
    ensures { result ≡ courses_in paths.entry text.entry }
{
    match text {
        Some(text) if paths.is_some() => Courses::Solver(text),
        journal => Courses::Journal(journal),
    }
}

/// Draws as the words ask for, of the files of a folder, onto standard output. Where it is wanted, its
/// stages are told on standard error.
///
/// # Errors
///
/// What the words lack, a file that can't be read, or why there is no picture.
pub fn draw_files<R: AllocGlobal + Print + Eprint + Threads + Wait, F: Folder>(
    rt: &R,
    folder: &F,
    words: &DrawWords,
    stages: bool,
    more: &mut More,
) -> Result<(), ProgramFault>
    ensures asked { LacksTasks words.now.agents words.now.scen → result ≡ Err (ProgramFault.Desk Fault.AgentsWithoutScen) }
    ensures drawn { OnOk result (OfFiles (F.holds folder.now) (Some words.now.map.now) (option_copied words.now.scen)
        (option_copied words.now.journal) (option_copied words.now.paths) (HasDrawn words.now)) }
    ensures refused { IfErr result (FailsOver (LacksTasks words.now.agents words.now.scen) (F.holds folder.now) (Some words.now.map.now)
        (option_copied words.now.scen) (option_copied words.now.journal) (option_copied words.now.paths) (IsUndrawn words.now)) }
{
    if words.agents.is_some() && words.scen.is_none() {
        return Err(ProgramFault::Desk(Fault::AgentsWithoutScen));
    }
    tell_stage(rt, stages, "reading the files");
    let (journal, paths) = (words.journal, words.paths);
    let named = match read_from(folder, Some(words.map), words.scen, journal, paths, more) {
        Ok(named) => named,
        Err(fault) => return Err(ProgramFault::Desk(fault)),
    };
    tell_stage(rt, stages, "making the report, and drawing");
    let ended = draw_texts(rt, named.texts(), words, more);
    drop(named);
    match ended {
        Ok(()) => Ok(()),
        Err(fault) => Err(ProgramFault::Check(fault)),
    }
}

// Draws the texts onto standard output; in place of a journal there may be a solver's paths.
fn draw_texts<R: AllocGlobal + Print + Threads + Wait>(
    rt: &R,
    texts: Texts<'_>,
    words: &DrawWords,
    more: &mut More,
) -> Result<(), CheckFault>
    ensures drawn { OnOk result (HasDrawn words.now (bytes_of texts.entry.map) (bytes_of texts.entry.scen) (bytes_of texts.entry.journal)) }
    ensures refused { IfErr result (IsUndrawn words.now (bytes_of texts.entry.map) (bytes_of texts.entry.scen) (bytes_of texts.entry.journal)) }
{
    let alloc = rt.alloc();
    let Ok(buffered) = BufWriter::new(alloc, io::writer(rt)) else {
        return Err(CheckFault::OutOfMemory);
    };
    let mut writer = Spout::new(Noting::new(buffered));
    let ended = draw_onto(rt, alloc, texts, words, &mut writer);
    finish(alloc, ended, texts, writer, more)
}

// Writes the picture of the scene of the texts and the words.
fn draw_onto<T: Threads + Wait, W: Sink>(
    rt: &T,
    alloc: Global,
    texts: Texts<'_>,
    words: &DrawWords,
    writer: &mut W,
) -> Result<(), CheckFault>
    ensures drawn { OnOk result (Draws (unwrap_or (bytes_of texts.entry.map) []) (bytes_of texts.entry.scen) words.now.agents words.now.mode
        (courses_of words.now texts.entry.journal) words.now.at (W.held writer.old) (W.held writer.new)) }
    ensures refused { IfErr result (FailsDraw (unwrap_or (bytes_of texts.entry.map) []) (bytes_of texts.entry.scen) words.now.agents words.now.mode
        (courses_of words.now texts.entry.journal)) }
{
    let frame = frame_of(words);
    let problem = problem_of(texts, words.agents, words.mode);
    let courses = courses_of(words.paths, texts.journal);
    run_draw(rt, alloc, problem, courses, &frame, WORKERS, writer)
}

// The time of the picture, the agents in it, and the kinds that its heading goes by.
fn frame_of(words: &DrawWords) -> Frame
    ensures at { result.at ≡ words.now.at }
    ensures shown { result.shown ≡ words.now.shown }
    ensures kinds { result.kinds ≡ words.now.kinds }
{
    Frame {
        at: words.at.map(Step::new),
        shown: words.shown,
        kinds: words.kinds,
    }
}
