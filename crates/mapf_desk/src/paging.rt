//! The word `page`.
ghost use Rattle.std.specs.Prelude.{◌≡◌, [], Some, Err, IfErr, OnOk, unwrap_or};
ghost use Rattle.std.specs.Option.{option_copied};
ghost use Rattle.single_runs.specs.Draws.{FailsDraw};
ghost use Rattle.single_runs.specs.PageRuns.{Pages};
ghost use Rattle.solver_check.specs.Opens.{bytes_of};
ghost use Rattle.mapf_desk.specs.Files.{OfFiles};
ghost use Rattle.mapf_desk.specs.Runs.{FailsOver, HasPaged, IsPageFor, IsUnpaged, LacksTasks};
ghost use Rattle.mapf_desk.specs.Words.{courses_in};

use crate::drawing::{WORKERS, courses_of};
use crate::faults::ProgramFault;
use desk_cli::PageWords;
use desk_io::{Folder, More, Noting, Texts, finish, problem_of, read_from, tell_stage};
use desk_pages::Page;
use desk_report::{Sink, Spout};
use page_parts::{LOOKS, SCRIPT};
use single_runs::run_page;
use solver_check::{CheckFault, Fault};
use std::alloc::Global;
use std::io;
use std::io::BufWriter;
use std::sync::Wait;
use std::thread::Threads;

/// Writes the page that the words ask for, of the files of a folder, onto standard output. Where it is
/// wanted, its stages are told on standard error.
///
/// # Errors
///
/// What the words lack, a file that can't be read, or why there is no page.
pub fn page_files<R: AllocGlobal + Print + Eprint + Threads + Wait, F: Folder>(
    rt: &R,
    folder: &F,
    words: &PageWords,
    stages: bool,
    more: &mut More,
) -> Result<(), ProgramFault>
    ensures asked { LacksTasks words.now.agents words.now.scen → result ≡ Err (ProgramFault.Desk Fault.AgentsWithoutScen) }
    ensures paged { OnOk result (OfFiles (F.holds folder.now) (Some words.now.map.now) (option_copied words.now.scen)
        (option_copied words.now.journal) (option_copied words.now.paths) (HasPaged words.now)) }
    ensures refused { IfErr result (FailsOver (LacksTasks words.now.agents words.now.scen) (F.holds folder.now) (Some words.now.map.now)
        (option_copied words.now.scen) (option_copied words.now.journal) (option_copied words.now.paths) (IsUnpaged words.now)) }
{
    if words.agents.is_some() && words.scen.is_none() {
        return Err(ProgramFault::Desk(Fault::AgentsWithoutScen));
    }
    tell_stage(rt, stages, "reading the files");
    let (journal, paths) = (words.journal, words.paths);
    let named = match read_from(folder, Some(words.map), words.scen, journal, paths, more) {
        Ok(named) => named,
        Err(fault) => return Err(ProgramFault::Desk(fault)),
    };
    tell_stage(rt, stages, "making the report, and the page");
    let ended = page_texts(rt, named.texts(), words, more);
    drop(named);
    match ended {
        Ok(()) => Ok(()),
        Err(fault) => Err(ProgramFault::Check(fault)),
    }
}

// Writes the page of the texts onto standard output; in place of a journal there may be a solver's paths.
fn page_texts<R: AllocGlobal + Print + Threads + Wait>(
    rt: &R,
    texts: Texts<'_>,
    words: &PageWords,
    more: &mut More,
) -> Result<(), CheckFault>
    ensures paged { OnOk result (HasPaged words.now (bytes_of texts.entry.map) (bytes_of texts.entry.scen) (bytes_of texts.entry.journal)) }
    ensures refused { IfErr result (IsUnpaged words.now (bytes_of texts.entry.map) (bytes_of texts.entry.scen) (bytes_of texts.entry.journal)) }
{
    let alloc = rt.alloc();
    let Ok(buffered) = BufWriter::new(alloc, io::writer(rt)) else {
        return Err(CheckFault::OutOfMemory);
    };
    let mut writer = Spout::new(Noting::new(buffered));
    let ended = page_onto(rt, alloc, texts, words, &mut writer);
    finish(alloc, ended, texts, writer, more)
}

// Writes the page of the scene of the texts and the words.
fn page_onto<T: Threads + Wait, W: Sink>(
    rt: &T,
    alloc: Global,
    texts: Texts<'_>,
    words: &PageWords,
    writer: &mut W,
) -> Result<(), CheckFault>
    ensures paged { OnOk result ((page : Page) × IsPageFor words.now page × Pages (unwrap_or (bytes_of texts.entry.map) []) (bytes_of texts.entry.scen)
        words.now.agents words.now.mode (courses_in words.now.paths texts.entry.journal) page (W.held writer.old) (W.held writer.new)) }
    ensures refused { IfErr result (FailsDraw (unwrap_or (bytes_of texts.entry.map) []) (bytes_of texts.entry.scen) words.now.agents words.now.mode
        (courses_in words.now.paths texts.entry.journal)) }
{
    let page = page_of(words);
    let problem = problem_of(texts, words.agents, words.mode);
    let courses = courses_of(words.paths, texts.journal);
    run_page(rt, alloc, problem, courses, &page, WORKERS, writer)
}

// The page's title: the words', or else the map's name.
fn title_of(words: &PageWords) -> &'static str
    ensures { result.now ≡ unwrap_or (option_copied words.now.title) words.now.map.now }
{
    match words.title {
        Some(title) => title,
        None => words.map,
    }
}

// What the page has beside the scene and its report.
fn page_of(words: &PageWords) -> Page<'static>
    ensures title { result.title.now ≡ unwrap_or (option_copied words.now.title) words.now.map.now }
    ensures kinds { result.kinds ≡ words.now.kinds }
{
    Page {
        title: title_of(words).as_bytes(),
        kinds: words.kinds,
        looks: LOOKS,
        script: SCRIPT,
    }
}
