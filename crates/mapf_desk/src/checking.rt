//! The word `check`.
ghost use Rattle.std.specs.Prelude.{◌≡◌, [], None, Some, Err, IfErr, IfOk, true, unwrap_or};
ghost use Rattle.path_files.specs.Costs.{costs_of};
ghost use Rattle.std.specs.Option.{option_copied};
ghost use Rattle.solver_check.specs.Checks.{ChecksIn, IsCheckFault};
ghost use Rattle.solver_check.specs.Listings.{listing_of};
ghost use Rattle.solver_check.specs.Opens.{bytes_of};
ghost use Rattle.solver_check.specs.Stated.{costs_apart, is_nothing_apart};
ghost use Rattle.mapf_desk.specs.Files.{OfFiles};
ghost use Rattle.mapf_desk.specs.Runs.{FailsOver, HasChecked, HasSolved, IsUnchecked, LacksTasks, style_asked};

use crate::faults::ProgramFault;
use desk_cli::CheckWords;
use desk_io::{Folder, More, Noting, Texts, bytes_in, finish, problem_of, read_from, tell_stage};
use desk_report::{Sink, Spout};
use path_files::costs_of;
use solver_check::{
    CheckFault, Checked, Fault, InThreads, Listing, Style, costs_apart, run_check_in,
};
use std::alloc::Global;
use std::io;
use std::io::BufWriter;
use std::sync::Wait;
use std::thread::Threads;

/// Checks a solver's paths as the words ask for, of the files of a folder, onto standard output, and
/// answers whether they solve the problem. Where it is wanted, its stages are told on standard error.
///
/// # Errors
///
/// What the words lack, a file that can't be read, or why there is no verdict.
pub fn check_files<R: AllocGlobal + Print + Eprint + Threads + Wait, F: Folder>(
    rt: &R,
    folder: &F,
    words: &CheckWords,
    stages: bool,
    more: &mut More,
) -> Result<bool, ProgramFault>
    ensures asked { LacksTasks words.now.agents words.now.scen → result ≡ Err (ProgramFault.Desk Fault.AgentsWithoutScen) }
    ensures checked { IfOk result (λ solved. OfFiles (F.holds folder.now) (Some words.now.map.now) (option_copied words.now.scen)
        None (Some words.now.paths.now) (λ map scen paths. HasSolved words.now words.now.form map scen paths solved)) }
    ensures refused { IfErr result (FailsOver (LacksTasks words.now.agents words.now.scen) (F.holds folder.now) (Some words.now.map.now)
        (option_copied words.now.scen) None (Some words.now.paths.now) (IsUnchecked words.now words.now.form)) }
{
    if words.agents.is_some() && words.scen.is_none() {
        return Err(ProgramFault::Desk(Fault::AgentsWithoutScen));
    }
    tell_stage(rt, stages, "reading the files");
    let (map, paths) = (Some(words.map), Some(words.paths));
    let named = match read_from(folder, map, words.scen, None, paths, more) {
        Ok(named) => named,
        Err(fault) => return Err(ProgramFault::Desk(fault)),
    };
    tell_stage(rt, stages, "checking the paths");
    let texts = Texts {
        form: words.form,
        ..named.texts()
    };
    let checked = check_texts(rt, texts, words, more);
    if let Ok(checked) = &checked {
        note_costs(rt.alloc(), bytes_in(texts.journal), *checked, more);
    }
    drop(named);
    match checked {
        Ok(checked) => Ok(checked.solved),
        Err(fault) => Err(ProgramFault::Check(fault)),
    }
}

// Notes the costs that the text of paths states otherwise than the report has them.
fn note_costs(alloc: Global, paths: &[u8], checked: Checked, more: &mut More)
    ensures { is_nothing_apart (costs_apart (costs_of paths.now) checked.totals) ≡ true → more.new ≡ more.old }
{
    let apart = costs_apart(costs_of(paths), checked.totals);
    if !apart.is_none() {
        more.note(format!(in alloc; "{apart}").ok());
    }
}

// Checks the texts onto standard output; in place of a journal there are a solver's paths.
fn check_texts<R: AllocGlobal + Print + Threads + Wait>(
    rt: &R,
    texts: Texts<'_>,
    words: &CheckWords,
    more: &mut More,
) -> Result<Checked, CheckFault>
    ensures checked { IfOk result (HasChecked words.now texts.entry.form (bytes_of texts.entry.map) (bytes_of texts.entry.scen)
        (bytes_of texts.entry.journal)) }
    ensures refused { IfErr result (IsUnchecked words.now texts.entry.form (bytes_of texts.entry.map) (bytes_of texts.entry.scen)
        (bytes_of texts.entry.journal)) }
{
    let alloc = rt.alloc();
    let Ok(buffered) = BufWriter::new(alloc, io::writer(rt)) else {
        return Err(CheckFault::OutOfMemory);
    };
    let mut writer = Spout::new(Noting::new(buffered));
    let ended = check_onto(rt, alloc, texts, words, &mut writer);
    finish(alloc, ended, texts, writer, more)
}

/// How the words have a verdict written.
pub(crate) fn style_asked(words: &CheckWords) -> Style
    ensures { result ≡ style_asked words.now }
{
    Style {
        is_json: words.is_json,
        own_cells: words.own_cells,
    }
}

// Writes and answers whether the paths of the texts solve the problem of the texts and the words.
fn check_onto<T: Threads + Wait, W: Sink>(
    rt: &T,
    alloc: Global,
    texts: Texts<'_>,
    words: &CheckWords,
    writer: &mut W,
) -> Result<Checked, CheckFault>
    ensures checked { IfOk result (ChecksIn (unwrap_or (bytes_of texts.entry.map) []) (bytes_of texts.entry.scen) words.now.agents words.now.mode
        (unwrap_or (bytes_of texts.entry.journal) []) texts.entry.form words.now.kinds (listing_of words.now.quiet words.now.only)
        (style_asked words.now) (W.held writer.old) (W.held writer.new)) }
    ensures refused { IfErr result (IsCheckFault (unwrap_or (bytes_of texts.entry.map) []) (bytes_of texts.entry.scen) words.now.agents words.now.mode
        (unwrap_or (bytes_of texts.entry.journal) []) texts.entry.form) }
{
    run_check_in(
        &InThreads::new(rt, words.workers.clamp(1, 64)),
        alloc,
        problem_of(texts, words.agents, words.mode),
        bytes_in(texts.journal),
        texts.form,
        words.kinds,
        Listing::of(words.quiet, words.only),
        style_asked(words),
        writer,
    )
}
