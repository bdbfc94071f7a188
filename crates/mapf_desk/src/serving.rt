//! The word `serve`.
ghost use Rattle.std.specs.Prelude.{◌≡◌, ◌⊎◌, ℕ, List, Option, None, Err, IfErr, IfOk, OnOk, max, min};
ghost use Rattle.std.specs.Option.{option_copied};
ghost use Rattle.desk_commits.specs.declared.limits.TheConstants.{MOST_ENTRIES};
ghost use Rattle.solver_check.specs.Opens.{bytes_of};
ghost use Rattle.mapf_desk.specs.Files.{IsUnready, LacksScen};
ghost use Rattle.mapf_desk.specs.Files.{OfFiles};
ghost use Rattle.mapf_desk.specs.Ends.{HasServeFault, HasNoFault, IsLeftBySession, IsFaultOfOpening, SitsBy, history_for};

use crate::closing::{end_desk, fault_of, note_end, outcome_of};
use crate::reading::{let_go, read_named};
use crate::saving::Saver;
use desk_cli::ServeWords;
use desk_core::{Desk, Limit, MOST_ENTRIES};
use desk_io::{Answers, Folder, Lines, More, Outlet, Prompting, Texts, send_last};
use desk_report::Spout;
use session_protocol::{LinesVersion, ServeFault};
use single_runs::serve_desk;
use solver_check::{Fault, RunFault};
use std::alloc::Global;
use std::cell::RefCell;
use std::io;
use std::io::{BufWriter, Read, Write};
use std::time::Clock;

/// Serves a session from standard input to standard output, as the words ask for, over the files of a
/// folder, and saves the desk's journal where they ask for it. What was answered before a fault has
/// gone out, and is saved. Who types it is told what to type.
///
/// # Errors
///
/// What the words lack, a file that can't be read or written, the run's fault, or that of the save;
/// where both have one, that of the run is told here.
pub fn serve_streams<R: AllocGlobal + Clock + Print + Eprint + Input, F: Folder + Saver>(
    rt: &R,
    files: &F,
    words: &ServeWords,
    typed: bool,
    more: &mut More,
    verbose: bool,
) -> Result<(), Fault>
    ensures asked { LacksScen words.now → result ≡ Err Fault.AgentsWithoutScen }
    ensures served { OnOk result (OfFiles (F.holds files.now) (option_copied words.now.map) (option_copied words.now.scen)
        (option_copied words.now.journal) None (HasNoFault (F.has_saved files.now) words.now)) }
    ensures refused { IfErr result (λ fault. IsUnready (F.holds files.now) words.now fault ⊎ OfFiles (F.holds files.now) (option_copied words.now.map)
        (option_copied words.now.scen) (option_copied words.now.journal) None (λ map scen journal. HasServeFault words.now map scen journal fault)) }
{
    let (named, held) = match read_named(files, words, more) {
        Ok(ready) => ready,
        Err(fault) => return Err(fault),
    };
    let (desk, fault) = serve_typed(rt, named.texts(), words, typed, more);
    drop(named);
    match desk {
        Some(desk) => end_desk(rt, files, desk, fault, held, more, verbose),
        None => {
            let_go(files, held);
            outcome_of(fault)
        }
    }
}

// Serves a session from standard input to standard output, and hands back the desk, where one was
// opened, and the session's fault. Who types it is told what to type.
fn serve_typed<R: AllocGlobal + Clock + Print + Eprint + Input>(
    rt: &R,
    texts: Texts<'_>,
    words: &ServeWords,
    typed: bool,
    more: &mut More,
) -> (Option<Desk>, Option<RunFault>)
    ensures { (left : Option (List ℕ)) × IsLeftBySession words.now (bytes_of texts.entry.map) (bytes_of texts.entry.scen) (bytes_of texts.entry.journal)
        left result.0 result.1 }
{
    // (lent, since standard input has its buffer in itself)
    let (mut reader, output) = (rt.reader(), io::writer(rt));
    let input = Prompting::new(rt, &mut reader, typed, words.prompt());
    serve_between(rt.alloc(), texts, words, input, output, more)
}

// Serves a session from a reader to a writer, both buffered, and hands back the desk, where one was
// opened, and the session's fault. What was answered goes out before more is read, and at the end.
fn serve_between<I: Read + Drop, O: Write + Drop>(
    alloc: Global,
    texts: Texts<'_>,
    words: &ServeWords,
    input: I,
    output: O,
    more: &mut More,
) -> (Option<Desk>, Option<RunFault>)
    ensures { IsLeftBySession words.now (bytes_of texts.entry.map) (bytes_of texts.entry.scen) (bytes_of texts.entry.journal)
        (I.remaining input) result.0 result.1 }
{
    match BufWriter::new(alloc, output) {
        Ok(buffered) => serve_buffered(alloc, texts, words, input, buffered, more),
        Err(_) => {
            drop(input);
            (None, Some(RunFault::OutOfMemory))
        }
    }
}

// Serves a session from a reader to a writer in a buffer, which goes out at the end.
fn serve_buffered<I: Read + Drop, O: Write + Drop>(
    alloc: Global,
    texts: Texts<'_>,
    words: &ServeWords,
    input: I,
    buffered: BufWriter<O>,
    more: &mut More,
) -> (Option<Desk>, Option<RunFault>)
    ensures { IsLeftBySession words.now (bytes_of texts.entry.map) (bytes_of texts.entry.scen) (bytes_of texts.entry.journal)
        (I.remaining input) result.0 result.1 }
{
    let outlet = RefCell::new(Outlet::new(buffered));
    let ended = serve_lines(alloc, texts, words, input, &outlet);
    let last = send_last(&outlet);
    drop(outlet);
    match ended {
        Ok((desk, ended)) => {
            let fault = note_end(alloc, fault_of(ended), last, texts, more);
            (Some(desk), fault)
        }
        Err(fault) => (None, note_end(alloc, Some(fault), last, texts, more)),
    }
}

// The journal's limit, which the words' parser has held to its range.
pub(crate) fn limit_of(words: &ServeWords) -> Limit
    ensures { result ≡ max 1 (min words.now.limit MOST_ENTRIES) }
{
    match Limit::new(words.limit.clamp(1, MOST_ENTRIES)) {
        Some(limit) => limit,
        None => unreachable!(),
    }
}

// How many changes of its report a desk keeps for lines of that version, where so many are asked for:
// none in version 1, which has no line that asks for them.
pub(crate) fn history_for(lines: LinesVersion, history: u32) -> u32
    ensures { result ≡ history_for lines history }
{
    match lines {
        LinesVersion::One => 0,
        LinesVersion::Two => history,
    }
}

// Serves a session from a reader to an outlet, and hands back the desk.
fn serve_lines<I: Read + Drop, O: Write + Drop>(
    alloc: Global,
    texts: Texts<'_>,
    words: &ServeWords,
    input: I,
    outlet: &RefCell<Outlet<O>>,
) -> Result<(Desk, Result<u32, ServeFault>), RunFault>
    ensures sat { IfOk result (SitsBy words.now (bytes_of texts.entry.map) (bytes_of texts.entry.scen) (bytes_of texts.entry.journal)
        (I.remaining input)) }
    ensures unopened { IfErr result (IsFaultOfOpening words.now (bytes_of texts.entry.map) (bytes_of texts.entry.scen) (bytes_of texts.entry.journal)
        (I.remaining input)) }
{
    let Ok(mut reader) = Lines::new(alloc, input, outlet) else {
        return Err(RunFault::OutOfMemory);
    };
    let mut writer = Spout::new(Answers::new(outlet));
    serve_desk(
        alloc,
        words.lines,
        texts.map,
        texts.scen,
        words.agents,
        limit_of(words),
        words.mode,
        texts.journal,
        history_for(words.lines, words.history),
        &mut reader,
        &mut writer,
    )
}
