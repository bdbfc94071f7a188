//! The word `serve` with a log, which has each commit before it is answered.
ghost use Rattle.std.specs.Prelude.{◌≡◌, ℕ, None, Some, Ok, Err, IfOk, OnOk, false};
ghost use Rattle.std.specs.Option.{option_copied};
ghost use Rattle.solver_check.specs.Opens.{bytes_of};
ghost use Rattle.mapf_desk.specs.Files.{LacksScen, OfFiles};
ghost use Rattle.mapf_desk.specs.Logged.{HasEntries, HasLogged, HasServed, SatToEnd, head_of};

use crate::closing::{fault_of, note_end, outcome_of};
use crate::faults::{LogRefused, ProgramFault};
use crate::log_opening::{no_memory, run_fault};
use crate::log_sitting::{Sat, sit};
use crate::logs::{Logs, OpenLog, Opened};
use crate::saving::Saver;
use crate::serving::serve_streams;
use desk_cli::ServeWords;
use desk_io::{Folder, More, Outlet, Prompting, Texts, read_from, send_last};
use solver_check::{Fault, RunFault};
use std::alloc::Global;
use std::cell::RefCell;
use std::io;
use std::io::{BufWriter, Error, Result as Done};
use std::time::Clock;

/// Serves a session from standard input to standard output, as the words ask for, over the files of a
/// folder: with a log where they name one. Who types it is told what to type.
///
/// # Errors
///
/// As `serve_streams`, or `serve_logged`.
pub fn serve_files<R: AllocGlobal + Clock + Print + Eprint + Input, F: Folder + Saver + Logs>(
    rt: &R,
    files: &F,
    words: &ServeWords,
    typed: bool,
    more: &mut More,
    verbose: bool,
) -> Result<(), ProgramFault>
    ensures asked { LacksScen words.now → result ≡ Err (ProgramFault.Desk Fault.AgentsWithoutScen) }
    ensures served { OnOk result (HasServed (F.holds files.now) (F.has_saved files.now) (F.had files.now) (F.has_left files.now) words.now
        (option_copied words.now.log)) }
{
    match words.log {
        Some(name) => serve_logged(rt, files, words, name, typed, more),
        None => match serve_streams(rt, files, words, typed, more, verbose) {
            Ok(()) => Ok(()),
            Err(fault) => Err(ProgramFault::Desk(fault)),
        },
    }
}

/// Serves a session from standard input to standard output over the desk of the words, which first
/// commits the entries of the log of that name. Each commit is in the log, and a crash leaves it there,
/// before it is answered. Who types it is told what to type.
///
/// # Errors
///
/// What the words lack, a file that can't be read, the log's fault, or that of the run.
pub fn serve_logged<R: AllocGlobal + Clock + Print + Eprint + Input, F: Folder + Logs>(
    rt: &R,
    files: &F,
    words: &ServeWords,
    name: &'static str,
    typed: bool,
    more: &mut More,
) -> Result<(), ProgramFault>
    ensures asked { LacksScen words.now → result ≡ Err (ProgramFault.Desk Fault.AgentsWithoutScen) }
    ensures logged { OnOk result (OfFiles (F.holds files.now) (option_copied words.now.map) (option_copied words.now.scen) None None
        (λ map scen none. HasLogged (F.had files.now name.now) (F.has_left files.now name.now) words.now map scen)) }
{
    if words.agents > 0 && words.scen.is_none() {
        return Err(ProgramFault::Desk(Fault::AgentsWithoutScen));
    }
    let named = match read_from(files, words.map, words.scen, None, None, more) {
        Ok(named) => named,
        Err(fault) => return Err(ProgramFault::Desk(fault)),
    };
    let opened = match files.open(name, words.is_synced, more) {
        Ok(opened) => opened,
        Err(fault) => {
            drop(named);
            return Err(fault);
        }
    };
    let ended = sit_typed(rt, files, named.texts(), words, opened, typed, more);
    drop(named);
    match ended {
        Ok(log) => {
            files.close(name, log);
            Ok(())
        }
        Err(fault) => Err(fault),
    }
}

// Serves the session between the standard streams, both buffered, and hands back the log; what was
// answered goes out before more is read, and at the end.
fn sit_typed<R: AllocGlobal + Clock + Print + Eprint + Input, B: Logs>(
    rt: &R,
    logs: &B,
    texts: Texts<'_>,
    words: &ServeWords,
    opened: Opened<B::Open>,
    typed: bool,
    more: &mut More,
) -> Result<B::Open, ProgramFault>
    ensures { IfOk result (λ log. SatToEnd words.now (bytes_of texts.entry.map) (bytes_of texts.entry.scen) opened.bytes.items
        (λ text journal. B.Open.text opened.log ≡ Some opened.bytes.items
        → HasEntries (head_of words.now text (bytes_of texts.entry.scen)) (B.Open.text log) (B.Open.kept log) journal)) }
{
    let (mut reader, output) = (rt.reader(), io::writer(rt));
    let input = Prompting::new(rt, &mut reader, typed, words.prompt());
    let Ok(buffered) = BufWriter::new(rt.alloc(), output) else {
        drop(input);
        drop(opened);
        return Err(no_memory());
    };
    let outlet = RefCell::new(Outlet::new(buffered));
    let ended = sit(rt, logs, texts, words, opened, input, &outlet, more);
    let last = send_last(&outlet);
    drop(outlet);
    outcome(rt.alloc(), ended, last, texts, more)
}

// How a session ended, by its fault, and by how its last answers went out.
fn outcome<L: OpenLog + Drop>(
    alloc: Global,
    ended: Result<Sat<L>, ProgramFault>,
    last: (Done<()>, Option<Error>),
    texts: Texts<'_>,
    more: &mut More,
) -> Result<L, ProgramFault>
    ensures { IfOk result (λ log. (lines : ℕ) × (ended ≡ Ok (record { log = log; ended = Ok lines; has_failed = false }))) }
{
    match ended {
        Ok(sat) => ended_so(alloc, sat, last, texts, more),
        Err(fault) => Err(unsat(alloc, fault, last, texts, more)),
    }
}

// The run's fault, where it is one.
pub(crate) fn run_fault_in(fault: &ProgramFault) -> Option<RunFault> {
    match fault {
        ProgramFault::Desk(Fault::Run(why)) => Some(*why),
        _ => None,
    }
}

// The fault of a session that was not begun, by how its last answers went out.
fn unsat(
    alloc: Global,
    fault: ProgramFault,
    last: (Done<()>, Option<Error>),
    texts: Texts<'_>,
    more: &mut More,
) -> ProgramFault {
    let run = run_fault_in(&fault);
    match run {
        None => fault,
        Some(why) => match note_end(alloc, Some(why), last, texts, more) {
            None => fault,
            Some(later) => {
                drop(fault);
                run_fault(later)
            }
        },
    }
}

// How a session ended, by whether its log failed.
fn ended_so<L: OpenLog + Drop>(
    alloc: Global,
    sat: Sat<L>,
    last: (Done<()>, Option<Error>),
    texts: Texts<'_>,
    more: &mut More,
) -> Result<L, ProgramFault>
    ensures { IfOk result (λ log. (lines : ℕ) × (sat.log ≡ log) × (sat.ended ≡ Ok lines) × (sat.has_failed ≡ false)) }
{
    if sat.has_failed {
        if let Some(why) = sat.log.reason() {
            more.reason(alloc, &why);
        }
        drop(sat);
        return Err(ProgramFault::Log(LogRefused::Failed));
    }
    let Sat {
        log,
        ended,
        has_failed: _,
    } = sat;
    match outcome_of(note_end(alloc, fault_of(ended), last, texts, more)) {
        Ok(()) => Ok(log),
        Err(fault) => {
            drop(log);
            Err(ProgramFault::Desk(fault))
        }
    }
}
