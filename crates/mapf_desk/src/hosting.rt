//! The word `host`.
ghost use Rattle.std.specs.Prelude.{IfOk};
ghost use Rattle.std.specs.Option.{option_copied};
ghost use Rattle.desk_io.specs.Texts.{untold};
ghost use Rattle.mapf_desk.specs.Ends.{unsaid};
ghost use Rattle.mapf_desk.specs.Hosted.{HasHosted, HasHostedFiles};

use crate::faults::ProgramFault;
use crate::host_logging::host_logged;
use crate::hosted::{end_hosted, out_of_memory};
use crate::logs::Logs;
use crate::opening::open_named;
use crate::reading::let_go;
use crate::saving::Saver;
use crate::seating::host_at;
use crate::statuses::RunEnd;
use core::thread::Stack;
use desk_cli::HostWords;
use desk_io::{Folder, More, Steady, System};
use desk_log::LogKeeper;
use log_file::LogFile;
use std::fs::File;
use std::rt::Files;
use std::sync::Wait;
use std::thread;
use std::thread::{Promise, Scope, Threads};
use std::time::Clock;

/// The bytes of stack of the thread that hosts, in which each planner takes some.
const HOST_STACK: usize = 16_777_216;

/// Hosts planners of other processes on one desk, as the words ask for, and the operator at standard
/// input and output, until all their inputs have ended; saves the desk's journal where they ask for
/// it, and prints whether the audit's report is that of the desk.
///
/// # Errors
///
/// What the words lack, a file that can't be read or written, two planners of one file, want of memory
/// for a thread, the run's fault, or that of the save.
pub fn host_files<R: Threads + Wait + Clock + Sync>(
    rt: &R,
    host: &HostRuntime,
    words: &HostWords,
    stages: bool,
    more: &mut More,
) -> Result<RunEnd, ProgramFault>
    ensures { IfOk result (HasHosted untold unsaid untold unsaid words.now (option_copied words.now.desk.log)) }
{
    thread::scope(
        thread::scope_env(),
        rt,
        move |scope| -> Result<RunEnd, ProgramFault>
            ensures { IfOk result (HasHosted untold unsaid untold unsaid words.entry.now (option_copied words.entry.now.desk.log)) }
        { host_apart(rt, host, scope, words, stages, more) },
    )
}

// The words whose planners a thread hosts.
#[derive(Drop)]
struct Hosting<'a> {
    words: &'a HostWords,
}

impl<'a> Promise<Result<RunEnd, ProgramFault>> for Hosting<'a> {
    ghost kept_by = { λ hosting ended. IfOk ended (HasHosted untold unsaid untold unsaid hosting.words.now (option_copied hosting.words.now.desk.log)) };
}

// Hosts the planners of the words, in a thread of its own.
fn host_apart<'s, E: 's, R: Threads + Wait + Clock + Sync>(
    rt: &'s R,
    host: &'s HostRuntime,
    scope: &'s Scope<'s, E>,
    words: &'s HostWords,
    stages: bool,
    more: &'s mut More,
) -> Result<RunEnd, ProgramFault>
    ensures { IfOk result (HasHosted untold unsaid untold unsaid words.now (option_copied words.now.desk.log)) }
{
    let started = Stack::new().stack_size(HOST_STACK).spawn_scoped_with(
        scope,
        Hosting { words },
        move || -> Result<RunEnd, ProgramFault>
            ensures { IfOk result (HasHosted untold unsaid untold unsaid words.entry.now (option_copied words.entry.now.desk.log)) }
        { host_named(rt, host, words, stages, more) },
    );
    match started {
        Ok(hosted) => hosted.join(rt),
        Err(_) => Err(out_of_memory()),
    }
}

// Hosts the planners of the words, in this thread.
fn host_named<R: Threads + Wait + Clock + Sync>(
    rt: &R,
    host: &HostRuntime,
    words: &HostWords,
    stages: bool,
    more: &mut More,
) -> Result<RunEnd, ProgramFault>
    ensures { IfOk result (HasHosted untold unsaid untold unsaid words.now (option_copied words.now.desk.log)) }
{
    let steady = Steady::new(host, host.stderr());
    host_system(rt, host, &steady, words, stages, more)
}

// Hosts them over the desk of the system's files.
fn host_system<
    R: Threads + Wait + Clock + Sync,
    P: Files<File = File> + AllocGlobal + Clock + Clone + Drop + Print,
>(
    rt: &R,
    host: &HostRuntime,
    out: &P,
    words: &HostWords,
    stages: bool,
    more: &mut More,
) -> Result<RunEnd, ProgramFault>
    ensures { IfOk result (HasHosted untold unsaid untold unsaid words.now (option_copied words.now.desk.log)) }
{
    host_files_in(rt, host, out, &System(out), words, stages, more)
}

// Hosts them over the desk of the files of a folder: with a log where the words name one.
fn host_files_in<
    R: Threads + Wait + Clock + Sync,
    P: AllocGlobal + Print,
    F: Folder + Saver + Logs,
>(
    rt: &R,
    host: &HostRuntime,
    out: &P,
    files: &F,
    words: &HostWords,
    stages: bool,
    more: &mut More,
) -> Result<RunEnd, ProgramFault>
    ensures { IfOk result (HasHosted (F.holds files.now) (F.has_saved files.now) (F.had files.now) (F.has_left files.now) words.now
        (option_copied words.now.desk.log)) }
{
    match words.desk.log {
        Some(name) => host_logged(rt, host, out, files, words, name, stages, more),
        None => host_over(rt, host, out, files, words, stages, more),
    }
}

// Hosts them over the desk of the files of a folder, without a log.
fn host_over<R: Threads + Wait + Clock + Sync, P: AllocGlobal + Print, F: Folder + Saver>(
    rt: &R,
    host: &HostRuntime,
    out: &P,
    files: &F,
    words: &HostWords,
    stages: bool,
    more: &mut More,
) -> Result<RunEnd, ProgramFault>
    ensures { IfOk result (HasHostedFiles (F.holds files.now) (F.has_saved files.now) words.now) }
{
    let alloc = host.alloc();
    let (desk, held) = match open_named(alloc, files, words, more) {
        Ok(opened) => opened,
        Err(fault) => return Err(fault),
    };
    let no_log: Option<LogKeeper<LogFile>> = None;
    let (end, none) = match host_at(rt, host, desk, no_log, words, stages) {
        Ok(end) => end,
        Err(fault) => {
            let_go(files, held);
            return Err(fault);
        }
    };
    drop(none);
    let ended = end_hosted(out, files, &end, held, more);
    drop(end);
    ended
}
