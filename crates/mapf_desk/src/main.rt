//! The program: a desk that serves a planner's session over files and standard streams, audits, drills
//! planners that share it, checks paths that a solver wrote, draws pictures, makes pages that play plans.
//!
//! Each word but `version` has a file: `serving`, `auditing`, `drilling`, `hosting`, `checking` (of several files `checking_each`,
//! `checking_row`, `check_rows`), `drawing`, `paging`. `reading`, `saving` read and save files; `logging` keeps commits
//! in `logs`, by `log_opening`, `log_resuming`, `log_sitting`; `closing`, `opening`, `seating`, `hosted`, `statuses`, `faults`: a run's two ends.
#![tactic(auto)]

ghost use Rattle.std.specs.Prelude.{◌≡◌, ◌≢◌, ◌⊎◌, IfErr, IfOk};
ghost use Rattle.std.specs.Process.{exit_status};
ghost use Rattle.mapf_desk.specs.Answers.{Ends};
ghost use Rattle.mapf_desk.specs.Questions.{IsQuestion};
ghost use Rattle.mapf_desk.specs.Statuses.{run_status};

mod auditing;
mod check_rows;
mod checking;
mod checking_each;
mod checking_row;
mod closing;
mod drawing;
mod drilling;
mod faults;
mod host_logging;
mod hosted;
mod hosting;
mod log_opening;
mod log_resuming;
mod log_sitting;
mod logging;
mod logs;
mod opening;
mod paging;
mod reading;
mod saving;
mod seating;
mod serving;
mod statuses;

use auditing::audit_files;
use checking_each::check_paths;
use desk_cli::{Asked, VERSION, Words, read_words};
use desk_io::{FAULT, More, Steady, System, fill_standard, tell, tell_more, tell_served};
use drawing::draw_files;
use drilling::drill_files;
use faults::ProgramFault;
use hosting::host_files;
use logging::serve_files;
use paging::page_files;
use shared_runs::{Fault, RunFault};
use statuses::{RunEnd, answered, status_of};
use std::env;
use std::fs::File;
use std::io::{Error, ErrorKind, IsTerminal};
use std::process::ExitCode;
use std::rt::Files;
use std::sync::Wait;
use std::thread::Threads;
use std::time::Clock;

// Does what the words ask for. Where it is wanted, stages are told.
fn obey<
    R: Files<File = File>
        + AllocGlobal
        + Clock
        + Clone
        + Drop
        + Print
        + Eprint
        + Input
        + Threads
        + Wait
        + Sync,
>(
    rt: &R,
    runtime: &HostRuntime,
    words: &Words,
    more: &mut More,
    verbose: bool,
    stages: bool,
) -> Result<RunEnd, ProgramFault>
    ensures question { IfOk result (λ end. end ≢ RunEnd.Yes → IsQuestion words.now) }
    ensures ends { IfOk result (Ends words.now) }
{
    let files = &System(rt);
    match words {
        Words::Version => match print_line(rt, VERSION, more) {
            Ok(()) => Ok(RunEnd::Yes),
            Err(fault) => Err(fault),
        },
        Words::Serve(serve) => {
            let typed = runtime.stdin().is_terminal();
            match serve_files(rt, files, serve, typed, more, verbose) {
                Ok(()) => Ok(RunEnd::Yes),
                Err(fault) => Err(fault),
            }
        }
        Words::Audit(audit) => match audit_files(rt, files, audit, stages, more) {
            Ok(()) => Ok(RunEnd::Yes),
            Err(fault) => Err(ProgramFault::Desk(fault)),
        },
        Words::Drill(drill) => match drill_files(rt, files, drill, stages, more, verbose) {
            Ok(same) => Ok(answered(same)),
            Err(fault) => Err(ProgramFault::Desk(fault)),
        },
        Words::Host(host) => host_files(rt, runtime, host, stages || verbose, more),
        Words::Check(check) => check_paths(rt, &System(runtime), check, stages, more),
        Words::Draw(draw) => match draw_files(rt, files, draw, stages, more) {
            Ok(()) => Ok(RunEnd::Yes),
            Err(fault) => Err(fault),
        },
        Words::Page(page) => match page_files(rt, files, page, stages, more) {
            Ok(()) => Ok(RunEnd::Yes),
            Err(fault) => Err(fault),
        },
    }
}

// Prints a line; where it isn't taken, the reason for that is noted.
fn print_line<R: AllocGlobal + Print>(
    rt: &R,
    line: &str,
    more: &mut More,
) -> Result<(), ProgramFault>
    ensures { IfErr result (λ fault. fault ≡ ProgramFault.Desk (Fault.Run RunFault.WriteFailed)) }
{
    match println!(rt; "{line}") {
        Ok(()) => Ok(()),
        Err(why) => {
            more.reason(rt.alloc(), &why);
            Err(ProgramFault::Desk(Fault::Run(RunFault::WriteFailed)))
        }
    }
}

// The status of a run: that of its end, or that of a fault, which is told.
fn status_after<R: Eprint>(
    rt: &R,
    ended: Result<RunEnd, ProgramFault>,
    more: &More,
    verbose: bool,
) -> ExitCode
    ensures { exit_status result ≡ run_status ended }
{
    match ended {
        Ok(end) => status_of(end),
        Err(fault) => tell_more(rt, &fault, more, verbose),
    }
}

// Prints the words' own text: help on standard output, a mistake on standard error.
fn tell_words<R: Print + Eprint>(rt: &R, error: clap::Error) -> ExitCode
    ensures { (exit_status result ≡ 0) ⊎ (exit_status result ≡ FAULT) }
{
    if matches!(error.kind(), clap::error::ErrorKind::OutOfMemory) {
        return tell(rt, RunFault::OutOfMemory);
    }
    match error.print(rt) {
        Err(_) => tell(rt, RunFault::WriteFailed),
        Ok(()) if error.use_stderr() => ExitCode::from(FAULT),
        Ok(()) => status_of(RunEnd::Yes),
    }
}

// Tells why the words can't be had.
fn tell_unread<R: Eprint>(rt: &R, why: Error) -> ExitCode
    ensures { exit_status result ≡ FAULT }
{
    match why.kind() {
        ErrorKind::InvalidData => tell(rt, "words that aren't text"),
        _ => tell(rt, RunFault::OutOfMemory),
    }
}

fn main(host: HostRuntime) -> ExitCode {
    let rt = Steady::new(&host, host.stderr());
    if let Err(why) = fill_standard(&host) {
        return tell(&rt, why);
    }
    let alloc = host.alloc();
    let given: Vec<String> = match env::args(&host) {
        Err(why) => return tell_unread(&rt, why),
        Ok(args) => match args.collect(alloc) {
            Err(_) => return tell(&rt, RunFault::OutOfMemory),
            Ok(given) => given,
        },
    };
    let (words, verbose) = match read_words(alloc, given.leak()) {
        Asked::For { words, verbose } => (words, verbose),
        Asked::Refused(error) => return tell_words(&rt, error),
        Asked::NoMemory => return tell(&rt, RunFault::OutOfMemory),
    };
    let mut more = More::none();
    let terminal = host.stderr().is_terminal();
    let ended = obey(&rt, &host, &words, &mut more, verbose, terminal);
    let status = status_after(&rt, ended, &more, verbose);
    tell_served(&rt, &more);
    status
}
