//! The word `host` with a log, which has each commit before anybody is shown it.
ghost use Rattle.std.specs.Prelude.{◌≡◌, List, [], ℕ, Option, Some, None, IfOk, false, unwrap_or};
ghost use Rattle.std.specs.Option.{option_copied};
ghost use Rattle.desk_io.specs.Texts.{IsTold};
ghost use Rattle.desk_log.specs.Keeping.{IsLogged};
ghost use Rattle.mapf_desk.specs.Files.{OfFiles};
ghost use Rattle.mapf_desk.specs.Hosted.{HostsLogged, IsOpenedLogged};
ghost use Rattle.mapf_desk.specs.Logged.{head_of};

use crate::faults::{LogRefused, ProgramFault};
use crate::hosted::end_hosted;
use crate::log_opening::ready_over;
use crate::logging::run_fault_in;
use crate::logs::{Logs, OpenLog};
use crate::opening::named_twice;
use crate::saving::Saver;
use crate::seating::host_at;
use crate::statuses::RunEnd;
use desk_cli::HostWords;
use desk_core::Desk;
use desk_io::{Detailed, Folder, More, read_from};
use desk_log::LogKeeper;
use solver_check::Fault;
use std::sync::Wait;
use std::thread::Threads;
use std::time::Clock;

// The desk of the words, which commits the entries of the log of that name, and the log, which is to keep
// more.
fn open_logged<R: AllocGlobal + Eprint, F: Folder + Logs>(
    rt: &R,
    files: &F,
    words: &HostWords,
    name: &'static str,
    more: &mut More,
) -> Result<(Desk, LogKeeper<F::Open>), ProgramFault>
    ensures opened { IfOk result (λ ready. (bytes : List ℕ) × IsTold (F.had files.now name.now) bytes
        × OfFiles (F.holds files.now) (option_copied words.now.desk.map) (option_copied words.now.desk.scen) None None
        (λ map scen none. IsOpenedLogged words.now.desk bytes ready.0 map scen none × (F.had files.now name.now ≡ Some bytes
        → IsLogged (head_of words.now.desk (unwrap_or map []) scen) (F.Open.text ready.1.writer.log) (F.Open.kept ready.1.writer.log)
        ready.1.writer.count ready.1.writer.check ready.0.journal))) }
    ensures sound { IfOk result (λ ready. ready.1.has_failed ≡ false) }
{
    if words.desk.agents > 0 && words.desk.scen.is_none() {
        return Err(ProgramFault::Desk(Fault::AgentsWithoutScen));
    }
    let named = match read_from(files, words.desk.map, words.desk.scen, None, None, more) {
        Ok(named) => named,
        Err(fault) => return Err(ProgramFault::Desk(fault)),
    };
    if let Some(name) = named_twice(words.names.as_slice()) {
        drop(named);
        return Err(ProgramFault::NamedTwice { name });
    }
    let opened = match files.open(name, words.desk.is_synced, more) {
        Ok(opened) => opened,
        Err(fault) => {
            drop(named);
            return Err(fault);
        }
    };
    let texts = named.texts();
    let ready = ready_over(rt, files, texts, b"", &words.desk, opened, more);
    if let Err(fault) = &ready {
        if let Some(why) = run_fault_in(fault) {
            more.put(why.more(rt.alloc(), texts));
        }
    }
    drop(named);
    ready
}

/// Hosts the planners of the words over the desk of the log of that name, which then has all that any of
/// them was shown, and prints whether the audit's report is that of the desk.
///
/// # Errors
///
/// What the words lack, a file that can't be read, the log's fault, or that of the run.
pub(crate) fn host_logged<
    R: Threads + Wait + Clock + Sync,
    P: AllocGlobal + Print,
    F: Folder + Saver + Logs,
>(
    rt: &R,
    host: &HostRuntime,
    out: &P,
    files: &F,
    words: &HostWords,
    name: &'static str,
    stages: bool,
    more: &mut More,
) -> Result<RunEnd, ProgramFault>
    ensures { IfOk result (λ run. OfFiles (F.holds files.now) (option_copied words.now.desk.map) (option_copied words.now.desk.scen) None None
        (λ map scen none. HostsLogged (F.had files.now name.now) (F.has_left files.now name.now) words.now map scen run)) }
{
    let (desk, keeper) = match open_logged(host, files, words, name, more) {
        Ok(ready) => ready,
        Err(fault) => return Err(fault),
    };
    let (end, log) = match host_at(rt, host, desk, Some(keeper), words, stages) {
        Ok(ended) => ended,
        Err(fault) => return Err(fault),
    };
    let Some(keeper) = log else { unreachable!() };
    if keeper.has_failed() {
        if let Some(why) = keeper.log().reason() {
            more.reason(host.alloc(), &why);
        }
        drop(keeper);
        drop(end);
        return Err(ProgramFault::Log(LogRefused::Failed));
    }
    let ended = end_hosted(out, files, &end, None, more);
    drop(end);
    files.close(name, keeper.into_log());
    ended
}
