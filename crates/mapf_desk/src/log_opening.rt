//! The desk of a log: the log is read, and made ready to be written on.
ghost use Rattle.std.specs.Prelude.{◌≡◌, List, ℕ, Option, Some, IfOk, MatchOption, false, option_map, unwrap_or};
ghost use Rattle.desk_log.specs.Keeping.{IsLogged};
ghost use Rattle.desk_log.specs.Reading.{IsRead, IsTornHead};
ghost use Rattle.solver_check.specs.Opens.{bytes_of};
ghost use Rattle.single_runs.specs.Opened.{OpensDesk};
ghost use Rattle.mapf_desk.specs.Ends.{limit_of};
ghost use Rattle.mapf_desk.specs.Logged.{IsHad, head_of};

use crate::faults::{LogRefused, ProgramFault};
use crate::log_resuming::resumed;
use crate::logs::{Logs, Opened};
use crate::serving::{history_for, limit_of};
use commit_log::{SceneDigest, head_text, scene_digest};
use desk_cli::ServeWords;
use desk_core::Desk;
use desk_io::{More, Texts, bytes_in};
use desk_log::{LogFault, LogKeeper, LogRead, is_torn_head, read_log};
use single_runs::open_keeping;
use solver_check::{Fault, Problem, RunFault};
use std::alloc::Global;

/// The fault for want of memory.
pub(crate) fn no_memory() -> ProgramFault
    ensures { result ≡ ProgramFault.Desk (Fault.Run RunFault.OutOfMemory) }
{
    run_fault(RunFault::OutOfMemory)
}

/// A run's fault.
pub(crate) fn run_fault(why: RunFault) -> ProgramFault
    ensures { result ≡ ProgramFault.Desk (Fault.Run why) }
{
    ProgramFault::Desk(Fault::Run(why))
}

// The desk that commits the log's entries, and the log, which is to keep more.
fn ready<R: AllocGlobal + Eprint, B: Logs>(
    rt: &R,
    logs: &B,
    map: &[u8],
    scen: Option<&[u8]>,
    words: &ServeWords,
    opened: Opened<B::Open>,
    more: &mut More,
) -> Result<(Desk, LogKeeper<B::Open>), ProgramFault>
    ensures opens { IfOk result (λ ready. (journal : Option (List ℕ)) × IsHad words.now map.now (bytes_of scen.entry) opened.bytes.items journal
        × OpensDesk map.now (bytes_of scen.entry) words.now.agents words.now.mode (limit_of words.now) journal ready.0) }
    ensures sound { IfOk result (λ ready. ready.1.has_failed ≡ false) }
    ensures kept { IfOk result (λ ready. B.Open.text opened.log ≡ Some opened.bytes.items
        → IsLogged (head_of words.now map.now (bytes_of scen.entry)) (B.Open.text ready.1.writer.log) (B.Open.kept ready.1.writer.log)
        ready.1.writer.count ready.1.writer.check ready.0.journal) }
{
    let alloc = rt.alloc();
    let scene = scene_digest(map, bytes_in(scen), words.agents);
    let Ok(head) = head_text(alloc, words.mode, &scene) else {
        drop(opened);
        return Err(no_memory());
    };
    let had = match log_in(
        alloc,
        words,
        &scene,
        head.as_slice(),
        opened.bytes.as_slice(),
    ) {
        Ok(had) => had,
        Err(fault) => {
            drop(opened);
            return Err(fault);
        }
    };
    let desk = match opened_desk(alloc, map, scen, words, journal_in(&had)) {
        Ok(desk) => desk,
        Err(why) => {
            drop(had);
            drop(opened);
            return Err(run_fault(why));
        }
    };
    match resumed(rt, logs, opened, head.as_slice(), &had, more) {
        Ok(writer) => Ok((desk, LogKeeper::new(alloc, writer))),
        Err(fault) => {
            drop(desk);
            Err(fault)
        }
    }
}

/// The desk that commits the log's entries, and the log, which is to keep more; over the map that was
/// read, where one was, and else over the one that was heard.
///
/// # Errors
///
/// The log isn't of that scene and mode, or damaged, or can't be written; or the fault of the desk.
pub(crate) fn ready_over<R: AllocGlobal + Eprint, B: Logs>(
    rt: &R,
    logs: &B,
    texts: Texts<'_>,
    heard: &[u8],
    words: &ServeWords,
    opened: Opened<B::Open>,
    more: &mut More,
) -> Result<(Desk, LogKeeper<B::Open>), ProgramFault>
    ensures opens { IfOk result (λ ready. (journal : Option (List ℕ))
        × IsHad words.now (unwrap_or (bytes_of texts.entry.map) heard.now) (bytes_of texts.entry.scen) opened.bytes.items journal
        × OpensDesk (unwrap_or (bytes_of texts.entry.map) heard.now) (bytes_of texts.entry.scen) words.now.agents words.now.mode (limit_of words.now)
        journal ready.0) }
    ensures sound { IfOk result (λ ready. ready.1.has_failed ≡ false) }
    ensures kept { IfOk result (λ ready. B.Open.text opened.log ≡ Some opened.bytes.items
        → IsLogged (head_of words.now (unwrap_or (bytes_of texts.entry.map) heard.now) (bytes_of texts.entry.scen)) (B.Open.text ready.1.writer.log)
        (B.Open.kept ready.1.writer.log) ready.1.writer.count ready.1.writer.check ready.0.journal) }
{
    match texts.map {
        Some(map) => ready(rt, logs, map, texts.scen, words, opened, more),
        None => ready(rt, logs, heard, texts.scen, words, opened, more),
    }
}

// The desk of the words over that map, which commits the entries of a journal.
fn opened_desk(
    alloc: Global,
    map: &[u8],
    scen: Option<&[u8]>,
    words: &ServeWords,
    journal: Option<&[u8]>,
) -> Result<Desk, RunFault>
    ensures { IfOk result (OpensDesk map.now (bytes_of scen.entry) words.now.agents words.now.mode (limit_of words.now) (bytes_of journal.entry)) }
{
    let problem = Problem {
        map,
        scen,
        agents: Some(words.agents),
        mode: words.mode,
    };
    let limit = limit_of(words);
    let history = history_for(words.lines, words.history);
    open_keeping(alloc, problem, limit, journal, history)
}

// The log of that head that the bytes are; none where they are a front of the head.
fn log_in(
    alloc: Global,
    words: &ServeWords,
    scene: &SceneDigest,
    head: &[u8],
    bytes: &[u8],
) -> Result<Option<LogRead>, ProgramFault>
    ensures { IfOk result (λ had. MatchOption had (IsTornHead bytes.now head.now)
        (λ log. IsRead bytes.now log × (log.mode ≡ words.now.mode) × (log.scene ≡ scene.now))) }
{
    if is_torn_head(bytes, head) {
        return Ok(None);
    }
    let log = match read_log(alloc, bytes) {
        Ok(log) => log,
        Err(LogFault::BadLine { line }) => return Err(refused(LogRefused::BadLine { line })),
        Err(LogFault::OutOfMemory) => return Err(no_memory()),
    };
    let (mode, digest) = (log.mode, log.scene);
    if mode != words.mode {
        drop(log);
        return Err(refused(LogRefused::ModeDiffers));
    }
    if digest != *scene {
        drop(log);
        return Err(refused(LogRefused::AnotherScene));
    }
    Ok(Some(log))
}

// The fault of a log.
fn refused(why: LogRefused) -> ProgramFault {
    ProgramFault::Log(why)
}

// The journal that the entries of a log make, where there is one.
fn journal_in(had: &Option<LogRead>) -> Option<&[u8]>
    ensures { bytes_of result ≡ option_map (λ log. log.journal.items) had.now }
{
    match had {
        Some(log) => Some(log.journal.as_slice()),
        None => None,
    }
}
