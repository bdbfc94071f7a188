//! The word `audit`.
ghost use Rattle.std.specs.Prelude.{◌≡◌, [], ◌<◌, Some, None, Err, IfErr, OnOk, unwrap_or};
ghost use Rattle.std.specs.Option.{option_copied};
ghost use Rattle.single_runs.specs.Audits.{Audits, FailsAudit};
ghost use Rattle.solver_check.specs.Opens.{bytes_of};
ghost use Rattle.mapf_desk.specs.Files.{OfFiles};
ghost use Rattle.mapf_desk.specs.Runs.{FailsAuditOver, HasAudited, IsUnaudited};

use desk_cli::AuditWords;
use desk_io::{Folder, More, Noting, Texts, bytes_in, finish, read_from, tell_stage};
use desk_report::{Sink, Spout};
use single_runs::run_audit;
use solver_check::{Fault, RunFault};
use std::alloc::Global;
use std::io;
use std::io::BufWriter;
use std::sync::Wait;
use std::thread::Threads;

/// Audits as the words ask for, of the files of a folder, onto standard output. Where it is wanted, its
/// stages are told on standard error.
///
/// # Errors
///
/// What the words lack, a file that can't be read, or the run's fault.
pub fn audit_files<R: AllocGlobal + Print + Eprint + Threads + Wait, F: Folder>(
    rt: &R,
    folder: &F,
    words: &AuditWords,
    stages: bool,
    more: &mut More,
) -> Result<(), Fault>
    ensures asked { (0 < words.now.agents) × (words.now.scen ≡ None) → result ≡ Err Fault.AgentsWithoutScen }
    ensures audited { OnOk result (OfFiles (F.holds folder.now) (Some words.now.map.now) (option_copied words.now.scen)
        (option_copied words.now.journal) None (HasAudited words.now)) }
    ensures refused { IfErr result (FailsAuditOver ((0 < words.now.agents) × (words.now.scen ≡ None)) (F.holds folder.now) (Some words.now.map.now)
        (option_copied words.now.scen) (option_copied words.now.journal) (IsUnaudited words.now)) }
{
    if words.agents > 0 && words.scen.is_none() {
        return Err(Fault::AgentsWithoutScen);
    }
    tell_stage(rt, stages, "reading the files");
    let (map, journal) = (Some(words.map), words.journal);
    let named = match read_from(folder, map, words.scen, journal, None, more) {
        Ok(named) => named,
        Err(fault) => return Err(fault),
    };
    let ended = audit_texts(rt, named.texts(), words, stages, more);
    drop(named);
    match ended {
        Ok(()) => Ok(()),
        Err(fault) => Err(Fault::Run(fault)),
    }
}

// Audits the texts onto standard output.
fn audit_texts<R: AllocGlobal + Print + Eprint + Threads + Wait>(
    rt: &R,
    texts: Texts<'_>,
    words: &AuditWords,
    stages: bool,
    more: &mut More,
) -> Result<(), RunFault>
    ensures audited { OnOk result (HasAudited words.now (bytes_of texts.entry.map) (bytes_of texts.entry.scen) (bytes_of texts.entry.journal)) }
    ensures refused { IfErr result (IsUnaudited words.now (bytes_of texts.entry.map) (bytes_of texts.entry.scen) (bytes_of texts.entry.journal)) }
{
    let alloc = rt.alloc();
    let Ok(buffered) = BufWriter::new(alloc, io::writer(rt)) else {
        return Err(RunFault::OutOfMemory);
    };
    let mut writer = Spout::new(Noting::new(buffered));
    tell_stage(rt, stages, "opening the desk, and auditing it");
    let ended = audit_onto(rt, alloc, texts, words, &mut writer);
    finish(alloc, ended, texts, writer, more)
}

// Writes the report of the desk of the texts and the words, made from scratch.
fn audit_onto<T: Threads + Wait, W: Sink>(
    rt: &T,
    alloc: Global,
    texts: Texts<'_>,
    words: &AuditWords,
    writer: &mut W,
) -> Result<(), RunFault>
    ensures audited { OnOk result (Audits (unwrap_or (bytes_of texts.entry.map) []) (bytes_of texts.entry.scen) words.now.agents words.now.mode
        (bytes_of texts.entry.journal) (W.held writer.old) (W.held writer.new)) }
    ensures refused { IfErr result (FailsAudit (unwrap_or (bytes_of texts.entry.map) []) (bytes_of texts.entry.scen) words.now.agents words.now.mode
        (bytes_of texts.entry.journal) (W.held writer.old) (W.held writer.new)) }
{
    run_audit(
        rt,
        alloc,
        bytes_in(texts.map),
        texts.scen,
        words.agents,
        words.mode,
        texts.journal,
        words.workers.clamp(1, 64),
        writer,
    )
}
