//! A log that is gone on with, or begun.
ghost use Rattle.std.specs.Prelude.{◌≡◌, ℕ, List, [], Some, IfOk, MatchOption, OnOk, length, take};
ghost use Rattle.commit_log.specs.Crashes.{Counts};
ghost use Rattle.commit_log.specs.Text.{head_text, log_text};
ghost use Rattle.desk_log.specs.Keeping.{IsLogged};
ghost use Rattle.desk_log.specs.Reading.{IsRead};

use crate::faults::{LogRefused, ProgramFault};
use crate::logs::{Logs, OpenLog, Opened, unwritten};
use commit_log::LogWriter;
use desk_io::{More, tear_note};
use desk_log::LogRead;
use std::alloc::Global;

/// The log as it is written on: what was left of an entry is cut off, a new log has its head, and a crash
/// leaves all of it.
///
/// # Errors
///
/// The log can't be written.
pub(crate) fn resumed<R: AllocGlobal + Eprint, B: Logs>(
    rt: &R,
    logs: &B,
    opened: Opened<B::Open>,
    head: &[u8],
    had: &Option<LogRead>,
    more: &mut More,
) -> Result<LogWriter<B::Open>, ProgramFault>
    ensures { IfOk result (λ writer. B.Open.text opened.log ≡ Some opened.bytes.items → MatchOption had.now
        (IsLogged head.now (B.Open.text writer.log) (B.Open.kept writer.log) writer.count writer.check [])
        (λ log. (read : IsRead opened.bytes.items log)
        → IsLogged (head_text log.mode log.scene) (B.Open.text writer.log) (B.Open.kept writer.log) writer.count writer.check read.entries)) }
{
    let Opened {
        name,
        mut log,
        bytes,
    } = opened;
    let alloc = rt.alloc();
    let size = bytes.as_slice().len();
    match cut_tear(rt, &mut log, name, end_of(had), size, more) {
        Ok(()) => match had {
            Some(read) => settled(alloc, log, read, name, more),
            None => begun(alloc, logs, log, head, name, more),
        },
        Err(fault) => Err(fault),
    }
}

// Where the entries that were read end.
fn end_of(had: &Option<LogRead>) -> usize
    ensures { MatchOption had.now (result ≡ 0) (λ log. result ≡ log.end) }
{
    match had {
        Some(read) => read.end,
        None => 0,
    }
}

// Cuts off what stands behind the last whole entry, and tells how much that is.
fn cut_tear<R: AllocGlobal + Eprint, L: OpenLog>(
    rt: &R,
    log: &mut L,
    name: &'static str,
    end: usize,
    size: usize,
    more: &mut More,
) -> Result<(), ProgramFault>
    ensures { (whole : List ℕ) → L.text log.old ≡ Some whole → length whole ≡ size → OnOk result (L.text log.new ≡ Some (take end whole)) }
{
    if end >= size {
        return Ok(());
    }
    if let Some(note) = tear_note(rt.alloc(), size - end) {
        let _told = eprintln!(rt; "{note}");
    }
    match log.cut(end as u64) {
        Ok(()) => Ok(()),
        Err(why) => Err(unwritten(rt.alloc(), name, why, more)),
    }
}

// The log that was read, all of which a crash leaves.
fn settled<L: OpenLog + Drop>(
    alloc: Global,
    log: L,
    read: &LogRead,
    name: &'static str,
    more: &mut More,
) -> Result<LogWriter<L>, ProgramFault>
    ensures same { IfOk result (λ writer. L.text writer.log ≡ L.text log) }
    ensures kept { IfOk result (λ writer. L.kept writer.log ≡ L.text writer.log) }
    ensures count { IfOk result (λ writer. writer.count ≡ read.now.count) }
    ensures check { IfOk result (λ writer. writer.check ≡ read.now.check) }
{
    let mut writer = LogWriter {
        log,
        count: read.count,
        check: read.check,
    };
    match writer.settle() {
        Ok(()) => Ok(writer),
        Err(_) => Err(failed(alloc, writer, name, more)),
    }
}

// A new log, of which a crash leaves the head and the name.
fn begun<B: Logs>(
    alloc: Global,
    logs: &B,
    log: B::Open,
    head: &[u8],
    name: &'static str,
    more: &mut More,
) -> Result<LogWriter<B::Open>, ProgramFault>
    ensures begun { B.Open.text log ≡ Some [] → IfOk result (λ writer. B.Open.text writer.log ≡ Some (log_text head.now [])) }
    ensures counted { IfOk result (λ writer. Counts head.now [] writer.count writer.check) }
    ensures kept { IfOk result (λ writer. B.Open.kept writer.log ≡ B.Open.text writer.log) }
{
    let mut writer = LogWriter {
        log,
        count: 0,
        check: [0u8; 16],
    };
    if writer.begin(head).is_err() {
        return Err(failed(alloc, writer, name, more));
    }
    match logs.settle_name(name, &writer.log) {
        Ok(()) => Ok(writer),
        Err(why) => {
            drop(writer);
            Err(unwritten(alloc, name, why, more))
        }
    }
}

// The fault of a log that failed before the session.
fn failed<L: OpenLog + Drop>(
    alloc: Global,
    writer: LogWriter<L>,
    name: &'static str,
    more: &mut More,
) -> ProgramFault {
    let why = writer.log.reason();
    drop(writer);
    match why {
        Some(why) => unwritten(alloc, name, why, more),
        None => ProgramFault::Log(LogRefused::Failed),
    }
}
