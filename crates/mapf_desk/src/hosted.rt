//! What the hosting of a desk comes to.
ghost use Rattle.std.specs.Prelude.{◌≡◌, ◌++◌, IfOk, codes, is_err, option_map};
ghost use Rattle.std.specs.List.{list_any};
ghost use Rattle.mapf_desk.specs.Ends.{IsSavedIn};
ghost use Rattle.shared_runs.specs.Drills.{same_line};
ghost use Rattle.mapf_desk.specs.Hosted.{IsRunEndOf, has_fault, unseated};
ghost use Rattle.mapf_desk.specs.Statuses.{host_end};

use crate::faults::ProgramFault;
use crate::print_line;
use crate::saving::{Held, Saver, save_held};
use crate::statuses::{RunEnd, answered};
use desk_io::{More, PipesFault};
use shared_runs::{Fault, HostEnd, Outcome, RunFault};

/// Saves the desk's journal if a file for it is held, and prints whether the audit's report is that of
/// the desk.
///
/// # Errors
///
/// That of the save, want of memory for the audit, or that of the print.
pub(crate) fn end_hosted<R: AllocGlobal + Print, S: Saver>(
    rt: &R,
    saver: &S,
    end: &HostEnd,
    held: Option<Held<S::Place>>,
    more: &mut More,
) -> Result<RunEnd, ProgramFault>
    ensures end { IfOk result (IsRunEndOf end.now) }
    ensures saved { IfOk result (λ _. IsSavedIn (S.has_saved saver.now) (option_map (λ held. held.file.now) held) end.now.desk) }
{
    match save_held(saver, &end.desk, held, more) {
        Ok(()) => {}
        Err(fault) => return Err(ProgramFault::Desk(fault)),
    }
    let Ok(same) = end.same else {
        return Err(out_of_memory());
    };
    match print_line(rt, audit_text(same), more) {
        Ok(()) => Ok(end_of(end, same)),
        Err(fault) => Err(fault),
    }
}

// Whether the audit's report is that of the desk, as it is told.
fn audit_text(same: bool) -> &'static str
    ensures { result.now ++ codes "\n" ≡ same_line same }
{
    if same { "audit same" } else { "audit differs" }
}

/// Want of memory, as the program reports it.
pub(crate) fn out_of_memory() -> ProgramFault
    ensures { result ≡ ProgramFault.Desk (Fault.Run RunFault.OutOfMemory) }
{
    ProgramFault::Desk(Fault::Run(RunFault::OutOfMemory))
}

/// Why there are no seats, as the program tells it.
pub(crate) fn fault_of(fault: PipesFault) -> ProgramFault
    ensures { result ≡ unseated fault }
{
    match fault {
        PipesFault::OutOfMemory => out_of_memory(),
        PipesFault::InUse { name } => ProgramFault::InUse { name },
    }
}

// Whether a session had a fault.
fn any_fault(sessions: &[Outcome]) -> bool
    ensures { result ≡ list_any (λ ended. is_err ended) sessions.now }
{
    sessions.iter().any(|ended| ended.is_err())
}

// Whether the operator's session or a planner's had a fault.
fn has_fault(end: &HostEnd) -> bool
    ensures { result ≡ has_fault end.now }
{
    end.operator.is_err() || any_fault(end.planners.as_slice())
}

// What hosting a desk comes to, whose audit is the same or not.
fn end_of(end: &HostEnd, same: bool) -> RunEnd
    ensures { result ≡ host_end (has_fault end.now) same }
{
    if has_fault(end) {
        RunEnd::Faulty
    } else {
        answered(same)
    }
}
