//! What is done at a session's end.
ghost use Rattle.std.specs.Prelude.{◌≡◌, ◌⊎◌, IfErr, IsOk, MatchOption, None, OnOk, option_map};
ghost use Rattle.mapf_desk.specs.Ends.{fault_at_end, last_fault, IsFaultAtEnd, IsSavedIn, IsUnsavedIn};

use crate::saving::{Held, Saver, save_held};
use desk_core::Desk;
use desk_io::{Detailed, More, Texts, tell_more};
use session_protocol::ServeFault;
use solver_check::{Fault, RunFault};
use std::alloc::Global;
use std::io::{Error, Result as Done};

/// The fault of a session that ended so.
pub(crate) fn fault_of(ended: Result<u32, ServeFault>) -> Option<RunFault>
    ensures { result ≡ fault_at_end ended }
{
    match ended {
        Ok(_) => None,
        Err(fault) => Some(RunFault::from(fault)),
    }
}

/// The session's fault, where it has one.
pub(crate) fn outcome_of(fault: Option<RunFault>) -> Result<(), Fault>
    ensures { MatchOption fault (IsOk result) (λ why. result ≡ Err (Fault.Run why)) }
{
    match fault {
        None => Ok(()),
        Some(fault) => Err(Fault::Run(fault)),
    }
}

/// A session's fault, by how its last answers went out and why its input could not be read; what
/// more is known of it is noted.
pub(crate) fn note_end(
    alloc: Global,
    fault: Option<RunFault>,
    last: (Done<()>, Option<Error>),
    texts: Texts<'_>,
    more: &mut More,
) -> Option<RunFault>
    ensures { result ≡ last_fault fault last.0 }
{
    let (fault, why) = with_reason(fault, last);
    match (fault, why) {
        (None, _) => (),
        (Some(_), Some(why)) => more.reason(alloc, &why),
        (Some(fault), None) => more.put(fault.more(alloc, texts)),
    }
    fault
}

// A session's fault, and the system's reason for that.
fn with_reason(
    fault: Option<RunFault>,
    last: (Done<()>, Option<Error>),
) -> (Option<RunFault>, Option<Error>)
    ensures { result.0 ≡ last_fault fault last.0 }
{
    let (sent, unread) = last;
    if let Err(why) = sent {
        return (Some(RunFault::Serve(ServeFault::WriteFailed)), Some(why));
    }
    if fault == Some(RunFault::Serve(ServeFault::ReadFailed)) {
        return (fault, unread);
    }
    (fault, None)
}

/// Saves the desk that a session left, where a file for it is held, and lets it go.
///
/// # Errors
///
/// The session's fault, or that of the save: where both have one, that of the session is told here.
pub(crate) fn end_desk<R: Eprint, S: Saver>(
    rt: &R,
    saver: &S,
    desk: Desk,
    fault: Option<RunFault>,
    held: Option<Held<S::Place>>,
    more: &mut More,
    verbose: bool,
) -> Result<(), Fault>
    ensures ok { OnOk result (fault ≡ None) }
    ensures saved { OnOk result (IsSavedIn (S.has_saved saver.now) (option_map (λ held. held.file.now) held) desk) }
    ensures err { IfErr result (λ told. IsFaultAtEnd fault told ⊎ IsUnsavedIn (option_map (λ held. held.file.now) held) told) }
{
    let mut unsaved = More::none();
    let saved = save_held(saver, &desk, held, &mut unsaved);
    drop(desk);
    match saved {
        Ok(()) => {
            drop(unsaved);
            outcome_of(fault)
        }
        Err(later) => {
            tell_before(rt, fault, unsaved, more, verbose);
            Err(later)
        }
    }
}

// Tells a session's fault, of which more is known, where the save has one too; then that is known of
// the save's.
fn tell_before<R: Eprint>(
    rt: &R,
    fault: Option<RunFault>,
    unsaved: More,
    more: &mut More,
    verbose: bool,
)
    ensures { more.new ≡ unsaved }
{
    if let Some(fault) = &fault {
        let _status = tell_more(rt, fault, more, verbose);
    }
    *more = unsaved;
}
