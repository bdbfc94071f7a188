//! The desk that a journal makes of a scene.
ghost use Rattle.std.specs.Prelude.{◌≡◌};
ghost use Rattle.desk_commits.specs.Replays.{IsReplay, Recommits, fault_of};

use crate::desks::Desk;
use desk_commits::{Commit, Journal, Limit, Refusal, ReplayFault};
use scene_edits::Scene;
use std::alloc::Global;

/// The desk that is opened on the scene and commits the journal's entries in order.
///
/// # Errors
///
/// The modes differ, or an entry is refused, or there is no memory.
pub fn replay(
    alloc: Global,
    scene: Scene,
    limit: Limit,
    journal: Journal,
) -> Result<Desk, ReplayFault>
    ensures { IsReplay scene limit journal result }
{
    if scene.mode() != journal.mode() {
        return Err(ReplayFault::ModeDiffers);
    }
    commit_all(Desk::open(alloc, scene, limit), journal.into_items())
}

// The desk that commits the entries in order.
fn commit_all(mut desk: Desk, entries: Vec<Commit>) -> Result<Desk, ReplayFault>
    ensures { Recommits desk entries.items result }
{
    let mut number = 0;
    for entry in entries {
        number += 1;
        match desk.commit(entry) {
            Ok(_) => {}
            Err((why, _back)) => {
                drop(desk);
                return Err(refused(number, why));
            }
        }
    }
    Ok(desk)
}

// The fault of an entry of that number that was refused.
fn refused(entry: usize, why: Refusal) -> ReplayFault
    ensures { result ≡ fault_of entry why }
{
    match why {
        Refusal::OutOfMemory => ReplayFault::OutOfMemory,
        _ => ReplayFault::Refused { entry, why },
    }
}
