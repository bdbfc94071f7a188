//! Calls from C on numbers: those that a planner makes most often. Each answers a status, of `statuses`.
ghost use Rattle.std.specs.Prelude.{◌≡◌};
ghost use Rattle.desk_c.specs.Handles.{AtDesk, CommitsAt, IsUnfilled, IsUnmoved, OfDesk, TellsDistanceAt, TellsEntriesAt, TellsSolvesAt, TellsVersion, TriesAt};

use crate::checking::kinds_of;
use crate::handles::Handle;
use crate::numbers::{CellNumbers, EntryNumbers};
use crate::statuses::CLOSED;
use std::alloc::Global;

/// Gives how many commits the desk has accepted.
#[unsafe(no_mangle)]
pub extern "C" fn mapf_desk_version(alloc: Global, handle: &mut Handle, version: &mut u64) -> u32
    ensures same { handle.new.held ≡ handle.old.held }
    ensures told { OfDesk (TellsVersion result version.new) (IsUnmoved result version.old version.new) handle.old.held }
{
    let Some(state) = handle.take(alloc) else {
        return CLOSED;
    };
    let told = state.version(version);
    handle.put(state);
    told
}

/// Commits the path of an agent, from its start, on the desk's version, and gives the new one.
#[unsafe(no_mangle)]
pub extern "C" fn mapf_desk_commit_path(
    alloc: Global,
    handle: &mut Handle,
    agent: u32,
    path: &[CellNumbers],
    version: &mut u64,
) -> u32
    ensures { AtDesk (CommitsAt agent path.now result version.old version.new) (IsUnmoved result version.old version.new) handle.old.held handle.new.held }
{
    let Some(mut state) = handle.take(alloc) else {
        return CLOSED;
    };
    let told = state.commit_path(alloc, agent, path, version);
    handle.put(state);
    told
}

/// Copies as many of the conflicts that the agent would have after the commit of the path as there is room for, and gives the
/// number of all. The desk stays as it is.
#[unsafe(no_mangle)]
pub extern "C" fn mapf_desk_try_path(
    alloc: Global,
    handle: &mut Handle,
    agent: u32,
    path: &[CellNumbers],
    room: &mut [EntryNumbers],
    count: &mut usize,
) -> u32
    ensures same { handle.new.held ≡ handle.old.held }
    ensures told { OfDesk (TriesAt agent path.now result room.old room.new count.old count.new)
        (IsUnfilled result room.old room.new count.old count.new) handle.old.held }
{
    let Some(mut state) = handle.take(alloc) else {
        return CLOSED;
    };
    let told = state.try_path(alloc, agent, path, room, count);
    handle.put(state);
    told
}

/// Copies as many of the agent's conflicts as there is room for, in the order of the report, and gives the number of all.
#[unsafe(no_mangle)]
pub extern "C" fn mapf_desk_conflicts(
    alloc: Global,
    handle: &mut Handle,
    agent: u32,
    room: &mut [EntryNumbers],
    count: &mut usize,
) -> u32
    ensures same { handle.new.held ≡ handle.old.held }
    ensures told { OfDesk (TellsEntriesAt agent result room.old room.new count.old count.new)
        (IsUnfilled result room.old room.new count.old count.new) handle.old.held }
{
    let Some(mut state) = handle.take(alloc) else {
        return CLOSED;
    };
    let told = state.conflicts(alloc, agent, room, count);
    handle.put(state);
    told
}

/// Tells whether the plans solve by those kinds of conflicts.
#[unsafe(no_mangle)]
pub extern "C" fn mapf_desk_solves(
    alloc: Global,
    handle: &mut Handle,
    vertex: bool,
    edge: bool,
    follow: bool,
    swap: bool,
    cycle: bool,
    answer: &mut bool,
) -> u32
    ensures same { handle.new.held ≡ handle.old.held }
    ensures told { OfDesk (TellsSolvesAt (record { vertex = vertex; edge = edge; follow = follow; swap = swap; cycle = cycle }) result answer.old answer.new)
        (IsUnmoved result answer.old answer.new) handle.old.held }
{
    let Some(mut state) = handle.take(alloc) else {
        return CLOSED;
    };
    let kinds = kinds_of(vertex, edge, follow, swap, cycle);
    let told = state.solves(kinds, answer);
    handle.put(state);
    told
}

/// Gives the distance in steps of a cell to the agent's goal on the present map.
#[unsafe(no_mangle)]
pub extern "C" fn mapf_desk_distance(
    alloc: Global,
    handle: &mut Handle,
    agent: u32,
    x: u32,
    y: u32,
    steps: &mut u32,
) -> u32
    ensures same { handle.new.held ≡ handle.old.held }
    ensures told { OfDesk (TellsDistanceAt agent (record { x = x; y = y }) result steps.old steps.new) (IsUnmoved result steps.old steps.new) handle.old.held }
{
    let Some(mut state) = handle.take(alloc) else {
        return CLOSED;
    };
    let told = state.distance(agent, CellNumbers { x, y }, steps);
    handle.put(state);
    told
}
