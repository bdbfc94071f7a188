//! A desk inside another program: sessions by calls from C, over a handle that the caller keeps.
//!
//! `handles` has the handle and what is behind it, whose box `loose` takes to a pointer and back;
//! `states` answers lines there, and `opening` opens a desk of texts. `solving` has the calls on numbers, `planned` what they do
//! behind a handle, `planning` what they ask of a desk, `numbers` and `statuses` how that is told. `checking` has the call that gives
//! a verdict on a solver's paths, and needs no handle. What a caller owes and gets
//! is in `library/mapf_desk.h`, which tests what can be null before it calls these.
#![tactic(auto)]

ghost use Rattle.std.specs.Prelude.{◌≡◌, None, is_some};
ghost use Rattle.desk_c.specs.Calls.{AtHandle, AtState, IsCopied, IsHeard, WritesJournal};
ghost use Rattle.desk_c.specs.Opening.{IsOpened, optional};

mod checking;
mod handles;
mod loose;
mod numbers;
mod opening;
mod planned;
mod planning;
mod solving;
mod states;
mod statuses;

use crate::checking::mode_of;
use crate::handles::Handle;
use crate::opening::{Texts, opened};
use crate::states::State;
use std::alloc::Global;

/// Opens a desk of a map's text, the first tasks of a scenario and the entries of a journal, where these are
/// given, and closes what was open before. Reports whether it is open; if not, the answer is the fault's
/// text, or the handle is closed for want of memory.
#[unsafe(no_mangle)]
pub extern "C" fn mapf_desk_open(
    alloc: Global,
    handle: &mut Handle,
    map: &[u8],
    scen: &[u8],
    has_scen: bool,
    agents: u32,
    disappears: bool,
    limit: u32,
    journal: &[u8],
    has_journal: bool,
) -> bool
    ensures { IsOpened result map.now (optional has_scen scen.now) agents disappears limit (optional has_journal journal.now) handle.new.held }
{
    drop(handle.take(alloc));
    let texts = Texts {
        map,
        scen: if has_scen { Some(scen) } else { None },
        agents,
        mode: mode_of(disappears),
        journal: if has_journal { Some(journal) } else { None },
    };
    let Some(state) = opened(alloc, texts, limit) else {
        return false;
    };
    let is_open = state.is_open();
    handle.put(state);
    is_open
}

/// Answers the session's next line, of version 2, and keeps the answer. Reports whether it is whole: memory may run out on
/// the way, and the line had its effect then. No line is answered if no desk is open.
#[unsafe(no_mangle)]
pub extern "C" fn mapf_desk_line(alloc: Global, handle: &mut Handle, line: &[u8]) -> bool
    ensures { AtHandle (AtState (λ told desk. IsHeard told desk line.now)) result handle.old.held handle.new.held }
{
    let Some(mut state) = handle.take(alloc) else {
        return false;
    };
    let is_whole = state.hear(alloc, line);
    handle.put(state);
    is_whole
}

/// Makes the text of the desk's journal the answer. Reports whether it is whole, as a line's.
#[unsafe(no_mangle)]
pub extern "C" fn mapf_desk_journal(alloc: Global, handle: &mut Handle) -> bool
    ensures { AtHandle (AtState WritesJournal) result handle.old.held handle.new.held }
{
    let Some(mut state) = handle.take(alloc) else {
        return false;
    };
    let is_whole = state.tell_journal(alloc);
    handle.put(state);
    is_whole
}

/// Copies as many bytes of the last answer as there is room for, and gives the length of the whole. Reports
/// whether there is an answer: not at a closed handle.
#[unsafe(no_mangle)]
pub extern "C" fn mapf_desk_answer(
    alloc: Global,
    handle: &mut Handle,
    room: &mut [u8],
    length: &mut usize,
) -> bool
    ensures same { handle.new.held ≡ handle.old.held }
    ensures copied { IsCopied result handle.old.held room.old room.new length.old length.new }
{
    let Some(state) = handle.take(alloc) else {
        return false;
    };
    *length = state.copy_answer(room);
    handle.put(state);
    true
}

/// Gives back all memory. Reports whether there was any to give: not at a closed handle.
#[unsafe(no_mangle)]
pub extern "C" fn mapf_desk_close(alloc: Global, handle: &mut Handle) -> bool
    ensures closed { handle.new.held ≡ None }
    ensures was { result ≡ is_some handle.old.held }
{
    match handle.take(alloc) {
        None => false,
        Some(state) => {
            drop(state);
            true
        }
    }
}
