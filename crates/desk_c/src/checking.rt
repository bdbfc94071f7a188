//! A verdict on the paths that a solver wrote.
ghost use Rattle.std.specs.Prelude.{◌≡◌};
ghost use Rattle.desk_c.specs.Checking.{IsCheckAnswer, TellsCheck, form_in, number_in, status_of_verdict};
ghost use Rattle.desk_c.specs.Opening.{mode_of, optional};
ghost use Rattle.solver_check.specs.Listings.{listing_of};
ghost use Rattle.solver_check.specs.Opens.{bytes_of};

use crate::numbers::NO_NUMBER;
use crate::states::copy_front;
use desk_report::{Kinds, Spout};
use path_files::Form;
use plan_table::Mode;
use solver_check::{Alone, CheckFault, Listing, Problem, run_check};
use std::alloc::Global;

/// The paths solve their problem.
pub const SOLVED: u32 = 0;
/// They don't.
pub const UNSOLVED: u32 = 1;
/// There is no verdict; the text is why.
pub const FAULT: u32 = 2;

/// The paths are written in a line for each time.
pub const BY_TIME: u32 = 1;
/// They are written in a line for each agent.
pub const BY_AGENT: u32 = 2;
/// They are written as a session has them.
pub const BY_SESSION: u32 = 3;
/// They are an object of JSON.
pub const BY_JSON: u32 = 4;
/// They are written as a schedule of libMultiRobotPlanning.
pub const BY_SCHEDULE: u32 = 5;
/// They are rows of moves, and up is the row before.
pub const BY_MOVES: u32 = 6;
/// They are rows of moves, and up is the row behind.
pub const BY_FLIPPED_MOVES: u32 = 7;

/// Gives a verdict on a solver's paths, by the kinds of conflicts that are named, as the program's `check` prints it. Copies as
/// many bytes of its text as there is room for, and gives the length of the whole; where there is no verdict it is the fault's
/// text, or nothing for want of memory. Without a number of agents there are as many as paths; of a form without a constant
/// here the first line tells how the paths are written.
#[unsafe(no_mangle)]
pub extern "C" fn mapf_desk_check(
    alloc: Global,
    map: &[u8],
    scen: &[u8],
    has_scen: bool,
    agents: u32,
    paths: &[u8],
    form: u32,
    vertex: bool,
    edge: bool,
    follow: bool,
    swap: bool,
    cycle: bool,
    disappears: bool,
    quiet: bool,
    only: bool,
    room: &mut [u8],
    length: &mut usize,
) -> u32
    ensures { TellsCheck result map.now (optional has_scen scen.now) (number_in agents) (mode_of disappears) paths.now (form_in form)
        (record { vertex = vertex; edge = edge; follow = follow; swap = swap; cycle = cycle }) (listing_of quiet only) room.old room.new length.new }
{
    let problem = problem_of(map, scen, has_scen, agents, disappears);
    let kinds = kinds_of(vertex, edge, follow, swap, cycle);
    let listing = Listing::of(quiet, only);
    let (status, text) = check(alloc, problem, paths, form_of(form), kinds, listing);
    *length = copy_front(text.as_slice(), room);
    drop(text);
    status
}

/// The mode that a flag stands for.
pub(crate) fn mode_of(disappears: bool) -> Mode
    ensures { result ≡ mode_of disappears }
{
    if disappears {
        Mode::Disappear
    } else {
        Mode::Stay
    }
}

/// The kinds of conflicts that flags name.
pub(crate) fn kinds_of(vertex: bool, edge: bool, follow: bool, swap: bool, cycle: bool) -> Kinds
    ensures { result ≡ record { vertex = vertex; edge = edge; follow = follow; swap = swap; cycle = cycle } }
{
    Kinds {
        vertex,
        edge,
        follow,
        swap,
        cycle,
    }
}

fn form_of(form: u32) -> Option<Form>
    ensures { result ≡ form_in form }
{
    if form == BY_TIME {
        Some(Form::ByTime)
    } else if form == BY_AGENT {
        Some(Form::ByAgent)
    } else if form == BY_SESSION {
        Some(Form::BySession)
    } else if form == BY_JSON {
        Some(Form::ByJson)
    } else if form == BY_SCHEDULE {
        Some(Form::BySchedule)
    } else if form == BY_MOVES {
        Some(Form::ByMoves)
    } else if form == BY_FLIPPED_MOVES {
        Some(Form::ByFlippedMoves)
    } else {
        None
    }
}

fn problem_of<'t>(
    map: &'t [u8],
    scen: &'t [u8],
    has_scen: bool,
    agents: u32,
    disappears: bool,
) -> Problem<'t>
    ensures map { result.map.now ≡ map.now }
    ensures scen { bytes_of result.scen ≡ optional has_scen scen.now }
    ensures agents { result.agents ≡ number_in agents }
    ensures mode { result.mode ≡ mode_of disappears }
{
    Problem {
        map,
        scen: if has_scen { Some(scen) } else { None },
        agents: if agents == NO_NUMBER {
            None
        } else {
            Some(agents)
        },
        mode: mode_of(disappears),
    }
}

// The status and the text of the verdict, or of why there is none.
fn check(
    alloc: Global,
    problem: Problem<'_>,
    paths: &[u8],
    form: Option<Form>,
    kinds: Kinds,
    listing: Listing,
) -> (u32, Vec<u8>)
    ensures { IsCheckAnswer problem.entry.map.now (bytes_of problem.entry.scen) problem.entry.agents problem.entry.mode paths.now form kinds listing
        result.0 result.1.items }
{
    let mut writer = Spout::new(Vec::new(alloc));
    let checked = run_check(
        &Alone,
        alloc,
        problem,
        paths,
        form,
        kinds,
        listing,
        &mut writer,
    );
    let text = writer.into_inner();
    match checked {
        Ok(solved) => (status_of_verdict(solved), text),
        Err(fault) => {
            drop(text);
            (FAULT, text_of(alloc, fault))
        }
    }
}

fn status_of_verdict(solved: bool) -> u32
    ensures { result ≡ status_of_verdict solved }
{
    if solved { SOLVED } else { UNSOLVED }
}

// The fault's text, or nothing for want of memory. A text in memory is unwritten for want of that alone.
fn text_of(alloc: Global, fault: CheckFault) -> Vec<u8> {
    let told = match fault {
        CheckFault::WriteFailed => CheckFault::OutOfMemory,
        fault => fault,
    };
    match format!(in alloc; "{told}") {
        Ok(text) => text.into_bytes(),
        Err(_) => Vec::new(alloc),
    }
}
