//! The answer to a line.
ghost use Rattle.std.specs.Prelude.{◌≡◌};
ghost use Rattle.session_protocol.specs.Answer.{answering_in};
ghost use Rattle.session_protocol.specs.Table.{MayObey, TellsReport, TellsSolves, TellsDistance};

use crate::drafts::{Gathered, Session};
use crate::gathering::{commit, commit_alone, keep_edit, keep_watch, try_out};
use crate::inquiries::inquire;
use crate::replies::{BadLine, Reply};
use crate::waiting::Waiting;
use desk_core::Counter;
use desk_report::Kinds;
use grid_cells::{Agent, Cell, OutOfMemory};
use session_lines::{LineFault, LinesVersion, Request, read_line_in};
use std::alloc::Global;

// A fresh reading.
fn report<C: Counter>(counter: &mut C) -> Reply
    ensures { TellsReport C.counting counter.old result counter.new }
{
    match counter.reading() {
        Ok(reading) => Reply::Shown(reading),
        Err(OutOfMemory) => Reply::NoMemory,
    }
}

// Whether a fresh reading solves by those kinds.
fn solves<C: Counter>(counter: &mut C, kinds: Kinds) -> Reply
    ensures { TellsSolves C.counting counter.old kinds result counter.new }
{
    match counter.solves(kinds) {
        Ok(answer) => Reply::Solves(answer),
        Err(OutOfMemory) => Reply::NoMemory,
    }
}

// A distance.
fn distance<C: Counter>(counter: &mut C, agent: Agent, cell: Cell) -> Reply
    ensures { TellsDistance C.counting counter.old agent cell result counter.new }
{
    match counter.distance(agent, cell) {
        Ok(distance) => Reply::Far(distance),
        Err(fault) => Reply::NotAsked(fault),
    }
}

fn bad(line: u32, why: BadLine) -> Reply
    ensures { result ≡ Reply.Bad line why }
{
    Reply::Bad { line, why }
}

// The reply to a request outside a gathering, and where the session then is.
fn obey_idle<C: Counter, P: Waiting<C>>(
    alloc: Global,
    counter: &mut C,
    number: u32,
    request: Request,
    waiting: &P,
) -> (Reply, Session)
    ensures { MayObey C.counting number Session.Idle counter.old request result.0 result.1 counter.new }
{
    match request {
        Request::Silent => (Reply::Silent, Session::Idle),
        Request::Begin => {
            let base = counter.version();
            (
                Reply::Base(base),
                Session::Gathering(Gathered::new(alloc, base)),
            )
        }
        Request::Edit(edit) => (commit_alone(alloc, counter, edit), Session::Idle),
        Request::Watch(_) | Request::Commit | Request::Cancel | Request::Try => {
            (bad(number, BadLine::NotBegun), Session::Idle)
        }
        Request::Version => (Reply::Version(counter.version()), Session::Idle),
        Request::Report => (report(counter), Session::Idle),
        Request::Distance(agent, cell) => (distance(counter, agent, cell), Session::Idle),
        Request::Solves(kinds) => (solves(counter, kinds), Session::Idle),
        Request::Ask(inquiry) => (inquire(counter, inquiry, waiting), Session::Idle),
    }
}

// The reply to a request while a commit is gathered, and where the session then is.
fn obey_gathering<C: Counter, P: Waiting<C>>(
    alloc: Global,
    counter: &mut C,
    number: u32,
    gathered: Gathered,
    request: Request,
    waiting: &P,
) -> (Reply, Session)
    ensures { MayObey C.counting number (Session.Gathering gathered) counter.old request result.0 result.1 counter.new }
{
    match request {
        Request::Silent => (Reply::Silent, Session::Gathering(gathered)),
        Request::Begin => {
            let base = counter.version();
            (
                Reply::Base(base),
                Session::Gathering(Gathered::new(alloc, base)),
            )
        }
        Request::Watch(thing) => keep_watch(number, gathered, thing),
        Request::Edit(edit) => keep_edit(number, gathered, edit),
        Request::Commit => commit(counter, gathered),
        Request::Cancel => (Reply::Cancelled, Session::Idle),
        Request::Try => try_out(counter, gathered),
        Request::Version => (
            Reply::Version(counter.version()),
            Session::Gathering(gathered),
        ),
        Request::Report => (report(counter), Session::Gathering(gathered)),
        Request::Distance(agent, cell) => {
            (distance(counter, agent, cell), Session::Gathering(gathered))
        }
        Request::Solves(kinds) => (solves(counter, kinds), Session::Gathering(gathered)),
        Request::Ask(inquiry) => {
            (
                inquire(counter, inquiry, waiting),
                Session::Gathering(gathered),
            )
        }
    }
}

// The reply to a request, and where the session then is.
pub(crate) fn obey<C: Counter, P: Waiting<C>>(
    alloc: Global,
    session: Session,
    counter: &mut C,
    number: u32,
    request: Request,
    waiting: &P,
) -> (Reply, Session)
    ensures { MayObey C.counting number session counter.old request result.0 result.1 counter.new }
{
    match session {
        Session::Idle => obey_idle(alloc, counter, number, request, waiting),
        Session::Gathering(gathered) => {
            obey_gathering(alloc, counter, number, gathered, request, waiting)
        }
    }
}

// The reply to a line in that version, and where the session then is.
pub(crate) fn answer<C: Counter, P: Waiting<C>>(
    alloc: Global,
    version: LinesVersion,
    waiting: &P,
    session: Session,
    counter: &mut C,
    number: u32,
    line: &[u8],
) -> (Reply, Session)
    ensures { answering_in version C.counting (session, counter.old) number line.now result.0 (result.1, counter.new) }
{
    match read_line_in(alloc, version, line) {
        Ok(request) => obey(alloc, session, counter, number, request, waiting),
        Err(LineFault::Word) => (bad(number, BadLine::Word), session),
        Err(LineFault::Shape) => (bad(number, BadLine::Shape), session),
        Err(LineFault::OutOfMemory) => (Reply::NoMemory, session),
    }
}
