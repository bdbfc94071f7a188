//! A planner's session between two files.
ghost use Rattle.std.specs.Prelude.{◌≡◌, false, true};
ghost use Rattle.solver_check.specs.Inputs.{untold_input};
ghost use Rattle.solver_check.specs.Seats.{IsHeard, Sits, StopsKeeping};

use crate::sending::send_last;
use crate::short_lines::ShortLines;
use crate::streams::{Answers, Lines, Outlet};
use crate::whole_lines::WholeLines;
use desk_core::Awaits;
use desk_report::{Sink, Source, Spout};
use session_protocol::{Keeper, LinesVersion, ServeFault, serve_kept};
use solver_check::{Outcome, SEAT_BOUNDS, SeatFault};
use std::alloc::Global;
use std::cell::RefCell;
use std::io::{BufWriter, Read, Write};

/// Serves a session in that version of lines from a reader to a writer, both buffered. What was answered
/// goes out before more is read, and at the end; what a line did is kept before it is answered. An input
/// that ends within a line is broken off, and so is a line that is too long: that line isn't answered.
///
/// # Errors
///
/// The session's fault, with the system's reason where there is one; or want of memory, and nothing
/// was heard.
pub(crate) fn sit_between<C: Awaits, K: Keeper<C>, I: Read + Drop, O: Write + Drop>(
    alloc: Global,
    version: LinesVersion,
    keeper: &mut K,
    counter: &mut C,
    input: I,
    output: O,
) -> Outcome
    requires { K.has_failed keeper.old ≡ false }
    ensures sat { Sits C.counting (untold_input version) counter.old counter.new result }
    ensures kept { K.has_failed keeper.new ≡ false → K.keeps keeper.old counter.old → K.keeps keeper.new counter.new }
    ensures unkept { K.has_failed keeper.new ≡ true → StopsKeeping C.counting (untold_input version) counter.old counter.new
        (λ told. K.keeps keeper.old counter.old → K.keeps_some keeper.new told counter.new) }
{
    match BufWriter::new(alloc, output) {
        Ok(buffered) => sit_buffered(alloc, version, keeper, counter, input, buffered),
        Err(_) => {
            drop(input);
            Err(SeatFault::OutOfMemory)
        }
    }
}

// Serves a session from a reader to a writer in a buffer, which goes out at the end.
fn sit_buffered<C: Awaits, K: Keeper<C>, I: Read + Drop, O: Write + Drop>(
    alloc: Global,
    version: LinesVersion,
    keeper: &mut K,
    counter: &mut C,
    input: I,
    buffered: BufWriter<O>,
) -> Outcome
    requires { K.has_failed keeper.old ≡ false }
    ensures sat { Sits C.counting (untold_input version) counter.old counter.new result }
    ensures kept { K.has_failed keeper.new ≡ false → K.keeps keeper.old counter.old → K.keeps keeper.new counter.new }
    ensures unkept { K.has_failed keeper.new ≡ true → StopsKeeping C.counting (untold_input version) counter.old counter.new
        (λ told. K.keeps keeper.old counter.old → K.keeps_some keeper.new told counter.new) }
{
    let outlet = RefCell::new(Outlet::new(buffered));
    let ended = match Lines::new(alloc, input, &outlet) {
        Ok(lines) => hear_out(alloc, version, keeper, counter, lines, &outlet),
        Err(_) => Err(SeatFault::OutOfMemory),
    };
    drop(outlet);
    ended
}

// Serves a session of lines to an outlet, and sends the last answers.
fn hear_out<C: Awaits, K: Keeper<C>, R: Source + Drop, O: Write + Drop>(
    alloc: Global,
    version: LinesVersion,
    keeper: &mut K,
    counter: &mut C,
    lines: R,
    outlet: &RefCell<Outlet<O>>,
) -> Outcome
    requires { K.has_failed keeper.old ≡ false }
    ensures sat { Sits C.counting (untold_input version) counter.old counter.new result }
    ensures kept { K.has_failed keeper.new ≡ false → K.keeps keeper.old counter.old → K.keeps keeper.new counter.new }
    ensures unkept { K.has_failed keeper.new ≡ true → StopsKeeping C.counting (untold_input version) counter.old counter.new
        (λ told. K.keeps keeper.old counter.old → K.keeps_some keeper.new told counter.new) }
{
    let mut lines = WholeLines::new(ShortLines::new(lines));
    let mut answers = Spout::new(Answers::new(outlet));
    let ended = hear(alloc, version, keeper, counter, &mut lines, &mut answers);
    let is_too_long = lines.into_inner().is_cut();
    let (sent, unread) = send_last(outlet);
    match (ended, sent) {
        (_, Err(why)) => Err(SeatFault::Unsent(why)),
        (Err(ServeFault::ReadFailed), Ok(())) if is_too_long => Err(SeatFault::LineTooLong),
        (Err(fault), Ok(())) => Err(SeatFault::Session(fault, unread)),
        (Ok(lines), Ok(())) => Ok(lines),
    }
}

// Serves a session of lines between a source and a sink.
fn hear<C: Awaits, K: Keeper<C>, R: Source, W: Sink>(
    alloc: Global,
    version: LinesVersion,
    keeper: &mut K,
    counter: &mut C,
    reader: &mut R,
    writer: &mut W,
) -> Result<u32, ServeFault>
    requires { K.has_failed keeper.old ≡ false }
    ensures heard { IsHeard C.counting (untold_input version) counter.old counter.new result }
    ensures kept { K.has_failed keeper.new ≡ false → K.keeps keeper.old counter.old → K.keeps keeper.new counter.new }
    ensures unkept { K.has_failed keeper.new ≡ true → StopsKeeping C.counting (untold_input version) counter.old counter.new
        (λ told. K.keeps keeper.old counter.old → K.keeps_some keeper.new told counter.new) }
{
    let ended = serve_kept(alloc, version, keeper, counter, reader, writer, SEAT_BOUNDS);
    ended
}
