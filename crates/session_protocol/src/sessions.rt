//! Whole sessions.
ghost use Rattle.std.specs.Prelude.{◌≡◌, ◌+◌, Err, ◌||◌, false, true};
ghost use Rattle.session_protocol.specs.Answer.{answering, answering_in};
ghost use Rattle.session_protocol.specs.Keeping.{StopsUnkept};
ghost use Rattle.session_protocol.specs.Reads.{ReadsUntil, TakesAtMost};
ghost use Rattle.session_protocol.specs.Session.{Serves, is_read_failed, is_write_failed};

use crate::bounds::{Bounds, ServeFault};
use crate::drafts::Session;
use crate::keeping::{Keeper, Unkept};
use crate::serving::serve_lines;
use crate::waiting::{AsLong, AtOnce, Waiting};
use desk_core::{Awaits, Counter};
use desk_report::{Sink, Source};
use session_lines::LinesVersion;
use std::alloc::Global;

// Serves a session from its beginning.
fn serve_all<C: Counter, P: Waiting<C>, K: Keeper<C>, R: Source, W: Sink>(
    alloc: Global,
    version: LinesVersion,
    waiting: &P,
    keeper: &mut K,
    counter: &mut C,
    reader: &mut R,
    writer: &mut W,
    bounds: Bounds,
) -> Result<u32, ServeFault>
    requires sound { K.has_failed keeper.old ≡ false }
    ensures session { (last : Session) × Serves (answering_in version C.counting) bounds (R.left reader.old) (R.left reader.new)
        (W.held writer.old) (W.held writer.new) (Session.Idle, counter.old) (last, counter.new) result }
    ensures reads { ReadsUntil R.gives reader.old reader.new (is_read_failed result) }
    ensures bounded { TakesAtMost R.gives (bounds.bytes + 1) reader.old reader.new }
    ensures failed { R.failed reader.new ≡ (R.failed reader.old || is_read_failed result) }
    ensures broken { K.has_failed keeper.new ≡ false → W.broken writer.new ≡ (W.broken writer.old || is_write_failed result) }
    ensures kept { K.has_failed keeper.new ≡ false → K.keeps keeper.old counter.old → K.keeps keeper.new counter.new }
    ensures silent { K.has_failed keeper.new ≡ true → (result ≡ Err ServeFault.WriteFailed) × (W.broken writer.new ≡ W.broken writer.old) }
    ensures unkept { K.has_failed keeper.new ≡ true → (last : Session) × StopsUnkept (answering_in version C.counting) (W.held writer.old) (W.held writer.new)
        (Session.Idle, counter.old) (last, counter.new) (λ told. K.keeps keeper.old counter.old → K.keeps_some keeper.new told.1 counter.new) }
{
    let mut session = Session::Idle;
    let mut line: Vec<u8> = Vec::new(alloc);
    let served = serve_lines(
        alloc,
        version,
        waiting,
        keeper,
        &mut session,
        &mut line,
        counter,
        reader,
        writer,
        bounds,
    );
    drop(session);
    drop(line);
    served
}

/// Serves a session to the end of its input, and answers how many lines it had. Each line is
/// answered when it is complete.
///
/// # Errors
///
/// The first fault. The lines that were complete by then were answered; where the sink failed, the
/// last of them in part.
pub fn serve<C: Counter, R: Source, W: Sink>(
    alloc: Global,
    counter: &mut C,
    reader: &mut R,
    writer: &mut W,
    bounds: Bounds,
) -> Result<u32, ServeFault>
    ensures session { (last : Session) × Serves (answering C.counting) bounds (R.left reader.old) (R.left reader.new)
        (W.held writer.old) (W.held writer.new) (Session.Idle, counter.old) (last, counter.new) result }
    ensures reads { ReadsUntil R.gives reader.old reader.new (is_read_failed result) }
    ensures bounded { TakesAtMost R.gives (bounds.bytes + 1) reader.old reader.new }
    ensures failed { R.failed reader.new ≡ (R.failed reader.old || is_read_failed result) }
    ensures broken { W.broken writer.new ≡ (W.broken writer.old || is_write_failed result) }
{
    let first = LinesVersion::One;
    serve_all(
        alloc,
        first,
        &AtOnce,
        &mut Unkept,
        counter,
        reader,
        writer,
        bounds,
    )
}

/// Serves a session as `serve` does, in that version of lines: in version 1 just as `serve`.
///
/// # Errors
///
/// As `serve`.
pub fn serve_in<C: Awaits, R: Source, W: Sink>(
    alloc: Global,
    version: LinesVersion,
    counter: &mut C,
    reader: &mut R,
    writer: &mut W,
    bounds: Bounds,
) -> Result<u32, ServeFault>
    ensures session { (last : Session) × Serves (answering_in version C.counting) bounds (R.left reader.old) (R.left reader.new)
        (W.held writer.old) (W.held writer.new) (Session.Idle, counter.old) (last, counter.new) result }
    ensures reads { ReadsUntil R.gives reader.old reader.new (is_read_failed result) }
    ensures bounded { TakesAtMost R.gives (bounds.bytes + 1) reader.old reader.new }
    ensures failed { R.failed reader.new ≡ (R.failed reader.old || is_read_failed result) }
    ensures broken { W.broken writer.new ≡ (W.broken writer.old || is_write_failed result) }
{
    serve_all(
        alloc,
        version,
        &AsLong,
        &mut Unkept,
        counter,
        reader,
        writer,
        bounds,
    )
}

/// Serves a session as `serve_in` does, where what a line did is kept before it is answered. What the
/// counter has is kept at the beginning.
///
/// # Errors
///
/// As `serve_in`. Where what a line did could not be kept it is as where the sink failed, and of that
/// line's answer nothing went out.
pub fn serve_kept<C: Awaits, K: Keeper<C>, R: Source, W: Sink>(
    alloc: Global,
    version: LinesVersion,
    keeper: &mut K,
    counter: &mut C,
    reader: &mut R,
    writer: &mut W,
    bounds: Bounds,
) -> Result<u32, ServeFault>
    requires sound { K.has_failed keeper.old ≡ false }
    ensures session { (last : Session) × Serves (answering_in version C.counting) bounds (R.left reader.old) (R.left reader.new)
        (W.held writer.old) (W.held writer.new) (Session.Idle, counter.old) (last, counter.new) result }
    ensures reads { ReadsUntil R.gives reader.old reader.new (is_read_failed result) }
    ensures bounded { TakesAtMost R.gives (bounds.bytes + 1) reader.old reader.new }
    ensures failed { R.failed reader.new ≡ (R.failed reader.old || is_read_failed result) }
    ensures broken { K.has_failed keeper.new ≡ false → W.broken writer.new ≡ (W.broken writer.old || is_write_failed result) }
    ensures kept { K.has_failed keeper.new ≡ false → K.keeps keeper.old counter.old → K.keeps keeper.new counter.new }
    ensures silent { K.has_failed keeper.new ≡ true → (result ≡ Err ServeFault.WriteFailed) × (W.broken writer.new ≡ W.broken writer.old) }
    ensures unkept { K.has_failed keeper.new ≡ true → (last : Session) × StopsUnkept (answering_in version C.counting) (W.held writer.old) (W.held writer.new)
        (Session.Idle, counter.old) (last, counter.new) (λ told. K.keeps keeper.old counter.old → K.keeps_some keeper.new told.1 counter.new) }
{
    serve_all(
        alloc, version, &AsLong, keeper, counter, reader, writer, bounds,
    )
}
