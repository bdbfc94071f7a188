ghost use Rattle.std.specs.Prelude.{◌≡◌, ◌+◌, [], Err, IfErr, ◌||◌, false, true};
ghost use Rattle.session_protocol.specs.Answer.{answering_in};
ghost use Rattle.session_protocol.specs.Keeping.{StopsUnkept};
ghost use Rattle.session_protocol.specs.Reads.{ReadsWithin};
ghost use Rattle.session_protocol.specs.Session.{IsAnswered, IsNextByte, Serves, is_read_failed, is_write_failed};

use crate::answers::answer;
use crate::bounds::{Bounds, ServeFault};
use crate::drafts::Session;
use crate::keeping::Keeper;
use crate::waiting::Waiting;
use crate::writers::put_reply;
use desk_core::Counter;
use desk_report::{Sink, Source, WriteFailed};
use session_lines::LinesVersion;
use std::alloc::Global;
use std::mem;

/// Answers the line, keeps what it did, and puts the reply.
pub(crate) fn answer_line<C: Counter, P: Waiting<C>, K: Keeper<C>, W: Sink>(
    alloc: Global,
    version: LinesVersion,
    waiting: &P,
    keeper: &mut K,
    session: &mut Session,
    counter: &mut C,
    number: u32,
    line: &[u8],
    writer: &mut W,
) -> Result<(), ServeFault>
    requires sound { K.has_failed keeper.old ≡ false }
    ensures answered { IsAnswered (answering_in version C.counting) (session.old, counter.old) number line.now
        (W.held writer.old) (W.held writer.new) result (session.new, counter.new) }
    ensures unwritten { IfErr result (λ fault. fault ≡ ServeFault.WriteFailed) }
    ensures broken { K.has_failed keeper.new ≡ false → W.broken writer.new ≡ (W.broken writer.old || is_write_failed result) }
    ensures kept { K.has_failed keeper.new ≡ false → K.keeps keeper.old counter.old → K.keeps keeper.new counter.new }
    ensures silent { K.has_failed keeper.new ≡ true
        → (result ≡ Err ServeFault.WriteFailed) × (W.held writer.new ≡ W.held writer.old) × (W.broken writer.new ≡ W.broken writer.old) }
    ensures left { K.has_failed keeper.new ≡ true → K.keeps keeper.old counter.old → K.keeps_some keeper.new counter.old counter.new }
{
    let before = mem::replace(session, Session::Idle);
    let (reply, next) = answer(alloc, version, waiting, before, counter, number, line);
    *session = next;
    if keeper.keep(counter).is_err() {
        drop(reply);
        return Err(ServeFault::WriteFailed);
    }
    let put = put_reply(writer, &reply);
    drop(reply);
    match put {
        Ok(()) => Ok(()),
        Err(WriteFailed) => Err(ServeFault::WriteFailed),
    }
}

// The next byte, or none at the end of the input, after so many whole lines and bytes.
fn next_within<R: Source>(
    reader: &mut R,
    bounds: Bounds,
    lines: u32,
    bytes: u64,
) -> Result<Option<u8>, ServeFault>
    ensures next { IsNextByte (R.left reader.old) (R.left reader.new) bounds lines bytes result }
    ensures read { ReadsWithin R.gives 1 reader.old reader.new (is_read_failed result) }
    ensures failed { R.failed reader.new ≡ (R.failed reader.old || is_read_failed result) }
{
    let next = match reader.next_byte() {
        Ok(next) => next,
        Err(_) => return Err(ServeFault::ReadFailed),
    };
    if next.is_some() {
        if lines >= bounds.lines {
            return Err(ServeFault::TooManyLines);
        }
        if bytes >= bounds.bytes {
            return Err(ServeFault::TooManyBytes);
        }
    }
    Ok(next)
}

/// Serves the session from where it is, before the first byte of a line.
pub(crate) fn serve_lines<C: Counter, P: Waiting<C>, K: Keeper<C>, R: Source, W: Sink>(
    alloc: Global,
    version: LinesVersion,
    waiting: &P,
    keeper: &mut K,
    session: &mut Session,
    line: &mut Vec<u8>,
    counter: &mut C,
    reader: &mut R,
    writer: &mut W,
    bounds: Bounds,
) -> Result<u32, ServeFault>
    requires empty { line.old.items ≡ [] }
    requires sound { K.has_failed keeper.old ≡ false }
    ensures session { Serves (answering_in version C.counting) bounds (R.left reader.old) (R.left reader.new)
        (W.held writer.old) (W.held writer.new) (session.old, counter.old) (session.new, counter.new) result }
    ensures read { ReadsWithin R.gives (bounds.bytes + 1) reader.old reader.new (is_read_failed result) }
    ensures failed { R.failed reader.new ≡ (R.failed reader.old || is_read_failed result) }
    ensures broken { K.has_failed keeper.new ≡ false → W.broken writer.new ≡ (W.broken writer.old || is_write_failed result) }
    ensures kept { K.has_failed keeper.new ≡ false → K.keeps keeper.old counter.old → K.keeps keeper.new counter.new }
    ensures silent { K.has_failed keeper.new ≡ true → (result ≡ Err ServeFault.WriteFailed) × (W.broken writer.new ≡ W.broken writer.old) }
    ensures unkept { K.has_failed keeper.new ≡ true → StopsUnkept (answering_in version C.counting) (W.held writer.old) (W.held writer.new)
        (session.old, counter.old) (session.new, counter.new) (λ told. K.keeps keeper.old counter.old → K.keeps_some keeper.new told.1 counter.new) }
{
    let mut lines: u32 = 0;
    let mut bytes: u64 = 0;
    'session: loop {
        let Some(byte) = next_within(reader, bounds, lines, bytes)? else {
            if line.is_empty() {
                return Ok(lines);
            }
            let last = line.as_slice();
            answer_line(
                alloc,
                version,
                waiting,
                keeper,
                session,
                counter,
                lines + 1,
                last,
                writer,
            )?;
            return Ok(lines + 1);
        };
        bytes += 1;
        if byte != b'\n' {
            match line.push(byte) {
                Ok(()) => {}
                Err(_) => return Err(ServeFault::OutOfMemory),
            }
        } else {
            lines += 1;
            let whole = line.as_slice();
            answer_line(
                alloc, version, waiting, keeper, session, counter, lines, whole, writer,
            )?;
            line.clear();
        }
    }
}
