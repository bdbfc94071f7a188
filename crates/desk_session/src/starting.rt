ghost use Rattle.std.specs.Prelude.{◌≡◌, ◌+◌, ◌||◌};
ghost use Rattle.session_protocol.specs.Start.{Starts, is_read_fault, is_write_fault};
ghost use Rattle.session_protocol.specs.Reads.{ReadsUntil, TakesAtMost};

use bench_reader::read_map;
use desk_core::{Desk, Limit, Scene};
use desk_report::{Sink, Source};
use plan_table::Mode;
use session_protocol::{Bounds, StartFault, hear_map, serve};
use std::alloc::Global;

/// Reads a map, and serves the rest of the input as a session over the desk of that map, on which
/// no agent is, in that mode. Answers how many lines the session had.
///
/// # Errors
///
/// The map's fault, or the first fault of reading and writing. Where the session does not begin,
/// nothing is written.
pub fn serve_with_map<R: Source, W: Sink>(
    alloc: Global,
    reader: &mut R,
    writer: &mut W,
    limit: Limit,
    mode: Mode,
    bounds: Bounds,
) -> Result<u32, StartFault>
    ensures session { Starts (R.left reader.old) (R.left reader.new) (W.held writer.old) (W.held writer.new) bounds mode limit result }
    ensures reads { ReadsUntil R.gives reader.old reader.new (is_read_fault result) }
    ensures bounded { TakesAtMost R.gives (bounds.bytes + 1) reader.old reader.new }
    ensures failed { R.failed reader.new ≡ (R.failed reader.old || is_read_fault result) }
    ensures broken { W.broken writer.new ≡ (W.broken writer.old || is_write_fault result) }
{
    let text = match hear_map(alloc, reader, bounds.bytes) {
        Ok(text) => text,
        Err(fault) => return Err(StartFault::Serve(fault)),
    };
    let grid = match read_map(alloc, text.as_slice()) {
        Ok(grid) => grid,
        Err(fault) => return Err(StartFault::Map(fault)),
    };
    let mut desk = Desk::open(alloc, Scene::bare(alloc, grid).with_mode(mode), limit);
    let rest = Bounds {
        lines: bounds.lines,
        bytes: bounds.bytes - text.len() as u64,
    };
    match serve(alloc, &mut desk, reader, writer, rest) {
        Ok(lines) => {
            drop(desk);
            Ok(lines)
        }
        Err(fault) => {
            drop(desk);
            Err(StartFault::Serve(fault))
        }
    }
}
