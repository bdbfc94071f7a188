//! How a verdict is written.
ghost use Rattle.std.specs.Prelude.{◌≡◌, OnOk, OnErr, is_err, ◌||◌};
ghost use Rattle.std.specs.Io.KnownBytes.{Appends};
ghost use Rattle.desk_report.specs.Bytes.{AppendsFront};
ghost use Rattle.solver_check.specs.Styles.{in_style, written_in};

use crate::checks::json::{Counts, put_json};
use crate::checks::judging::Verdict;
use crate::checks::texts::put_check;
use crate::checks::turning::turn;
use desk_report::{Kinds, Sink, WriteFailed};
use std::alloc::Global;

/// How a verdict is written.
#[derive(Clone, Copy)]
pub struct Style {
    /// As one JSON object, and else in lines.
    pub is_json: bool,
    /// Its cells in the order of coordinates of the text of paths, and else as column and row.
    pub own_cells: bool,
}

/// Lines, with cells as column and row.
pub(crate) const LINES: Style = Style {
    is_json: false,
    own_cells: false,
};

/// The verdict as it is written, where the text of paths has rows first or not.
pub(crate) fn set_style(alloc: Global, style: Style, rows_first: bool, verdict: &mut Verdict)
    ensures { verdict.new ≡ in_style style rows_first verdict.old }
{
    if style.own_cells && rows_first {
        turn(alloc, verdict);
    }
}

/// Writes the verdict, of whose report there are so many of each, whole or quiet.
///
/// # Errors
/// The sink failed, or took no byte: a prefix of the text went out.
pub(crate) fn put_in<W: Sink>(
    sink: &mut W,
    style: Style,
    quiet: bool,
    kinds: Kinds,
    counts: Counts,
    verdict: &Verdict,
) -> Result<(), WriteFailed>
    ensures ok { OnOk result (Appends (W.held sink.old) (W.held sink.new) (written_in style quiet kinds counts verdict.now)) }
    ensures err { OnErr result (AppendsFront (W.held sink.old) (W.held sink.new) (written_in style quiet kinds counts verdict.now)) }
    ensures broken { W.broken sink.new ≡ (W.broken sink.old || is_err result) }
{
    if style.is_json {
        put_json(sink, quiet, kinds, counts, verdict)
    } else {
        put_check(sink, quiet, verdict)
    }
}
