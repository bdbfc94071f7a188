//! The lines of what is wrong with paths, and of where their text differs from the problem.
ghost use Rattle.std.specs.Prelude.{◌≡◌, ◌||◌, is_err, OnErr, OnOk};
ghost use Rattle.std.specs.List.{flat_map};
ghost use Rattle.std.specs.Io.KnownBytes.{Appends};
ghost use Rattle.desk_report.specs.Bytes.{AppendsFront, Puts};
ghost use Rattle.solver_check.specs.FindingTexts.{cell_line, cells_line, counted_line, difference_line, listed_line, repeated_line, wrong_line};

use crate::checks::differences::Difference;
use crate::checks::wrongs::Wrong;
use desk_report::{Sink, Word, WriteFailed, put_line};
use grid_cells::{Agent, Cell};

// The line of an agent whose path is wrong in that cell.
fn put_cell<W: Sink>(
    sink: &mut W,
    agent: Agent,
    time: usize,
    why: &[u8],
    cell: Cell,
) -> Result<(), WriteFailed>
    ensures { Puts W.held W.broken sink.old sink.new result (cell_line agent time why.now cell) }
{
    let words = [
        Word::agent(agent),
        Word::Number(time as u64),
        Word::Text(why),
        Word::At(cell),
    ];
    put_line(sink, b"wrong", &words)
}

// The line of an agent whose path is wrong in the second cell, by the first.
fn put_cells<W: Sink>(
    sink: &mut W,
    agent: Agent,
    time: usize,
    why: &[u8],
    cells: (Cell, Cell),
) -> Result<(), WriteFailed>
    ensures { Puts W.held W.broken sink.old sink.new result (cells_line agent time why.now cells.0 cells.1) }
{
    let words = [
        Word::agent(agent),
        Word::Number(time as u64),
        Word::Text(why),
        Word::At(cells.0),
        Word::At(cells.1),
    ];
    put_line(sink, b"wrong", &words)
}

// The line of an agent whose path isn't one.
fn put_wrong<W: Sink>(sink: &mut W, wrong: Wrong) -> Result<(), WriteFailed>
    ensures { Puts W.held W.broken sink.old sink.new result (wrong_line wrong) }
{
    match wrong {
        Wrong::TooLong { agent, time, cell } => put_cell(sink, agent, time, b"too-long", cell),
        Wrong::OutOfMap { agent, time, cell } => put_cell(sink, agent, time, b"out-of-map", cell),
        Wrong::NotFromStart { agent, start, cell } => {
            put_cells(sink, agent, 0, b"not-from-start", (start, cell))
        }
        Wrong::NotAStep {
            agent,
            time,
            before,
            cell,
        } => put_cells(sink, agent, time, b"not-a-step", (before, cell)),
    }
}

/// Writes a line for each agent whose path isn't one.
///
/// # Errors
/// The sink failed, or took no byte: a prefix of the text went out.
#[tactic(auto, using(desk_report::proofs::Fronts::fronts))]
pub(crate) fn put_wrongs<W: Sink>(sink: &mut W, wrongs: &[Wrong]) -> Result<(), WriteFailed>
    ensures ok { OnOk result (Appends (W.held sink.old) (W.held sink.new) (flat_map wrong_line wrongs.now)) }
    ensures err { OnErr result (AppendsFront (W.held sink.old) (W.held sink.new) (flat_map wrong_line wrongs.now)) }
    ensures broken { W.broken sink.new ≡ (W.broken sink.old || is_err result) }
{
    for wrong in wrongs {
        put_wrong(sink, *wrong)?;
    }
    Ok(())
}

/// Writes the line of the text that has a list for the second time.
///
/// # Errors
/// The sink failed, or took no byte: a prefix of the text went out.
pub(crate) fn put_repeated<W: Sink>(sink: &mut W, line: usize) -> Result<(), WriteFailed>
    ensures { Puts W.held W.broken sink.old sink.new result (repeated_line line) }
{
    put_line(
        sink,
        b"differs",
        &[Word::Text(b"line"), Word::Number(line as u64)],
    )
}

// The line of the agent's cell in a list, and of its due one.
fn put_listed<W: Sink>(
    sink: &mut W,
    list: &[u8],
    agent: Agent,
    cells: (Cell, Cell),
) -> Result<(), WriteFailed>
    ensures { Puts W.held W.broken sink.old sink.new result (listed_line list.now agent cells.0 cells.1) }
{
    let words = [
        Word::Text(list),
        Word::agent(agent),
        Word::At(cells.0),
        Word::At(cells.1),
    ];
    put_line(sink, b"differs", &words)
}

// The line of how many of something there are, and should be.
fn put_counted<W: Sink>(
    sink: &mut W,
    what: &[u8],
    found: usize,
    due: usize,
) -> Result<(), WriteFailed>
    ensures { Puts W.held W.broken sink.old sink.new result (counted_line what.now found due) }
{
    let words = [
        Word::Text(what),
        Word::Number(found as u64),
        Word::Number(due as u64),
    ];
    put_line(sink, b"differs", &words)
}

// The line of a difference.
fn put_difference<W: Sink>(sink: &mut W, difference: Difference) -> Result<(), WriteFailed>
    ensures { Puts W.held W.broken sink.old sink.new result (difference_line difference) }
{
    match difference {
        Difference::Paths { paths, agents } => put_counted(sink, b"paths", paths, agents),
        Difference::Agents { listed, agents } => {
            put_counted(sink, b"agents", listed as usize, agents)
        }
        Difference::Starts { listed, paths } => put_counted(sink, b"starts", listed, paths),
        Difference::Goals { listed, paths } => put_counted(sink, b"goals", listed, paths),
        Difference::Start { agent, listed, due } => {
            put_listed(sink, b"starts", agent, (listed, due))
        }
        Difference::Goal { agent, listed, due } => put_listed(sink, b"goals", agent, (listed, due)),
    }
}

/// Writes a line for each difference.
///
/// # Errors
/// The sink failed, or took no byte: a prefix of the text went out.
#[tactic(auto, using(desk_report::proofs::Fronts::fronts))]
pub(crate) fn put_differences<W: Sink>(
    sink: &mut W,
    differences: &[Difference],
) -> Result<(), WriteFailed>
    ensures ok { OnOk result (Appends (W.held sink.old) (W.held sink.new) (flat_map difference_line differences.now)) }
    ensures err { OnErr result (AppendsFront (W.held sink.old) (W.held sink.new) (flat_map difference_line differences.now)) }
    ensures broken { W.broken sink.new ≡ (W.broken sink.old || is_err result) }
{
    for difference in differences {
        put_difference(sink, *difference)?;
    }
    Ok(())
}
