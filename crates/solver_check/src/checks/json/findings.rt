//! What is wrong with paths, and where their text differs from the problem, as JSON.
ghost use Rattle.desk_report.specs.Bytes.{Puts};
ghost use Rattle.solver_check.specs.JsonTexts.{counted_json, difference_json, listed_json, wrong_cell_json, wrong_cells_json, wrong_json};

use crate::checks::differences::Difference;
use crate::checks::json::lists::{Told, put_words};
use crate::checks::wrongs::Wrong;
use desk_report::{Sink, Word, WriteFailed};
use grid_cells::{Agent, Cell};

// An agent whose path is wrong in that cell.
fn put_cell<W: Sink>(
    sink: &mut W,
    agent: Agent,
    time: usize,
    why: &[u8],
    cell: Cell,
) -> Result<(), WriteFailed>
    ensures { Puts W.held W.broken sink.old sink.new result (wrong_cell_json agent time why.now cell) }
{
    let words = [
        Word::Text(b"{\"agent\":"),
        Word::agent(agent),
        Word::Text(b",\"time\":"),
        Word::Number(time as u64),
        Word::Text(b",\"why\":\""),
        Word::Text(why),
        Word::Text(b"\",\"cells\":[["),
        Word::At(cell),
        Word::Text(b"]]}"),
    ];
    put_words(sink, &words)
}

// An agent whose path is wrong in the second cell, by the first.
fn put_cells<W: Sink>(
    sink: &mut W,
    agent: Agent,
    time: usize,
    why: &[u8],
    cells: (Cell, Cell),
) -> Result<(), WriteFailed>
    ensures { Puts W.held W.broken sink.old sink.new result (wrong_cells_json agent time why.now cells.0 cells.1) }
{
    let words = [
        Word::Text(b"{\"agent\":"),
        Word::agent(agent),
        Word::Text(b",\"time\":"),
        Word::Number(time as u64),
        Word::Text(b",\"why\":\""),
        Word::Text(why),
        Word::Text(b"\",\"cells\":[["),
        Word::At(cells.0),
        Word::Text(b"],["),
        Word::At(cells.1),
        Word::Text(b"]]}"),
    ];
    put_words(sink, &words)
}

impl Told for Wrong {
    ghost json = { wrong_json };

    fn put_json<W: Sink>(&self, sink: &mut W) -> Result<(), WriteFailed> {
        match *self {
            Wrong::TooLong { agent, time, cell } => put_cell(sink, agent, time, b"too-long", cell),
            Wrong::OutOfMap { agent, time, cell } => {
                put_cell(sink, agent, time, b"out-of-map", cell)
            }
            Wrong::NotFromStart { agent, start, cell } => {
                put_cells(sink, agent, 0, b"not-from-start", (start, cell))
            }
            Wrong::NotAStep {
                agent,
                time,
                before,
                cell,
            } => put_cells(sink, agent, time, b"not-a-step", (before, cell)),
        }
    }
}

// How many of something there are, and should be.
fn put_counted<W: Sink>(
    sink: &mut W,
    what: &[u8],
    found: usize,
    due: usize,
) -> Result<(), WriteFailed>
    ensures { Puts W.held W.broken sink.old sink.new result (counted_json what.now found due) }
{
    let words = [
        Word::Text(b"{\"what\":\""),
        Word::Text(what),
        Word::Text(b"\",\"found\":"),
        Word::Number(found as u64),
        Word::Text(b",\"due\":"),
        Word::Number(due as u64),
        Word::Text(b"}"),
    ];
    put_words(sink, &words)
}

// The agent's cell in a list, and its due one.
fn put_listed<W: Sink>(
    sink: &mut W,
    list: &[u8],
    agent: Agent,
    cells: (Cell, Cell),
) -> Result<(), WriteFailed>
    ensures { Puts W.held W.broken sink.old sink.new result (listed_json list.now agent cells.0 cells.1) }
{
    let words = [
        Word::Text(b"{\"what\":\""),
        Word::Text(list),
        Word::Text(b"\",\"agent\":"),
        Word::agent(agent),
        Word::Text(b",\"found\":["),
        Word::At(cells.0),
        Word::Text(b"],\"due\":["),
        Word::At(cells.1),
        Word::Text(b"]}"),
    ];
    put_words(sink, &words)
}

impl Told for Difference {
    ghost json = { difference_json };

    fn put_json<W: Sink>(&self, sink: &mut W) -> Result<(), WriteFailed> {
        match *self {
            Difference::Paths { paths, agents } => put_counted(sink, b"paths", paths, agents),
            Difference::Agents { listed, agents } => {
                put_counted(sink, b"agents", listed as usize, agents)
            }
            Difference::Starts { listed, paths } => put_counted(sink, b"starts", listed, paths),
            Difference::Goals { listed, paths } => put_counted(sink, b"goals", listed, paths),
            Difference::Start { agent, listed, due } => {
                put_listed(sink, b"starts", agent, (listed, due))
            }
            Difference::Goal { agent, listed, due } => {
                put_listed(sink, b"goals", agent, (listed, due))
            }
        }
    }
}
