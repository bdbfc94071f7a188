ghost use Rattle.desk_report.specs.Bytes.{Puts};
ghost use Rattle.desk_report.specs.EntryText.{entry_line, pair_line, moves_line};

use crate::bytes::{Sink, WriteFailed};
use crate::text::cycles::put_cycle;
use crate::text::listed::Listed;
use crate::words::{Word, put_line};
use grid_cells::{Agent, Cell, Step};
use mapf_rules::Conflict;

// The line of two agents in one cell, or of one that follows the other into it.
fn put_pair<W: Sink>(
    sink: &mut W,
    kind: &[u8],
    time: Step,
    agents: (Agent, Agent),
    cell: Cell,
) -> Result<(), WriteFailed>
    ensures { Puts W.held W.broken sink.old sink.new result (pair_line kind.now time agents.0 agents.1 cell) }
{
    let words = [
        Word::time(time),
        Word::agent(agents.0),
        Word::agent(agents.1),
        Word::At(cell),
    ];
    put_line(sink, kind, &words)
}

// The line of two agents that move between two cells.
fn put_moves<W: Sink>(
    sink: &mut W,
    kind: &[u8],
    time: Step,
    agents: (Agent, Agent),
    cells: (Cell, Cell),
) -> Result<(), WriteFailed>
    ensures { Puts W.held W.broken sink.old sink.new result (moves_line kind.now time agents.0 agents.1 cells.0 cells.1) }
{
    let words = [
        Word::time(time),
        Word::agent(agents.0),
        Word::agent(agents.1),
        Word::At(cells.0),
        Word::At(cells.1),
    ];
    put_line(sink, kind, &words)
}

/// Puts the entry's line: its kind, its time in steps, its agents, and its cells as column and row.
pub fn put_entry<W: Sink>(sink: &mut W, entry: &Conflict) -> Result<(), WriteFailed>
    ensures { Puts W.held W.broken sink.old sink.new result (entry_line entry.now) }
{
    match entry {
        Conflict::Vertex {
            time,
            first,
            second,
            cell,
        } => put_pair(sink, b"vertex", *time, (*first, *second), *cell),
        Conflict::Parked {
            time,
            first,
            second,
            cell,
        } => put_pair(sink, b"parked", *time, (*first, *second), *cell),
        Conflict::Edge {
            time,
            first,
            second,
            cell,
            next,
        } => put_moves(sink, b"edge", *time, (*first, *second), (*cell, *next)),
        Conflict::Following {
            time,
            follower,
            leader,
            cell,
        } => put_pair(sink, b"follow", *time, (*follower, *leader), *cell),
        Conflict::Swapping {
            time,
            first,
            second,
            cell,
            other,
        } => put_moves(sink, b"swap", *time, (*first, *second), (*cell, *other)),
        Conflict::Cycle { time, ring } => put_cycle(sink, *time, ring.items()),
    }
}

impl Listed for Conflict {
    ghost line = { entry_line };

    fn put_into<W: Sink>(&self, sink: &mut W) -> Result<(), WriteFailed> {
        put_entry(sink, self)
    }
}
