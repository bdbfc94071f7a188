//! The entries of a report, as JSON.
ghost use Rattle.std.specs.Prelude.{◌≡◌, OnOk, OnErr, is_err, ◌||◌};
ghost use Rattle.std.specs.Io.KnownBytes.{Appends};
ghost use Rattle.desk_report.specs.Bytes.{AppendsFront, Puts};
ghost use Rattle.solver_check.specs.JsonTexts.{cycle_front, cycle_json, entry_json, moves_json, pair_json};

use crate::checks::json::lists::{Told, put_items, put_words};
use desk_report::{Sink, Word, WriteFailed, put_all};
use grid_cells::{Agent, Cell, Step};
use mapf_rules::Conflict;

// Two agents in one cell, or one that follows the other into it.
fn put_pair<W: Sink>(
    sink: &mut W,
    kind: &[u8],
    time: Step,
    agents: (Agent, Agent),
    cell: Cell,
) -> Result<(), WriteFailed>
    ensures { Puts W.held W.broken sink.old sink.new result (pair_json kind.now time agents.0 agents.1 cell) }
{
    let words = [
        Word::Text(b"{\"kind\":\""),
        Word::Text(kind),
        Word::Text(b"\",\"time\":"),
        Word::time(time),
        Word::Text(b",\"agents\":["),
        Word::agent(agents.0),
        Word::Text(b","),
        Word::agent(agents.1),
        Word::Text(b"],\"cells\":[["),
        Word::At(cell),
        Word::Text(b"]]}"),
    ];
    put_words(sink, &words)
}

// Two agents that move between two cells.
fn put_moves<W: Sink>(
    sink: &mut W,
    kind: &[u8],
    time: Step,
    agents: (Agent, Agent),
    cells: (Cell, Cell),
) -> Result<(), WriteFailed>
    ensures { Puts W.held W.broken sink.old sink.new result (moves_json kind.now time agents.0 agents.1 cells.0 cells.1) }
{
    let words = [
        Word::Text(b"{\"kind\":\""),
        Word::Text(kind),
        Word::Text(b"\",\"time\":"),
        Word::time(time),
        Word::Text(b",\"agents\":["),
        Word::agent(agents.0),
        Word::Text(b","),
        Word::agent(agents.1),
        Word::Text(b"],\"cells\":[["),
        Word::At(cells.0),
        Word::Text(b"],["),
        Word::At(cells.1),
        Word::Text(b"]]}"),
    ];
    put_words(sink, &words)
}

// What stands before the agents of a cycle.
fn put_time<W: Sink>(sink: &mut W, time: Step) -> Result<(), WriteFailed>
    ensures { Puts W.held W.broken sink.old sink.new result (cycle_front time) }
{
    let words = [
        Word::Text(b"{\"kind\":\"cycle\",\"time\":"),
        Word::time(time),
        Word::Text(b",\"agents\":["),
    ];
    put_words(sink, &words)
}

// A cycle: its time, and the agents in their order.
#[tactic(auto, using(desk_report::proofs::Fronts::fronts))]
fn put_cycle<W: Sink>(sink: &mut W, time: Step, ring: &[Agent]) -> Result<(), WriteFailed>
    ensures ok { OnOk result (Appends (W.held sink.old) (W.held sink.new) (cycle_json time ring.now)) }
    ensures err { OnErr result (AppendsFront (W.held sink.old) (W.held sink.new) (cycle_json time ring.now)) }
    ensures broken { W.broken sink.new ≡ (W.broken sink.old || is_err result) }
{
    put_time(sink, time)?;
    put_items(sink, ring)?;
    put_all(sink, b"],\"cells\":[]}")
}

impl Told for Conflict {
    ghost json = { entry_json };

    fn put_json<W: Sink>(&self, sink: &mut W) -> Result<(), WriteFailed> {
        match self {
            Conflict::Vertex {
                time,
                first,
                second,
                cell,
            } => put_pair(sink, b"vertex", *time, (*first, *second), *cell),
            Conflict::Parked {
                time,
                first,
                second,
                cell,
            } => put_pair(sink, b"parked", *time, (*first, *second), *cell),
            Conflict::Edge {
                time,
                first,
                second,
                cell,
                next,
            } => put_moves(sink, b"edge", *time, (*first, *second), (*cell, *next)),
            Conflict::Following {
                time,
                follower,
                leader,
                cell,
            } => put_pair(sink, b"follow", *time, (*follower, *leader), *cell),
            Conflict::Swapping {
                time,
                first,
                second,
                cell,
                other,
            } => put_moves(sink, b"swap", *time, (*first, *second), (*cell, *other)),
            Conflict::Cycle { time, ring } => put_cycle(sink, *time, ring.items()),
        }
    }
}
