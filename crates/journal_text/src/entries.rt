//! The lines of an entry, put into a sink.
ghost use Rattle.std.specs.Prelude.{◌≡◌, ◌<◌, ◌≤◌, ◌^◌, ◌∷◌, length, map, All, OnOk, OnErr, is_err, ◌||◌};
ghost use Rattle.std.specs.Io.KnownBytes.{Appends};
ghost use Rattle.desk_report.specs.Bytes.{AppendsFront};
ghost use Rattle.desk_report.specs.LineText.{line_text, cell_text};
ghost use Rattle.desk_report.specs.Words.{word_text};
ghost use Rattle.grid_cells.specs.declared.numbers.TheConstants.{MOST_AGENT};
ghost use Rattle.journal_text.specs.Ranges.{IsCell, IsThing, IsEdit, IsEntry};
ghost use Rattle.journal_text.specs.Lines.{watch_words, edit_words, entry_lines, route_line, text_of};
ghost use Rattle.journal_text.specs.Begun.{IsHead, head_words};

use crate::places::Head;
use crate::written::{Written, put_each};
use desk_commits::Commit;
use desk_report::{Sink, Word, WriteFailed, put_all, put_line, put_more, put_next};
use grid_cells::{Agent, Cell, Step};
use scene_edits::{Edit, Thing};

// The word of an agent.
fn agent_word<'a>(agent: Agent) -> Word<'a>
    ensures is { result ≡ Word.Number agent }
    ensures lawful { agent ≤ MOST_AGENT }
{
    Word::agent(agent)
}

// The word of a time.
fn time_word<'a>(time: Step) -> Word<'a>
    ensures is { result ≡ Word.Number time }
    ensures lawful { time < 2 ^ 32 }
{
    Word::time(time)
}

// The word of a cell.
fn cell_word<'a>(cell: Cell) -> Word<'a>
    ensures is { result ≡ Word.At cell }
    ensures lawful { IsCell cell }
{
    Word::At(cell)
}

impl Written for Cell {
    ghost text = { λ cell. 32 ∷ cell_text cell };

    ghost lawful = { IsCell };

    fn put_into<W: Sink>(&self, sink: &mut W) -> Result<(), WriteFailed> {
        put_next(sink, &cell_word(*self))
    }
}

// A line of a name, some words and cells.
#[tactic(auto, using(desk_report::proofs::Fronts::fronts))]
fn put_route<W: Sink>(
    sink: &mut W,
    name: &[u8],
    words: &[Word],
    cells: &[Cell],
) -> Result<(), WriteFailed>
    ensures ok { OnOk result (Appends (W.held sink.old) (W.held sink.new) (route_line name.now (map word_text words.now) cells.now)) }
    ensures err { OnErr result (AppendsFront (W.held sink.old) (W.held sink.new) (route_line name.now (map word_text words.now) cells.now)) }
    ensures broken { W.broken sink.new ≡ (W.broken sink.old || is_err result) }
    ensures lawful { OnOk result (All IsCell cells.now) }
{
    put_all(sink, name)?;
    put_more(sink, words)?;
    put_each(sink, cells)?;
    put_all(sink, b"\n")
}

impl Written for Thing {
    ghost text = { λ thing. line_text (watch_words thing) };

    ghost lawful = { IsThing };

    fn put_into<W: Sink>(&self, sink: &mut W) -> Result<(), WriteFailed> {
        match self {
            Thing::Agent(agent) => put_line(sink, b"watch agent", &[agent_word(*agent)]),
            Thing::Cell(cell) => put_line(sink, b"watch cell", &[cell_word(*cell)]),
            Thing::Map => put_all(sink, b"watch map\n"),
        }
    }
}

impl Written for Edit {
    ghost text = { λ edit. line_text (edit_words edit) };

    ghost lawful = { IsEdit };

    fn put_into<W: Sink>(&self, sink: &mut W) -> Result<(), WriteFailed> {
        match self {
            Edit::Add { agent, start, goal } => put_line(
                sink,
                b"agent",
                &[agent_word(*agent), cell_word(*start), cell_word(*goal)],
            ),
            Edit::Drop { agent } => put_line(sink, b"drop", &[agent_word(*agent)]),
            Edit::Goal { agent, goal } => {
                put_line(sink, b"goal", &[agent_word(*agent), cell_word(*goal)])
            }
            Edit::Path { agent, cells } => {
                put_route(sink, b"path", &[agent_word(*agent)], cells.items())
            }
            Edit::Tail { agent, from, cells } => put_route(
                sink,
                b"tail",
                &[agent_word(*agent), time_word(*from)],
                cells.items(),
            ),
            Edit::Open { cell } => put_line(sink, b"open", &[cell_word(*cell)]),
            Edit::Close { cell } => put_line(sink, b"close", &[cell_word(*cell)]),
        }
    }
}

/// Puts the first line of an entry.
pub(crate) fn put_head<W: Sink>(sink: &mut W, head: &Head) -> Result<(), WriteFailed>
    ensures ok { OnOk result (Appends (W.held sink.old) (W.held sink.new) (line_text (head_words head.now))) }
    ensures err { OnErr result (AppendsFront (W.held sink.old) (W.held sink.new) (line_text (head_words head.now))) }
    ensures broken { W.broken sink.new ≡ (W.broken sink.old || is_err result) }
{
    let words = [
        Word::Number(u64::from(head.planner.number())),
        Word::Number(head.base),
        Word::Number(head.watches as u64),
        Word::Number(head.edits as u64),
    ];
    put_line(sink, b"entry", &words)
}

// The numbers of an entry.
fn head_of(commit: &Commit) -> Head
    ensures is { result ≡ record { planner = commit.now.planner; base = commit.now.base; watches = length commit.now.watch; edits = length commit.now.edits } }
    ensures lawful { IsHead result }
{
    Head {
        planner: commit.planner(),
        base: commit.base(),
        watches: commit.watch().len(),
        edits: commit.edits().len(),
    }
}

impl Written for Commit {
    ghost text = { λ entry. text_of (entry_lines entry) };

    ghost lawful = { IsEntry };

    #[tactic(auto, using(desk_report::proofs::Fronts::fronts))]
    fn put_into<W: Sink>(&self, sink: &mut W) -> Result<(), WriteFailed> {
        let head = head_of(self);
        let watch = self.watch();
        let edits = self.edits();
        put_head(sink, &head)?;
        put_each(sink, watch)?;
        put_each(sink, edits)
    }
}
