//! The text of a scene, put into a sink. Nothing here takes memory, and after a failure a prefix
//! of the text went out.
#![tactic(auto, using(desk_report::proofs::Fronts::fronts))]

ghost use Rattle.std.specs.Prelude.{◌≡◌, OnOk, OnErr, is_err, ◌||◌};
ghost use Rattle.std.specs.List.{flat_map};
ghost use Rattle.std.specs.Io.KnownBytes.{Appends};
ghost use Rattle.desk_report.specs.Bytes.{AppendsFront};
ghost use Rattle.bench_reader.specs.MapSpelling.{map_spelling};
ghost use Rattle.desk_pages.specs.SceneText.{cells_text, course_line, ends_of, row_text, scene_text};

use desk_report::{Sink, Word, WriteFailed, put_all, put_next};
use grid_cells::{Agent, Cell};
use plan_table::{Plans, Row};
use scene_edits::Scene;

// Cells, each behind a space.
fn put_cells<W: Sink>(sink: &mut W, cells: &[Cell]) -> Result<(), WriteFailed>
    ensures ok { OnOk result (Appends (W.held sink.old) (W.held sink.new) (cells_text cells.now)) }
    ensures err { OnErr result (AppendsFront (W.held sink.old) (W.held sink.new) (cells_text cells.now)) }
    ensures broken { W.broken sink.new ≡ (W.broken sink.old || is_err result) }
{
    for cell in cells {
        put_next(sink, &Word::At(*cell))?;
    }
    Ok(())
}

// The line of a name, an agent and cells.
fn put_course<W: Sink>(
    sink: &mut W,
    name: &[u8],
    agent: Agent,
    cells: &[Cell],
) -> Result<(), WriteFailed>
    ensures ok { OnOk result (Appends (W.held sink.old) (W.held sink.new) (course_line name.now agent cells.now)) }
    ensures err { OnErr result (AppendsFront (W.held sink.old) (W.held sink.new) (course_line name.now agent cells.now)) }
    ensures broken { W.broken sink.new ≡ (W.broken sink.old || is_err result) }
{
    put_all(sink, name)?;
    put_next(sink, &Word::agent(agent))?;
    put_cells(sink, cells)?;
    put_all(sink, b"\n")
}

// Where the agent's path begins, and its goal.
fn ends_of(row: &Row) -> [Cell; 2]
    ensures { result ≡ ends_of row.now }
{
    [row.plan.cells()[0], row.goal]
}

// An agent's lines: one with where its path begins and its goal, one with its path.
fn put_row<W: Sink>(sink: &mut W, agent: Agent, row: &Row) -> Result<(), WriteFailed>
    ensures ok { OnOk result (Appends (W.held sink.old) (W.held sink.new) (row_text (agent, row.now))) }
    ensures err { OnErr result (AppendsFront (W.held sink.old) (W.held sink.new) (row_text (agent, row.now))) }
    ensures broken { W.broken sink.new ≡ (W.broken sink.old || is_err result) }
{
    put_course(sink, b"agent", agent, &ends_of(row))?;
    put_course(sink, b"path", agent, row.plan.cells())
}

// The lines of the agents, in their order.
fn put_rows<W: Sink>(sink: &mut W, plans: &Plans) -> Result<(), WriteFailed>
    ensures ok { OnOk result (Appends (W.held sink.old) (W.held sink.new) (flat_map row_text plans.now.rows)) }
    ensures err { OnErr result (AppendsFront (W.held sink.old) (W.held sink.new) (flat_map row_text plans.now.rows)) }
    ensures broken { W.broken sink.new ≡ (W.broken sink.old || is_err result) }
{
    for rank in 0..plans.count() {
        let entry = plans.entry_at(rank);
        put_row(sink, entry.0, entry.1)?;
    }
    Ok(())
}

/// Puts the text of the scene, whose map's text is handed in.
pub(crate) fn put_scene<W: Sink>(sink: &mut W, map: &[u8], scene: &Scene) -> Result<(), WriteFailed>
    requires { map.now ≡ map_spelling scene.now.grid }
    ensures ok { OnOk result (Appends (W.held sink.old) (W.held sink.new) (scene_text scene.now)) }
    ensures err { OnErr result (AppendsFront (W.held sink.old) (W.held sink.new) (scene_text scene.now)) }
    ensures broken { W.broken sink.new ≡ (W.broken sink.old || is_err result) }
{
    put_all(sink, map)?;
    put_rows(sink, scene.plans())
}
