#![tactic(auto, using(crate::proofs::Growth::growths))]

ghost use Rattle.std.specs.Prelude.{OnOk, ◌≡◌, ◌||◌, is_err};
ghost use Rattle.desk_pictures.specs.Growth.{Grows, GrowsAround};
ghost use Rattle.desk_pictures.specs.Marks.{findings_text};

use crate::frames::Frame;
use crate::ground::put_ground;
use crate::legend::{put_legend, put_title};
use crate::marks::put_findings;
use crate::movers::put_movers;
use crate::pieces::{Written, put_letters};
use crate::rings::put_rings;
use crate::routes::put_routes;
use crate::rulers::put_rulers;
use crate::sheet::Sheet;
use crate::styles::put_styles;
use desk_report::{Report, Sink, WriteFailed};
use scene_edits::Scene;

// The most agents that show their numbers.
const MOST_NUMBERED: u32 = 100;

// What stands before all drawings.
fn put_head<W: Sink>(sink: &mut W, sheet: Sheet, scene: &Scene) -> Written
    ensures ok { OnOk result (Grows (W.held sink.old) (W.held sink.new)) }
    ensures broken { W.broken sink.new ≡ (W.broken sink.old || is_err result) }
{
    sheet.put_first(sink)?;
    put_title(sink, scene)?;
    put_styles(sink, sheet, scene.plans().count() > MOST_NUMBERED)?;
    put_rulers(sink, sheet, scene.grid().size())?;
    sheet.put_map(sink, scene.grid().size())
}

// What is under the marks: cells, paths, rings and agents.
fn put_scenery<W: Sink>(sink: &mut W, scene: &Scene, report: &Report, frame: &Frame) -> Written
    ensures ok { OnOk result (Grows (W.held sink.old) (W.held sink.new)) }
    ensures broken { W.broken sink.new ≡ (W.broken sink.old || is_err result) }
{
    let plans = scene.plans();
    put_ground(sink, scene.grid())?;
    put_letters(sink, b"<g id='routes'>\n")?;
    put_routes(sink, frame, plans)?;
    put_letters(sink, b"</g>\n<g id='rings'>\n")?;
    put_rings(sink, scene, report, frame)?;
    put_letters(sink, b"</g>\n<g id='agents'>\n")?;
    put_movers(sink, frame, plans, scene.mode())?;
    put_letters(sink, b"</g>\n")
}

/// Writes the picture of the scene. It has a mark for each blocked visit and each entry of the
/// report, in the report's order, titled by the report's line. It takes no memory.
///
/// # Errors
///
/// The sink failed; nothing is said of what went out.
#[tactic(auto, using(crate::proofs::Growth::around))]
pub fn write_picture<W: Sink>(
    sink: &mut W,
    scene: &Scene,
    report: &Report,
    frame: &Frame,
) -> Result<(), WriteFailed>
    ensures ok { OnOk result (GrowsAround (W.held sink.old) (W.held sink.new) (findings_text frame.now.at scene.now report.now)) }
    ensures broken { W.broken sink.new ≡ (W.broken sink.old || is_err result) }
{
    let sheet = Sheet::new(scene.grid().size());
    put_head(sink, sheet, scene)?;
    put_scenery(sink, scene, report, frame)?;
    put_findings(sink, scene, report, frame)?;
    put_legend(sink, sheet, scene, report, frame)
}
