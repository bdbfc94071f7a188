#![tactic(auto, using(desk_report::proofs::Fronts::fronts))]

ghost use Rattle.std.specs.Prelude.{◌≡◌, OnOk, OnErr, is_err, ◌||◌};
ghost use Rattle.std.specs.Io.KnownBytes.{Appends};
ghost use Rattle.bench_reader.specs.MapSpelling.{map_spelling};
ghost use Rattle.desk_report.specs.Bytes.{AppendsFront};
ghost use Rattle.desk_pages.specs.Pages.{name_if, kind_names, mode_name, front_text, scene_block, report_block, closing_text, page_text};

use crate::courses::put_scene;
use crate::titles::put_escaped;
use desk_report::{Kinds, Report, Sink, WriteFailed, put_all, write_report};
use plan_table::Mode;
use scene_edits::Scene;

/// What a page has beside a scene and its report.
#[derive(Clone, Copy)]
pub struct Page<'a> {
    /// The page's title, any text.
    pub title: &'a [u8],
    /// The kinds of conflicts that the page's verdict goes by.
    pub kinds: Kinds,
    /// What stands between the title and the scene, as HTML has it.
    pub looks: &'a [u8],
    /// The script that shows the page.
    pub script: &'a [u8],
}

// The name, where it is wanted.
fn name_if(wanted: bool, name: &[u8]) -> &[u8]
    ensures { result.now ≡ name_if wanted name.now }
{
    if wanted { name } else { b"" }
}

// Puts the name, where it is wanted.
fn put_name<W: Sink>(sink: &mut W, wanted: bool, name: &[u8]) -> Result<(), WriteFailed>
    ensures ok { OnOk result (Appends (W.held sink.old) (W.held sink.new) (name_if wanted name.now)) }
    ensures err { OnErr result (AppendsFront (W.held sink.old) (W.held sink.new) (name_if wanted name.now)) }
    ensures broken { W.broken sink.new ≡ (W.broken sink.old || is_err result) }
{
    put_all(sink, name_if(wanted, name))
}

// The kinds, each behind a space.
fn put_kinds<W: Sink>(sink: &mut W, kinds: Kinds) -> Result<(), WriteFailed>
    ensures ok { OnOk result (Appends (W.held sink.old) (W.held sink.new) (kind_names kinds)) }
    ensures err { OnErr result (AppendsFront (W.held sink.old) (W.held sink.new) (kind_names kinds)) }
    ensures broken { W.broken sink.new ≡ (W.broken sink.old || is_err result) }
{
    put_name(sink, kinds.vertex, b" vertex")?;
    put_name(sink, kinds.edge, b" edge")?;
    put_name(sink, kinds.follow, b" follow")?;
    put_name(sink, kinds.swap, b" swap")?;
    put_name(sink, kinds.cycle, b" cycle")
}

fn mode_name(mode: Mode) -> &'static [u8]
    ensures { result.now ≡ mode_name mode }
{
    match mode {
        Mode::Stay => b"stay",
        Mode::Disappear => b"disappear",
    }
}

fn put_mode<W: Sink>(sink: &mut W, mode: Mode) -> Result<(), WriteFailed>
    ensures ok { OnOk result (Appends (W.held sink.old) (W.held sink.new) (mode_name mode)) }
    ensures err { OnErr result (AppendsFront (W.held sink.old) (W.held sink.new) (mode_name mode)) }
    ensures broken { W.broken sink.new ≡ (W.broken sink.old || is_err result) }
{
    put_all(sink, mode_name(mode))
}

// What stands before the scene.
fn put_front<W: Sink>(sink: &mut W, page: &Page) -> Result<(), WriteFailed>
    ensures ok { OnOk result (Appends (W.held sink.old) (W.held sink.new) (front_text page.now)) }
    ensures err { OnErr result (AppendsFront (W.held sink.old) (W.held sink.new) (front_text page.now)) }
    ensures broken { W.broken sink.new ≡ (W.broken sink.old || is_err result) }
{
    put_all(
        sink,
        b"<!doctype html>\n<html lang='en'>\n<head>\n<meta charset='utf-8'>\n<title>",
    )?;
    put_escaped(sink, page.title)?;
    put_all(sink, b"</title>\n")?;
    put_all(sink, page.looks)
}

// The block of the scene.
fn put_scene_block<W: Sink>(sink: &mut W, map: &[u8], scene: &Scene) -> Result<(), WriteFailed>
    requires { map.now ≡ map_spelling scene.now.grid }
    ensures ok { OnOk result (Appends (W.held sink.old) (W.held sink.new) (scene_block scene.now)) }
    ensures err { OnErr result (AppendsFront (W.held sink.old) (W.held sink.new) (scene_block scene.now)) }
    ensures broken { W.broken sink.new ≡ (W.broken sink.old || is_err result) }
{
    put_all(sink, b"<script type='text/plain' id='scene' data-mode='")?;
    put_mode(sink, scene.mode())?;
    put_all(sink, b"'>")?;
    put_scene(sink, map, scene)?;
    put_all(sink, b"</script>\n")
}

// The block of the report, with the kinds that the page's verdict goes by.
fn put_report_block<W: Sink>(sink: &mut W, kinds: Kinds, report: &Report) -> Result<(), WriteFailed>
    ensures ok { OnOk result (Appends (W.held sink.old) (W.held sink.new) (report_block kinds report.now)) }
    ensures err { OnErr result (AppendsFront (W.held sink.old) (W.held sink.new) (report_block kinds report.now)) }
    ensures broken { W.broken sink.new ≡ (W.broken sink.old || is_err result) }
{
    put_all(sink, b"<script type='text/plain' id='report' data-solves='")?;
    put_kinds(sink, kinds)?;
    put_all(sink, b"'>")?;
    write_report(report, sink)?;
    put_all(sink, b"</script>\n")
}

// What stands behind the report.
fn put_end<W: Sink>(sink: &mut W, script: &[u8]) -> Result<(), WriteFailed>
    ensures ok { OnOk result (Appends (W.held sink.old) (W.held sink.new) (closing_text script.now)) }
    ensures err { OnErr result (AppendsFront (W.held sink.old) (W.held sink.new) (closing_text script.now)) }
    ensures broken { W.broken sink.new ≡ (W.broken sink.old || is_err result) }
{
    put_all(sink, b"<script>\n")?;
    put_all(sink, script)?;
    put_all(sink, b"</script>\n</body>\n</html>\n")
}

/// Writes the page of the scene, whose map's text is handed in, and of the report: one HTML
/// document (WHATWG HTML) that has the text of each in one piece. It takes no memory.
///
/// # Errors
///
/// The sink failed, or took no byte: a prefix of the page went out.
pub fn write_page<W: Sink>(
    sink: &mut W,
    page: &Page,
    map: &[u8],
    scene: &Scene,
    report: &Report,
) -> Result<(), WriteFailed>
    requires { map.now ≡ map_spelling scene.now.grid }
    ensures ok { OnOk result (Appends (W.held sink.old) (W.held sink.new) (page_text page.now scene.now report.now)) }
    ensures err { OnErr result (AppendsFront (W.held sink.old) (W.held sink.new) (page_text page.now scene.now report.now)) }
    ensures broken { W.broken sink.new ≡ (W.broken sink.old || is_err result) }
{
    put_front(sink, page)?;
    put_scene_block(sink, map, scene)?;
    put_report_block(sink, page.kinds, report)?;
    put_end(sink, page.script)
}
