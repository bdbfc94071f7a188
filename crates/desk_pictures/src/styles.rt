//! Colours, widths and sizes. The colours are those of Okabe and Ito, which people with colour
//! blindness tell apart.
#![tactic(auto, using(crate::proofs::Growth::growths))]

ghost use Rattle.std.specs.Prelude.{OnOk, ◌≡◌, ◌||◌, is_err};
ghost use Rattle.desk_pictures.specs.Growth.{Grows};

use crate::pieces::{Piece, Written, put_letters, put_some};
use crate::sheet::Sheet;
use crate::signs::put_signs;
use desk_report::Sink;

const COLOURS: &[u8] = b"\
<style>
text{font-family:sans-serif}
.floor{fill:#fff;stroke:#999;stroke-width:.04}
.net{fill:url(#net)}
.thread{fill:none;stroke:#ddd;stroke-width:.03}
.wall{fill:none;stroke:#444;stroke-width:1;shape-rendering:crispEdges}
.back{fill:none;stroke:#fff;stroke-width:.24;stroke-linejoin:round}
.sign{fill:none;stroke:#d55e00;stroke-width:.14}
.ring{fill:#d55e00;fill-opacity:.12}
.solid{fill:#d55e00;stroke:#fff;stroke-width:.08}
.soft{fill:none;stroke:#000;stroke-width:.1;stroke-linejoin:round}
.shut{fill:none;stroke:#000;stroke-width:.16}
.body{fill:currentColor;stroke:#fff;stroke-width:.06}
.spot{fill:#fff;stroke:currentColor;stroke-width:.12}
#routes path,#rings path{fill:none;stroke-linejoin:round;stroke-linecap:round}
#routes path{stroke:currentColor}
#rings path{stroke:#d55e00}
#entries>g,#rings path{opacity:.2}
#visits rect{fill:url(#X);opacity:.5}
#entries .lit,#visits .lit,#rings .lit{opacity:1}
#agents text{text-anchor:middle;dominant-baseline:central;fill:#fff}
#agents .c1 text,#agents .c3 text,#agents .c4 text{fill:#000}
#rulers text{font-size:13px;fill:#666;text-anchor:middle}
#rulers .n{text-anchor:end;dominant-baseline:central}
#key text{font-size:17px;fill:#222}
#key .n{text-anchor:end;font-weight:bold}
#key .none{fill:#999;opacity:.6}
#key .head{font-size:18px;font-weight:bold}
#key .good{font-size:20px;font-weight:bold;fill:#007a5a}
#key .bad{font-size:20px;font-weight:bold;fill:#b84f00}
";

// What goes by the size of signs, in its hundredths, each behind its text: how far agents of a
// colour are beside the others, the widths and patterns of lines, and the size of visits' marks,
// whose middles are to be where their cells' are.
const LENGTHS: &[(&[u8], u32)] = &[
    (b".c0{color:#0072b2;transform:translate(-", 16),
    (b"px,-", 16),
    (b"px)}\n.c1{color:#e69f00;transform:translate(", 16),
    (b"px,", 16),
    (b"px)}\n.c2{color:#009e73;transform:translate(", 0),
    (b"px,", 0),
    (b"px)}\n.c3{color:#cc79a7;transform:translate(-", 8),
    (b"px,-", 8),
    (b"px)}\n.c4{color:#56b4e9;transform:translate(", 8),
    (b"px,", 8),
    (b"px)}\n#routes path{stroke-width:", 14),
    (b"}\n#routes .d1 path{stroke-dasharray:", 60),
    (b" ", 40),
    (b"}\n#routes .d2 path{stroke-dasharray:0 ", 30),
    (b"}\n#routes .d3 path{stroke-dasharray:", 80),
    (b" ", 30),
    (b" 0 ", 30),
    (b"}\n#routes .lack{stroke-width:", 5),
    (b";stroke-dasharray:", 5),
    (b" ", 15),
    (b"}\n#rings path{stroke-width:", 8),
    (b"}\n#agents text{font-size:", 38),
    (b"px}\n#visits{transform:translate(-", 50),
    (b"px,-", 50),
    (b"px)}\n#visits rect{width:", 100),
    (b"px;height:", 100),
];

fn put_lengths<W: Sink>(sink: &mut W, sheet: Sheet) -> Written
    ensures ok { OnOk result (Grows (W.held sink.old) (W.held sink.new)) }
    ensures broken { W.broken sink.new ≡ (W.broken sink.old || is_err result) }
{
    for (text, hundredths) in LENGTHS {
        put_some(sink, &[Piece::Text(text), sheet.part(*hundredths)])?;
    }
    put_letters(sink, b"px}\n")
}

// The rule that hides the numbers of many agents.
fn numbering(many: bool) -> &'static [u8] {
    if many {
        b"#agents text{display:none}\n"
    } else {
        b""
    }
}

/// Puts the styles, and the signs that the marks use. Where there are many agents, their numbers
/// are told by their titles alone.
pub(crate) fn put_styles<W: Sink>(sink: &mut W, sheet: Sheet, many: bool) -> Written
    ensures ok { OnOk result (Grows (W.held sink.old) (W.held sink.new)) }
    ensures broken { W.broken sink.new ≡ (W.broken sink.old || is_err result) }
{
    put_letters(sink, COLOURS)?;
    put_lengths(sink, sheet)?;
    put_letters(sink, numbering(many))?;
    put_letters(sink, b"</style>\n<defs>\n")?;
    put_signs(sink, sheet)?;
    put_letters(sink, b"</defs>\n")
}
