//! The signs of entries, visits and agents.
#![tactic(auto, using(crate::proofs::Growth::growths))]

ghost use Rattle.std.specs.Prelude.{OnOk, ◌≡◌, ◌||◌, is_err};
ghost use Rattle.desk_pictures.specs.Growth.{Grows};

use crate::pieces::{Piece, Written, put_filled, put_letters};
use crate::sheet::Sheet;
use desk_report::Sink;

const SIGNS: &[u8] = b"\
<g id='v'><circle class='back' r='.6'/><circle class='sign ring' r='.6'/></g>
<g id='p'><path class='back' d='M-.56-.56H.56V.56H-.56z'/><path class='sign ring' d='M-.56-.56H.56V.56H-.56z'/></g>
<g id='e'><path class='back' d='M-.5-.17H.5M-.5.17H.5'/><path class='sign' d='M-.5-.17H.5M-.5.17H.5'/></g>
<g id='d'><path class='back' d='M-.17-.5V.5M.17-.5V.5'/><path class='sign' d='M-.17-.5V.5M.17-.5V.5'/></g>
<g id='f'><path class='back' d='M0-.7L.6.36H-.6z'/><path class='soft' d='M0-.7L.6.36H-.6z'/></g>
<path id='s' class='solid' d='M-.1-.32V.32L-.58 0zM.1-.32V.32L.58 0z'/>
<path id='t' class='solid' d='M-.32-.1H.32L0-.58zM-.32.1H.32L0 .58z'/>
<g id='c'><path class='back' d='M.5 0A.5.5 0 1 1 0-.5'/><path class='sign' d='M.5 0A.5.5 0 1 1 0-.5'/><path class='solid' d='M0-.8L.42-.5L0-.2z'/></g>
<g id='x'><path class='back' d='M-.4-.4L.4.4M-.4.4L.4-.4'/><path class='shut' d='M-.4-.4L.4.4M-.4.4L.4-.4'/></g>
<pattern id='X' width='1' height='1' viewBox='-.5 -.5 1 1'><use href='#x'/></pattern>
<circle id='a' class='body' r='.38'/>
<circle id='o' class='spot' r='.2'/>
<path id='g' class='spot' d='M-.32-.32H.32V.32H-.32z'/>
";

// The signs of the map, each beside the sign of the key that it is in another size.
const SIZED: &[(&[u8], &[u8])] = &[
    (b"V", b"v"),
    (b"P", b"p"),
    (b"E", b"e"),
    (b"D", b"d"),
    (b"F", b"f"),
    (b"S", b"s"),
    (b"T", b"t"),
    (b"C", b"c"),
    (b"body", b"a"),
    (b"start", b"o"),
    (b"goal", b"g"),
];

/// Puts the signs that the key shows, and those of the map, in its size; a visit's is a pattern that fills its mark.
pub(crate) fn put_signs<W: Sink>(sink: &mut W, sheet: Sheet) -> Written
    ensures ok { OnOk result (Grows (W.held sink.old) (W.held sink.new)) }
    ensures broken { W.broken sink.new ≡ (W.broken sink.old || is_err result) }
{
    put_letters(sink, SIGNS)?;
    for (name, sign) in SIZED {
        let pieces = [Piece::Text(name), sheet.part(100), Piece::Text(sign)];
        put_filled(
            sink,
            b"<g id='~' transform='scale(~)'><use href='#~'/></g>\n",
            &pieces,
        )?;
    }
    Ok(())
}
