//! A text in HTML, put into a sink. Nothing here takes memory, and after a failure a prefix of the
//! text went out.
#![tactic(auto, using(desk_report::proofs::Fronts::fronts))]

ghost use Rattle.std.specs.Prelude.{◌≡◌, OnOk, OnErr, is_err, ◌||◌};
ghost use Rattle.std.specs.Io.KnownBytes.{Appends};
ghost use Rattle.desk_report.specs.Bytes.{AppendsFront};
ghost use Rattle.desk_pages.specs.Pages.{escaped, escaped_byte};

use desk_report::{Sink, WriteFailed, put_all};

// A byte of a text.
fn put_byte<W: Sink>(sink: &mut W, byte: u8) -> Result<(), WriteFailed>
    ensures ok { OnOk result (Appends (W.held sink.old) (W.held sink.new) (escaped_byte byte)) }
    ensures err { OnErr result (AppendsFront (W.held sink.old) (W.held sink.new) (escaped_byte byte)) }
    ensures broken { W.broken sink.new ≡ (W.broken sink.old || is_err result) }
{
    if byte == b'&' {
        return put_all(sink, b"&amp;");
    }
    if byte == b'<' {
        return put_all(sink, b"&lt;");
    }
    if byte == b'>' {
        return put_all(sink, b"&gt;");
    }
    put_all(sink, &[byte])
}

/// Puts the text as HTML has it.
pub(crate) fn put_escaped<W: Sink>(sink: &mut W, text: &[u8]) -> Result<(), WriteFailed>
    ensures ok { OnOk result (Appends (W.held sink.old) (W.held sink.new) (escaped text.now)) }
    ensures err { OnErr result (AppendsFront (W.held sink.old) (W.held sink.new) (escaped text.now)) }
    ensures broken { W.broken sink.new ≡ (W.broken sink.old || is_err result) }
{
    for byte in text {
        put_byte(sink, *byte)?;
    }
    Ok(())
}
