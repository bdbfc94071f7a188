//! Pieces of a picture's text, put into a sink. Nothing here takes memory.
#![tactic(auto, using(crate::proofs::Growth::growths))]

ghost use Rattle.std.specs.Prelude.{◌≡◌, ◌%◌, ◌==◌, if◌then◌else◌, [], OnOk, codes, ◌||◌, is_err};
ghost use Rattle.std.specs.List.{flat_map};
ghost use Rattle.std.specs.Io.KnownBytes.{Appends};
ghost use Rattle.desk_pictures.specs.Growth.{Grows};
ghost use Rattle.desk_pictures.specs.Pieces.{piece_text, half_text, thousandths_text, seconds_text};

use desk_report::{Sink, WriteFailed, put_all, put_given, put_number};

/// What it comes to when something is put into a sink.
pub(crate) type Written = Result<(), WriteFailed>;

/// A piece of the text. No piece has a quote, a bracket or an ampersand but those of a text.
#[derive(Clone, Copy)]
pub(crate) enum Piece<'a> {
    /// These letters, as they are.
    Text(&'a [u8]),
    /// A number in decimal digits.
    Number(u64),
    /// A number of 32 bits, likewise.
    Count(u32),
    /// A number, or `none`.
    Given(Option<u64>),
    /// Half of the number, as `3` or `3.5`.
    Half(u64),
    /// A thousandth of the number, as `0.160`.
    Thousandths(u64),
    /// The seconds at which that time comes, of 0.4 for each step, as `1.2`.
    Seconds(u32),
}

/// Puts the piece.
pub(crate) fn put_piece<W: Sink>(sink: &mut W, piece: &Piece) -> Written
    ensures ok { OnOk result (Appends (W.held sink.old) (W.held sink.new) (piece_text piece.now)) }
    ensures broken { W.broken sink.new ≡ (W.broken sink.old || is_err result) }
{
    match piece {
        Piece::Text(letters) => put_all(sink, letters),
        Piece::Number(number) => put_number(sink, *number),
        Piece::Count(number) => put_number(sink, u64::from(*number)),
        Piece::Given(number) => put_given(sink, *number),
        Piece::Half(number) => put_half(sink, *number),
        Piece::Thousandths(number) => put_thousandths(sink, *number),
        Piece::Seconds(time) => put_seconds(sink, *time),
    }
}

/// Puts the pieces, one behind the other.
#[tactic(auto, using(crate::proofs::Growth::texts))]
pub(crate) fn put_pieces<W: Sink>(sink: &mut W, pieces: &[Piece]) -> Written
    ensures ok { OnOk result (Appends (W.held sink.old) (W.held sink.new) (flat_map piece_text pieces.now)) }
    ensures broken { W.broken sink.new ≡ (W.broken sink.old || is_err result) }
{
    for piece in pieces {
        put_piece(sink, piece)?;
    }
    Ok(())
}

/// Puts the pieces, one behind the other.
pub(crate) fn put_some<W: Sink>(sink: &mut W, pieces: &[Piece]) -> Written
    ensures ok { OnOk result (Grows (W.held sink.old) (W.held sink.new)) }
    ensures broken { W.broken sink.new ≡ (W.broken sink.old || is_err result) }
{
    put_pieces(sink, pieces)
}

/// Puts the letters.
pub(crate) fn put_letters<W: Sink>(sink: &mut W, letters: &[u8]) -> Written
    ensures ok { OnOk result (Grows (W.held sink.old) (W.held sink.new)) }
    ensures broken { W.broken sink.new ≡ (W.broken sink.old || is_err result) }
{
    put_all(sink, letters)
}

// What stands before the text's first tilde, and what behind it.
fn parted(text: &[u8]) -> (&[u8], &[u8]) {
    match text.iter().position(|letter| *letter == b'~') {
        Some(at) => (&text[..at], &text[at + 1..]),
        None => (text, b""),
    }
}

/// Puts the text, with a piece in place of each tilde.
pub(crate) fn put_filled<W: Sink>(sink: &mut W, text: &[u8], pieces: &[Piece]) -> Written
    ensures ok { OnOk result (Grows (W.held sink.old) (W.held sink.new)) }
    ensures broken { W.broken sink.new ≡ (W.broken sink.old || is_err result) }
{
    let mut rest = text;
    for piece in pieces {
        let (before, behind) = parted(rest);
        put_all(sink, before)?;
        put_piece(sink, piece)?;
        rest = behind;
    }
    put_letters(sink, rest)
}

fn put_half<W: Sink>(sink: &mut W, number: u64) -> Written
    ensures ok { OnOk result (Appends (W.held sink.old) (W.held sink.new) (half_text number)) }
    ensures broken { W.broken sink.new ≡ (W.broken sink.old || is_err result) }
{
    put_number(sink, number / 2)?;
    put_all(sink, half_of(number))
}

// What stands behind half of the number's whole part.
fn half_of(number: u64) -> &'static [u8]
    ensures { result.now ≡ (if number % 2 == 0 then [] else codes ".5") }
{
    if number % 2 == 0 { b"" } else { b".5" }
}

fn put_thousandths<W: Sink>(sink: &mut W, number: u64) -> Written
    ensures ok { OnOk result (Appends (W.held sink.old) (W.held sink.new) (thousandths_text number)) }
    ensures broken { W.broken sink.new ≡ (W.broken sink.old || is_err result) }
{
    put_number(sink, number / 1_000)?;
    put_all(sink, b".")?;
    put_number(sink, number / 100 % 10)?;
    put_number(sink, number / 10 % 10)?;
    put_number(sink, number % 10)
}

// A step takes 0.4 seconds.
fn put_seconds<W: Sink>(sink: &mut W, time: u32) -> Written
    ensures ok { OnOk result (Appends (W.held sink.old) (W.held sink.new) (seconds_text time)) }
    ensures broken { W.broken sink.new ≡ (W.broken sink.old || is_err result) }
{
    let tenths = u64::from(time) * 4;
    put_number(sink, tenths / 10)?;
    put_all(sink, b".")?;
    put_number(sink, tenths % 10)
}
