ghost use Rattle.std.specs.Prelude.{◌≡◌, ◌≤◌, drop, length, MatchResult, IfOk};
ghost use Rattle.bench_reader.specs.Lines.{lines_of};
ghost use Rattle.bench_reader.specs.Words.{words_of};
ghost use Rattle.bench_reader.specs.MapText.{is_title, is_marker, labelled, HasSize};
ghost use Rattle.bench_reader.specs.MapFaults.{IsMapFault};
ghost use Rattle.bench_reader.specs.Announced.{rows_announced};

use crate::lines::first_line;
use crate::maps::MapFault;
use crate::words::{next_word, number_of, two_words};
use grid_cells::{MOST_SIDE, Size};

/// The size that the first four lines give, and the text behind them.
pub(crate) fn read_header(text: &[u8]) -> Result<(Size, &[u8]), MapFault>
    ensures answer { MatchResult result
        (λ r. HasSize (lines_of text.now) r.0 × (lines_of r.1.now ≡ drop 4 (lines_of text.now)))
        (IsMapFault (lines_of text.now)) }
    ensures shorter { IfOk result (λ r. length r.1.now ≤ length text.now) }
{
    let (title, rest) = first_line(text);
    if !is_title(title) {
        return Err(MapFault::NotOctile);
    }
    let (line, rest) = first_line(rest);
    let Some(height) = labelled(b"height", line) else {
        return Err(MapFault::BadHeader { line: 2 });
    };
    let (line, rest) = first_line(rest);
    let Some(width) = labelled(b"width", line) else {
        return Err(MapFault::BadHeader { line: 3 });
    };
    let (line, rest) = first_line(rest);
    if !is_marker(line) {
        return Err(MapFault::BadHeader { line: 4 });
    }
    match Size::new(width, height) {
        Some(size) => Ok((size, rest)),
        None => Err(MapFault::BadSize),
    }
}

/// How many rows lines 2 to 4 announce, as a header of a height that a map may have. Line 1 isn't
/// looked at. Where they are no such header, 0.
pub fn rows_announced(text: &[u8]) -> u32
    ensures is { result ≡ rows_announced (lines_of text.now) }
    ensures bound { result ≤ MOST_SIDE }
{
    let (_, rest) = first_line(text);
    let (second, rest) = first_line(rest);
    let (third, rest) = first_line(rest);
    let (fourth, _) = first_line(rest);
    if !is_marker(fourth) {
        return 0;
    }
    match (labelled(b"height", second), labelled(b"width", third)) {
        (Some(height), Some(_)) if height <= MOST_SIDE => height,
        _ => 0,
    }
}

// Whether the line is `type octile`.
fn is_title(line: &[u8]) -> bool
    ensures { result ≡ is_title (words_of line.now) }
{
    match two_words(line) {
        Some((first, second)) => first == b"type".as_slice() && second == b"octile".as_slice(),
        None => false,
    }
}

// Whether the line is `map`.
fn is_marker(line: &[u8]) -> bool
    ensures { result ≡ is_marker (words_of line.now) }
{
    match next_word(line) {
        Some((word, rest)) => word == b"map".as_slice() && next_word(rest).is_none(),
        None => false,
    }
}

// The number behind the label, where the line has these two words alone.
fn labelled(label: &[u8], line: &[u8]) -> Option<u32>
    ensures { result ≡ labelled label.now (words_of line.now) }
{
    match two_words(line) {
        Some((word, number)) if word == label => number_of(number),
        _ => None,
    }
}
