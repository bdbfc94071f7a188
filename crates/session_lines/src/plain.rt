//! A cell that is written plainly at the front of a line, read in one pass over its bytes.
ghost use Rattle.std.specs.Prelude.{◌≡◌, ◌∷◌, IfSome};
ghost use Rattle.bench_reader.specs.Words.{words_of, ends_word};
ghost use Rattle.session_lines.specs.Plain.{BeginsWithPlace, BeginsWithCell};

use bench_reader::is_blank;
use grid_cells::{Cell, MOST_SIDE};

// The column or the row that the line begins with, and what stands behind its digits.
fn place_at_front(line: &[u8]) -> Option<(u32, &[u8])>
    ensures { IfSome result (λ r. BeginsWithPlace line.now r.0 r.1.now) }
{
    let mut number: u32 = 0;
    let mut rest = line;
    while let [first, tail @ ..] = rest {
        if !first.is_ascii_digit() {
            break;
        }
        number = number * 10 + u32::from(*first - b'0');
        if number >= MOST_SIDE {
            return None;
        }
        rest = tail;
    }
    if rest.len() == line.len() {
        return None;
    }
    Some((number, rest))
}

// The line without a space at its front.
fn behind_space(line: &[u8]) -> &[u8]
    ensures { words_of result.now ≡ words_of line.now }
{
    match line {
        [b' ', rest @ ..] => rest,
        _ => line,
    }
}

// What stands behind the comma that the line begins with.
fn behind_comma(line: &[u8]) -> Option<&[u8]>
    ensures { IfSome result (λ rest. line.now ≡ 44 ∷ rest.now) }
{
    match line {
        [b',', rest @ ..] => Some(rest),
        _ => None,
    }
}

// Whether a word ends before the line.
fn ends_word(line: &[u8]) -> bool
    ensures { result ≡ ends_word line.now }
{
    match line {
        [first, ..] => is_blank(*first),
        [] => true,
    }
}

/// The cell of the first word, where that stands at the front of the line or behind a space, and what
/// stands behind it; none where the word is no cell, or the line begins otherwise.
pub(crate) fn cell_at_front(line: &[u8]) -> Option<(Cell, &[u8])>
    ensures { IfSome result (λ r. BeginsWithCell line.now r.0 r.1.now) }
{
    let (x, rest) = place_at_front(behind_space(line))?;
    let (y, rest) = place_at_front(behind_comma(rest)?)?;
    if !ends_word(rest) {
        return None;
    }
    Some((Cell::new(x, y)?, rest))
}
