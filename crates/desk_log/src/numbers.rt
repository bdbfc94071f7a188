//! Numbers and cells at the front of a text, spelled as they are written.
ghost use Rattle.std.specs.Prelude.{◌≡◌, ◌<◌, ◌≤◌, ◌+◌, ◌++◌, ◌∷◌, decimal, IfSome};
ghost use Rattle.grid_cells.specs.Cell.{Point};
ghost use Rattle.desk_report.specs.LineText.{cell_text};
ghost use Rattle.journal_text.specs.Ranges.{IsCell};

use grid_cells::MOST_SIDE;

/// A number that is as large has more digits than are looked at.
const MANY: u64 = 100_000_000_000_000_000;

/// The first byte of a text, and what stands behind it.
pub(crate) fn first_of(text: &[u8]) -> Option<(u8, &[u8])>
    ensures { IfSome result (λ r. text.now ≡ r.0 ∷ r.1.now) }
{
    match text.split_first() {
        Some((byte, rest)) => Some((*byte, rest)),
        None => None,
    }
}

/// What stands behind that byte, with which the text begins.
pub(crate) fn behind_byte(text: &[u8], byte: u8) -> Option<&[u8]>
    ensures { IfSome result (λ rest. text.now ≡ byte ∷ rest.now) }
{
    let (first, rest) = first_of(text)?;
    if first == byte { Some(rest) } else { None }
}

// The digit that a text begins with, as a number, and what stands behind it.
fn digit(text: &[u8]) -> Option<(u64, &[u8])>
    ensures { IfSome result (λ r. (r.0 < 10) × (text.now ≡ (48 + r.0) ∷ r.1.now)) }
{
    let (byte, rest) = first_of(text)?;
    if byte.is_ascii_digit() {
        Some((u64::from(byte - b'0'), rest))
    } else {
        None
    }
}

// A number, of whose digits the first is that one and no zero, and the text has the others; and what
// stands behind them.
#[tactic(auto, using(crate::proofs::Spelled::more_digits))]
fn digits_behind(first: u64, text: &[u8]) -> Option<(u64, &[u8])>
    requires some { 0 < first }
    requires single { first < 10 }
    ensures { IfSome result (λ r. decimal first ++ text.now ≡ decimal r.0 ++ r.1.now) }
{
    let mut value = first;
    let mut rest = text;
    'digits: while let Some((last, behind)) = digit(rest) {
        if value >= MANY {
            return None;
        }
        value = value * 10 + last;
        rest = behind;
    }
    Some((value, rest))
}

#[tactic(auto, using(crate::proofs::Spelled::one_digit))]
// The number that a text begins with, and what stands behind it.
fn number(text: &[u8]) -> Option<(u64, &[u8])>
    ensures { IfSome result (λ r. text.now ≡ decimal r.0 ++ r.1.now) }
{
    let (first, rest) = digit(text)?;
    if first == 0 {
        return Some((first, rest));
    }
    let (value, after) = digits_behind(first, rest)?;
    Some((value, after))
}

// The number that a text begins with, where it is at most that, and what stands behind it.
fn number_within(text: &[u8], most: u64) -> Option<(u64, &[u8])>
    ensures { IfSome result (λ r. (r.0 ≤ most) × (text.now ≡ decimal r.0 ++ r.1.now)) }
{
    let (value, rest) = number(text)?;
    if value <= most {
        Some((value, rest))
    } else {
        None
    }
}

/// The number behind a space, where it is at most that, and what stands behind it.
pub(crate) fn next_number(text: &[u8], most: u64) -> Option<(u64, &[u8])>
    ensures { IfSome result (λ r. (r.0 ≤ most) × (text.now ≡ 32 ∷ (decimal r.0 ++ r.1.now))) }
{
    let word = behind_byte(text, b' ')?;
    let (value, rest) = number_within(word, most)?;
    Some((value, rest))
}

/// What stands behind a space and a cell.
pub(crate) fn next_cell(text: &[u8]) -> Option<&[u8]>
    ensures { IfSome result (λ rest. (cell : Point) × IsCell cell × (text.now ≡ 32 ∷ (cell_text cell ++ rest.now))) }
{
    let most = u64::from(MOST_SIDE) - 1;
    let word = behind_byte(text, b' ')?;
    let (column, comma) = number_within(word, most)?;
    let after = behind_byte(comma, b',')?;
    let (row, rest) = number_within(after, most)?;
    Some(rest)
}
