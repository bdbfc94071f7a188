ghost use Rattle.std.specs.Prelude.{◌≡◌, ◌+◌, [], take, drop, bytes_eq, MatchOption};
ghost use Rattle.std.specs.List.{before_first, after_first, position};
ghost use Rattle.session_lines.specs.Values.{agent_of, time_named, version_named, seconds_of, place_of, cell_of, is_comma};

use bench_reader::number_of;
use grid_cells::{Agent, Cell, MOST_SIDE, Step};

/// The most seconds that a planner waits at once: a day.
pub const MOST_SECONDS: u32 = 86_400;

/// Whether the word is that name.
pub fn is_word(word: &[u8], name: &[u8]) -> bool
    ensures { result ≡ bytes_eq word.now name.now }
{
    word == name
}

/// The agent that a word names.
pub(crate) fn agent_of(word: &[u8]) -> Option<Agent>
    ensures { result ≡ agent_of word.now }
{
    Agent::new(number_of(word)?)
}

/// The time that a word names.
pub(crate) fn time_of(word: &[u8]) -> Option<Step>
    ensures { result ≡ time_named word.now }
{
    Some(Step::new(number_of(word)?))
}

/// The version that a word names: decimal digits, leading zeros allowed, below 2^64.
pub(crate) fn version_named(word: &[u8]) -> Option<u64>
    ensures { result ≡ version_named word.now }
{
    if word.is_empty() {
        return None;
    }
    let mut number: u64 = 0;
    for byte in word {
        if !byte.is_ascii_digit() {
            return None;
        }
        number = number
            .checked_mul(10)?
            .checked_add(u64::from(*byte - b'0'))?;
    }
    Some(number)
}

/// The seconds that a word names.
pub(crate) fn seconds_of(word: &[u8]) -> Option<u32>
    ensures { result ≡ seconds_of word.now }
{
    let number = number_of(word)?;
    if number <= MOST_SECONDS {
        Some(number)
    } else {
        None
    }
}

/// The column or the row that a word writes.
pub fn place_of(word: &[u8]) -> Option<u32>
    ensures { result ≡ place_of word.now }
{
    let number = number_of(word)?;
    if number < MOST_SIDE {
        Some(number)
    } else {
        None
    }
}

// The index of the first comma.
fn comma_of(word: &[u8]) -> Option<usize>
    ensures { result ≡ position is_comma word.now }
{
    word.iter().position(|byte| *byte == b',')
}

// What stands before the first comma, and behind it.
fn parts(word: &[u8]) -> Option<(&[u8], &[u8])>
    ensures { MatchOption result (after_first is_comma word.now ≡ [])
        (λ r. (r.0.now ≡ before_first is_comma word.now) × (r.1.now ≡ after_first is_comma word.now)) }
{
    let comma = comma_of(word)?;
    Some((&word[..comma], &word[comma + 1..]))
}

/// The cell that a word names.
pub(crate) fn cell_of(word: &[u8]) -> Option<Cell>
    ensures { result ≡ cell_of word.now }
{
    let (x, y) = parts(word)?;
    Cell::new(place_of(x)?, place_of(y)?)
}
