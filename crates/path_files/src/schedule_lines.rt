ghost use Rattle.std.specs.Prelude.{◌≡◌, ◌<◌};
ghost use Rattle.std.specs.Option.{option_copied};
ghost use Rattle.path_files.specs.ScheduleLines.{
  agent_named,
  begins_schedule,
  cell_at,
  is_begun,
  is_of_place,
  is_scheduled,
  is_statistics,
  is_time,
  no_spot,
  pair_in,
  spot_with,
  with_column,
  with_pair,
  with_row,
  with_value,
};
ghost use Rattle.grid_cells.specs.declared.sizes.TheConstants.{MOST_SIDE};

use crate::lines::{behind, behind_blanks, cut, numbered};
use crate::moves::cell;
use bench_reader::number_of;
use grid_cells::Cell;
use session_lines::{is_word, place_of};

/// An agent's place at a time, as far as it is told.
#[derive(Clone, Copy)]
pub(crate) struct Spot {
    pub(crate) cell: Cell,
    pub(crate) has_column: bool,
    pub(crate) has_row: bool,
    pub(crate) has_time: bool,
}

/// A place of which nothing is told.
pub(crate) fn no_spot() -> Spot
    ensures { result ≡ no_spot }
{
    Spot {
        cell: cell(0, 0),
        has_column: false,
        has_row: false,
        has_time: false,
    }
}

/// Whether the line begins the statistics.
pub(crate) fn is_statistics(line: &[u8]) -> bool
    ensures { result ≡ is_statistics line.now }
{
    is_word(line, b"statistics:")
}

/// Whether the line begins the agents.
pub(crate) fn begins_schedule(line: &[u8]) -> bool
    ensures { result ≡ begins_schedule line.now }
{
    match behind(b"schedule:", line) {
        Some(rest) => rest.is_empty() || is_word(behind_blanks(rest), b"{}"),
        None => false,
    }
}

/// The agent N of a line `agentN:`.
pub(crate) fn agent_named(line: &[u8]) -> Option<u32>
    ensures { result ≡ agent_named line.now }
{
    let (agent, rest) = numbered(behind(b"agent", line)?)?;
    if rest.is_empty() { Some(agent) } else { None }
}

// Whether the line is one of a place.
fn is_of_place(line: &[u8]) -> bool
    ensures { result ≡ is_of_place line.now }
{
    behind(b"- ", line).is_some()
        || behind(b"x:", line).is_some()
        || behind(b"y:", line).is_some()
        || behind(b"t:", line).is_some()
}

/// Whether the line is one of the agents' or of their places.
pub(crate) fn is_scheduled(line: &[u8]) -> bool
    ensures { result ≡ is_scheduled line.now }
{
    agent_named(line).is_some() || is_of_place(line)
}

/// Whether something is told of the place.
pub(crate) fn is_begun(spot: Spot) -> bool
    ensures { result ≡ is_begun spot }
{
    spot.has_column || spot.has_row || spot.has_time
}

// Whether the text is that number.
fn is_time(time: usize, text: &[u8]) -> bool
    ensures { result ≡ is_time time text.now }
{
    match number_of(text) {
        Some(number) => number as usize == time,
        None => false,
    }
}

// The place in that column.
fn with_column(spot: Spot, column: u32) -> Spot
    requires { column < MOST_SIDE }
    ensures { result ≡ with_column spot column }
{
    Spot {
        cell: cell(column, spot.cell.y()),
        has_column: true,
        ..spot
    }
}

// The place in that row.
fn with_row(spot: Spot, row: u32) -> Spot
    requires { row < MOST_SIDE }
    ensures { result ≡ with_row spot row }
{
    Spot {
        cell: cell(spot.cell.x(), row),
        has_row: true,
        ..spot
    }
}

// The place at that time, with what stands behind one of its keys, if that isn't told yet.
fn with_value(time: usize, spot: Spot, key: &[u8], text: &[u8]) -> Option<Spot>
    ensures { result ≡ with_value time spot key.now text.now }
{
    if is_word(key, b"x") && !spot.has_column {
        Some(with_column(spot, place_of(text)?))
    } else if is_word(key, b"y") && !spot.has_row {
        Some(with_row(spot, place_of(text)?))
    } else if is_word(key, b"t") && !spot.has_time && is_time(time, text) {
        Some(Spot {
            has_time: true,
            ..spot
        })
    } else {
        None
    }
}

// The same of a pair `KEY: VALUE`.
fn with_pair(time: usize, spot: Spot, pair: &[u8]) -> Option<Spot>
    ensures { result ≡ with_pair time spot pair.now }
{
    let (key, text) = cut(pair, b':')?;
    with_value(time, spot, key, behind_blanks(text))
}

// The pair in a line: the first of a place has a dash before it.
fn pair_in(spot: Spot, line: &[u8]) -> Option<&[u8]>
    ensures { option_copied result ≡ pair_in spot line.now }
{
    if is_begun(spot) {
        return Some(line);
    }
    Some(behind_blanks(behind(b"- ", line)?))
}

/// The place at that time, with one more of its lines, if that is due.
pub(crate) fn spot_with(time: usize, spot: Spot, line: &[u8]) -> Option<Spot>
    ensures { result ≡ spot_with time spot line.now }
{
    with_pair(time, spot, pair_in(spot, line)?)
}

/// The cell of a place that is told whole.
pub(crate) fn cell_at(spot: &Spot) -> Option<Cell>
    ensures { result ≡ cell_at spot.now }
{
    if spot.has_column && spot.has_row && spot.has_time {
        Some(spot.cell)
    } else {
        None
    }
}
