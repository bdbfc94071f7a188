ghost use Rattle.bench_reader.specs.MapFaults.{IsMapAnswer};

use crate::header::read_header;
use crate::lines::first_written;
use crate::rows::read_rows;
use grid_cells::Grid;
use std::alloc::Global;
use thiserror::Error;

/// Why a text is no map. Rows and columns count from 0, lines from 1.
#[derive(Clone, Copy, Debug, PartialEq, Eq, Error)]
pub enum MapFault {
    /// The first line isn't `type octile`.
    #[error("not octile")]
    NotOctile,
    /// The first bad one of the lines 2 to 4, `height H`, `width W` and `map`.
    #[error("bad header in line {line}")]
    BadHeader { line: usize },
    /// A side of 0 or above `MOST_SIDE`, or more than `MOST_CELLS` cells.
    #[error("bad size")]
    BadSize,
    /// The text is over.
    #[error("missing row {row}")]
    MissingRow { row: usize },
    #[error("short row {row}")]
    ShortRow { row: usize },
    #[error("long row {row}")]
    LongRow { row: usize },
    #[error("bad letter in row {row}, column {col}")]
    BadLetter { row: usize, col: usize },
    /// A line behind the rows that isn't blank.
    #[error("extra line {line}")]
    ExtraLine { line: usize },
    #[error("out of memory")]
    OutOfMemory,
}

/// Reads the text of a map (MovingAI grid benchmarks). Blanks at the ends of the header's lines and
/// of the rows don't count, and lines of blanks alone may follow.
///
/// # Errors
///
/// The first fault of the text: header, size, rows from the top, lines behind them. It comes before
/// any memory is asked for if it lies in the header or the size.
pub fn read_map(alloc: Global, text: &[u8]) -> Result<Grid, MapFault>
    ensures { IsMapAnswer text.now result }
{
    let (size, body) = match read_header(text) {
        Ok(header) => header,
        Err(fault) => return Err(fault),
    };
    let Ok(mut grid) = Grid::all_open(alloc, size) else {
        return Err(MapFault::OutOfMemory);
    };
    let tail = read_rows(&mut grid, body)?;
    match first_written(tail, 5 + size.height() as usize) {
        Some(line) => Err(MapFault::ExtraLine { line }),
        None => Ok(grid),
    }
}
