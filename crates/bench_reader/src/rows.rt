ghost use Rattle.std.specs.Prelude.{◌≡◌, ℕ, ◌+◌, ◌*◌, ◌<◌, ◌≤◌, Some, List, ◌++◌, length, map, take, OnOk, IfOk, IfErr, MatchResult};
ghost use Rattle.bench_reader.specs.Lines.{lines_of};
ghost use Rattle.bench_reader.specs.Letters.{state_of, BeginsWithRows};
ghost use Rattle.bench_reader.specs.RowFaults.{IsRowFault, IsRowsFault};

use crate::lines::{next_line, row_of};
use crate::maps::MapFault;
use grid_cells::Grid;

/// Reads the grid's rows from the front of the text. Comes back with the text behind them.
pub(crate) fn read_rows<'a>(grid: &mut Grid, text: &'a [u8]) -> Result<&'a [u8], MapFault>
    ensures size { grid.new.size ≡ grid.old.size }
    ensures answer { MatchResult result
        (λ rest. BeginsWithRows grid.new (lines_of text.now) (lines_of rest.now))
        (IsRowsFault grid.old.size (lines_of text.now)) }
    ensures shorter { IfOk result (λ rest. length rest.now ≤ length text.now) }
{
    let mut rest = text;
    for row in 0..grid.size().height() {
        let Some((line, behind)) = next_line(rest) else {
            return Err(MapFault::MissingRow { row: row as usize });
        };
        read_row(grid, row, row_of(line))?;
        rest = behind;
    }
    Ok(rest)
}

// Reads one row's letters into the grid.
fn read_row(grid: &mut Grid, row: u32, letters: &[u8]) -> Result<(), MapFault>
    requires { row < grid.old.size.height }
    ensures size { grid.new.size ≡ grid.old.size }
    ensures count { length grid.new.flags ≡ length grid.old.flags }
    ensures ok { OnOk result (length letters.now ≡ grid.old.size.width) }
    ensures flags { OnOk result ((before : List ℕ) →
        map state_of before ≡ map Some (take (row * grid.old.size.width) grid.old.flags) →
        map state_of (before ++ letters.now) ≡ map Some (take ((row + 1) * grid.old.size.width) grid.new.flags)) }
    ensures fault { IfErr result (IsRowFault grid.old.size.width row letters.now) }
{
    let size = grid.size();
    let width = size.width() as usize;
    if letters.len() < width {
        return Err(MapFault::ShortRow { row: row as usize });
    }
    if letters.len() > width {
        return Err(MapFault::LongRow { row: row as usize });
    }
    for (col, letter) in letters.iter().enumerate() {
        let Some(free) = state_of(*letter) else {
            return Err(MapFault::BadLetter {
                row: row as usize,
                col,
            });
        };
        let cell = size.cell(col as u32, row).unwrap();
        grid.set(cell, free);
    }
    Ok(())
}

// Whether a letter's cell is open, and none for any other byte.
fn state_of(letter: u8) -> Option<bool>
    ensures { result ≡ state_of letter }
{
    match letter {
        b'.' | b'G' | b'S' => Some(true),
        b'@' | b'O' | b'T' | b'W' => Some(false),
        _ => None,
    }
}
