ghost use Rattle.std.specs.Prelude.{◌≡◌, ◌⊎◌, [], ◌∷◌, ◌++◌, None, MatchOption, OnOk, IfErr};
ghost use Rattle.bench_reader.specs.Words.{words_of};
ghost use Rattle.session_lines.specs.Cells.{cells_of};
ghost use Rattle.session_lines.specs.Faults.{IsShaped};
ghost use Rattle.session_lines.specs.Plain.{BeginsWithWordOf};
ghost use Rattle.session_lines.specs.declared.requests.LineFault.TheVariants.{Shape, OutOfMemory};

use crate::plain::cell_at_front;
use crate::requests::LineFault;
use crate::values::cell_of;
use bench_reader::next_word;
use grid_cells::{Cell, List};
use std::alloc::Global;

// The cell of the next word of a line, if the word names one, and what stands behind the word.
fn next_cell(line: &[u8]) -> Option<(Option<Cell>, &[u8])>
    ensures { MatchOption result (words_of line.now ≡ []) (λ r. BeginsWithWordOf line.now r.0 r.1.now) }
{
    if let Some((cell, rest)) = cell_at_front(line) {
        return Some((Some(cell), rest));
    }
    let (word, rest) = next_word(line)?;
    Some((cell_of(word), rest))
}

// Adds a cell.
fn add_cell(cells: &mut Vec<Cell>, cell: Option<Cell>) -> Result<(), LineFault>
    ensures ok { OnOk result (MatchOption cell ⊥ (λ cell. cells.new.items ≡ cells.old.items ++ cell ∷ [])) }
    ensures err { IfErr result (λ fault. (fault ≡ OutOfMemory) ⊎ ((fault ≡ Shape) × (cell ≡ None))) }
{
    let Some(cell) = cell else {
        return Err(LineFault::Shape);
    };
    cells.push(cell).map_err(|_| LineFault::OutOfMemory)
}

/// The cells that the words of a line name.
///
/// # Errors
/// `Shape` where a word names no cell, or want of memory.
pub(crate) fn cells_of(alloc: Global, line: &[u8]) -> Result<List<Cell>, LineFault>
    ensures { IsShaped (cells_of (words_of line.now)) result }
{
    let mut cells = Vec::new(alloc);
    let mut rest = line;
    while let Some((cell, behind)) = next_cell(rest) {
        add_cell(&mut cells, cell)?;
        rest = behind;
    }
    Ok(List::new(cells))
}
