ghost use Rattle.std.specs.Prelude.{◌≡◌, ◌⊎◌, ◌<◌, [], ◌∷◌, ◌++◌, length, Some, None, MatchOption, IfSome, OnOk, IfErr};
ghost use Rattle.grid_cells.specs.declared.sizes.TheConstants.{MOST_SIDE};
ghost use Rattle.path_files.specs.declared.faults.PathsFault.TheVariants.{BadCell, OutOfMemory};
ghost use Rattle.path_files.specs.Cells.{join_of, behind_join, ordered, cell_between, cell_in, parts_of, cells_listed, IsBadCell};
ghost use Rattle.path_files.specs.Answers.{IsRead};

use crate::faults::PathsFault;
use crate::lines::{behind, behind_blanks, cut, trimmed};
use grid_cells::{Cell, List};
use session_lines::place_of;
use std::alloc::Global;

/// How a list of cells in brackets is written.
#[derive(Clone, Copy)]
pub(crate) enum Notation {
    /// `(x,y),(x,y),..`
    Commas,
    /// `(row,column)->(row,column)->..`
    Arrows,
}

// What stands between a cell and the next one.
fn join_of(notation: Notation) -> &'static [u8]
    ensures { result.now ≡ join_of notation }
{
    match notation {
        Notation::Commas => b",",
        Notation::Arrows => b"->",
    }
}

// The cell of the two numbers between brackets.
fn ordered(notation: Notation, first: u32, second: u32) -> Option<Cell>
    requires { (first < MOST_SIDE) × (second < MOST_SIDE) }
    ensures { result ≡ Some (ordered notation first second) }
{
    match notation {
        Notation::Commas => Cell::new(first, second),
        Notation::Arrows => Cell::new(second, first),
    }
}

// The cell that stands between brackets.
fn cell_of(notation: Notation, pair: &[u8]) -> Option<Cell>
    ensures { result ≡ cell_between notation pair.now }
{
    let (first, second) = cut(pair, b',')?;
    ordered(
        notation,
        place_of(trimmed(first))?,
        place_of(trimmed(second))?,
    )
}

// What stands behind blanks, the front and blanks; the front may be missing.
fn behind_join<'a>(front: &[u8], part: &'a [u8]) -> &'a [u8]
    ensures { result.now ≡ behind_join front.now part.now }
{
    let written = behind_blanks(part);
    match behind(front, written) {
        Some(rest) => behind_blanks(rest),
        None => written,
    }
}

// The cell of a part that ends before its `)`: the front, `(` and the pair.
fn cell_in(notation: Notation, front: &[u8], part: &[u8]) -> Option<Cell>
    ensures { result ≡ cell_in notation front.now part.now }
{
    cell_of(notation, behind(b"(", behind_join(front, part))?)
}

// What stands before the first `)`, and behind it.
fn closed(text: &[u8]) -> Option<(&[u8], &[u8])>
    ensures parts { MatchOption result (parts_of text.now ≡ text.now ∷ [])
        (λ r. parts_of text.now ≡ r.0.now ∷ parts_of r.1.now) }
    ensures shorter { IfSome result (λ r. length r.1.now < length text.now) }
{
    cut(text, b')')
}

// Adds the cell of a part that ends before its `)`.
fn add_cell(
    cells: &mut Vec<Cell>,
    notation: Notation,
    line: usize,
    front: &[u8],
    part: &[u8],
) -> Result<(), PathsFault>
    ensures ok { OnOk result (MatchOption (cell_in notation front.now part.now) ⊥ (λ cell. cells.new.items ≡ cells.old.items ++ cell ∷ [])) }
    ensures err { IfErr result (λ fault. (fault ≡ OutOfMemory) ⊎ IsBadCell notation line (length cells.old.items) front.now part.now fault) }
{
    let Some(cell) = cell_in(notation, front, part) else {
        return Err(PathsFault::BadCell {
            line,
            cell: cells.len(),
        });
    };
    cells.push(cell).map_err(|_| PathsFault::OutOfMemory)
}

/// The cells of a list, in their order.
///
/// # Errors
/// `BadCell`, or want of memory.
pub(crate) fn cells_of(
    alloc: Global,
    notation: Notation,
    line: usize,
    text: &[u8],
) -> Result<List<Cell>, PathsFault>
    ensures { IsRead (cells_listed notation line text.now) result }
{
    let mut cells = Vec::new(alloc);
    let mut front: &[u8] = b"";
    let mut rest = text;
    while let Some((part, below)) = closed(rest) {
        add_cell(&mut cells, notation, line, front, part)?;
        front = join_of(notation);
        rest = below;
    }
    if behind_join(front, rest).is_empty() {
        Ok(List::new(cells))
    } else {
        Err(PathsFault::BadCell {
            line,
            cell: cells.len(),
        })
    }
}
