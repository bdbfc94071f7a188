//! Paths that are told from wherever their agents start.
ghost use Rattle.std.specs.Prelude.{◌≡◌, IfOk};
ghost use Rattle.path_files.specs.Moves.{is_relative, set_out};

use crate::forms::Form;
use crate::moves::moved;
use grid_cells::{Cell, List, OutOfMemory};
use std::alloc::Global;

/// Whether paths in that form begin in the cell 0,0 and are to be set out from the agents' starts.
pub fn is_relative(form: Form) -> bool
    ensures { result ≡ is_relative form }
{
    match form {
        Form::ByMoves | Form::ByFlippedMoves => true,
        Form::ByTime | Form::ByAgent | Form::BySession => false,
        Form::ByJson => false,
        Form::BySchedule => false,
    }
}

/// The path, set out from that start: each cell as many columns and rows further, where before the
/// first one stands the last that a map may have.
///
/// # Errors
/// Want of memory.
pub fn set_out(alloc: Global, start: Cell, path: &[Cell]) -> Result<List<Cell>, OutOfMemory>
    ensures { IfOk result (λ cells. cells ≡ set_out start path.now) }
{
    let mut cells = Vec::new(alloc);
    for cell in path {
        cells.push(moved(*cell, start))?;
    }
    Ok(List::new(cells))
}
