ghost use Rattle.std.specs.Prelude.{IfOk, List, Contains, All};
ghost use Rattle.scene_edits.specs.ChangedBy.{HoldsOver};
ghost use Rattle.scene_edits.specs.Flips.{HoldFlips};

use crate::changes::Change;
use grid_cells::{Cell, OutOfMemory};
use std::alloc::Global;

/// Cells that the changes opened or closed: each cell of the map whose state before them isn't the
/// state after them is among these.
pub fn flipped(alloc: Global, changes: &[Change]) -> Result<Vec<Cell>, OutOfMemory>
    ensures flips { IfOk result (λ cells. HoldsOver changes.now (λ before after. HoldFlips before.grid after.grid cells.items)) }
    ensures named { IfOk result (λ cells. All (λ cell. Contains changes.now (Change.Flipped cell)) cells.items) }
{
    let mut cells = Vec::new(alloc);
    for change in changes {
        if let Change::Flipped { cell } = change {
            cells.push(*cell)?;
        }
    }
    Ok(cells)
}
