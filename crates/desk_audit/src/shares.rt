//! The index in shares of the times: where a time is looked up, and where all are.
ghost use Rattle.std.specs.Prelude.{◌≡◌, ◌<◌, ◌%◌, IfOk, Some, length, slice_get};
ghost use Rattle.desk_audit.specs.Filing.{IsFiled};
ghost use Rattle.desk_audit.specs.Index.{AreFiled, HasPasses};

use crate::sightings::Sightings;
use crate::tables::Pass;
use grid_cells::{Agent, Cell, OutOfMemory};
use std::alloc::Global;

/// The number of the share that has the time, of so many. Where there is one alone, it divides nothing.
pub(crate) fn number_at(time: u32, many: usize) -> usize
    requires { 0 < many }
    ensures is { result ≡ time % many }
    ensures bound { result < many }
{
    if many == 1 { 0 } else { time as usize % many }
}

/// The share of the index that has the time.
pub(crate) fn share_at(index: &[Sightings], time: u32) -> &Sightings
    requires some { 0 < length index.now }
    requires filed { AreFiled index.now }
    ensures at { slice_get index.now (time % length index.now) ≡ Some result.now }
    ensures moments { IsFiled result.now.moments }
    ensures rests { IsFiled result.now.rests }
{
    &index[number_at(time, index.len())]
}

/// The other agents that are filed by the cell alone, in any share.
pub(crate) fn passes_in(
    alloc: Global,
    index: &[Sightings],
    cell: Cell,
    agent: Agent,
) -> Result<Vec<Pass>, OutOfMemory>
    requires { AreFiled index.now }
    ensures { IfOk result (λ found. HasPasses index.now cell agent found.items) }
{
    let mut found = Vec::new(alloc);
    for share in index {
        share.passes.add_others(&mut found, cell, 0, agent)?;
    }
    Ok(found)
}
