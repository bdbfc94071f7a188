//! Moves as lists.
ghost use Rattle.std.specs.Prelude.{◌≡◌, IfOk};
ghost use Rattle.std.specs.BTreeSet.{IsOrdered};
ghost use Rattle.change_history.specs.Moved.{Ascend};

use crate::items::Item;
use crate::moves::Moves;
use grid_cells::{List, OutOfMemory};
use std::alloc::Global;
use std::collections::BTreeSet;

impl<T: Item> Moves<T> {
    /// What came, and what went, each in the order of its elements.
    ///
    /// # Errors
    ///
    /// Want of memory.
    pub fn into_lists(self, alloc: Global) -> Result<(List<T>, List<T>), OutOfMemory>
        ensures came { IfOk result (λ lists. lists.0 ≡ self.came) }
        ensures gone { IfOk result (λ lists. lists.1 ≡ self.gone) }
        ensures ascend { IfOk result (λ lists. Ascend T.cmp lists.0 × Ascend T.cmp lists.1) }
    {
        let (came, gone) = self.into_sets();
        let came = listed(alloc, came)?;
        let gone = listed(alloc, gone)?;
        Ok((came, gone))
    }
}

// The elements, in their order.
fn listed<T: Item>(alloc: Global, set: BTreeSet<T>) -> Result<List<T>, OutOfMemory>
    ensures all { IfOk result (λ list. list ≡ set.keys) }
    ensures ordered { IsOrdered T.cmp set }
{
    let mut list = Vec::new(alloc);
    for item in set {
        list.push(item)?;
    }
    Ok(List::new(list))
}
