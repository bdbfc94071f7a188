ghost use Rattle.std.specs.Prelude.{◌≡◌, IfOk};
ghost use Rattle.std.specs.declared.cmp.Ordering.TheVariants.{Equal};

use grid_cells::OutOfMemory;
use mapf_rules::{Conflict, Visit};

/// What can be an element of a set that is followed: elements that compare as equal are one.
pub trait Item: Ord + Drop {
    /// An equal element.
    ///
    /// # Errors
    ///
    /// Want of memory.
    fn copy(&self) -> Result<Self, OutOfMemory>
        ensures { IfOk result (λ copy. copy ≡ self.now) };

    /// A law: elements that compare as equal are one.
    fn told_apart()
        ensures { (a b : Self) → Self.cmp a b ≡ Equal → a ≡ b };
}

impl Item for Conflict {
    fn copy(&self) -> Result<Conflict, OutOfMemory> {
        match self.clone() {
            Ok(copy) => Ok(copy),
            Err(_) => Err(OutOfMemory),
        }
    }

    fn told_apart() {}
}

impl Item for Visit {
    fn copy(&self) -> Result<Visit, OutOfMemory> {
        Ok(*self)
    }

    fn told_apart() {}
}
