//! Moves of many elements.
ghost use Rattle.std.specs.Prelude.{OnOk, IfOk};
ghost use Rattle.change_history.specs.Moved.{Follows, GainsAll, LosesAll, Tell};

use crate::items::Item;
use crate::moves::Moves;
use grid_cells::OutOfMemory;
use std::alloc::Global;
use std::collections::BTreeSet;

impl<T: Item> Moves<T> {
    /// Puts the elements into the set.
    ///
    /// # Errors
    ///
    /// Want of memory for the set.
    pub fn put_all(&mut self, set: &mut BTreeSet<T>, items: &[T]) -> Result<(), OutOfMemory>
        ensures set { OnOk result (GainsAll set.old.keys set.new.keys items.now) }
        ensures follows { OnOk result (Follows set.old.keys set.new.keys self.old self.new) }
    {
        for item in items {
            let copy = item.copy()?;
            self.put(set, copy)?;
        }
        Ok(())
    }

    /// Takes the elements out of the set.
    pub fn take_all(&mut self, set: &mut BTreeSet<T>, items: &[T])
        ensures set { LosesAll set.old.keys set.new.keys items.now }
        ensures follows { Follows set.old.keys set.new.keys self.old self.new }
    {
        for item in items {
            self.take(set, item);
        }
    }

    /// What comes and goes from the one list to the other; unfollowed where that finds no memory.
    pub fn between(alloc: Global, before: &[T], after: &[T]) -> Moves<T>
        ensures { Tell before.now after.now result }
    {
        match Moves::found_between(alloc, before, after) {
            Ok(moves) => moves,
            Err(_) => Moves::unfollowed(alloc),
        }
    }

    // What comes and goes from the one list to the other.
    fn found_between(alloc: Global, before: &[T], after: &[T]) -> Result<Moves<T>, OutOfMemory>
        ensures { IfOk result (λ moves. Tell before.now after.now moves) }
    {
        let mut gone = BTreeSet::new(alloc);
        let mut unfollowed = Moves::unfollowed(alloc);
        unfollowed.put_all(&mut gone, before)?;
        let mut moves = Moves::all_gone(alloc, gone);
        let mut set = BTreeSet::new(alloc);
        moves.put_all(&mut set, after)?;
        Ok(moves)
    }
}
