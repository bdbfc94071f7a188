//! What came to a set and went from it.
ghost use Rattle.std.specs.Prelude.{◌≡◌, OnOk, IfOk, IfSome, IfNone, IsTrue, [], true, false};
ghost use Rattle.plan_table.specs.Sets.{Gains, Loses};
ghost use Rattle.change_history.specs.Leading.{Counts};
ghost use Rattle.change_history.specs.Moved.{Crosses, Comes, Goes, Follows};

use crate::items::Item;
use crate::records::Record;
use grid_cells::OutOfMemory;
use std::alloc::Global;
use std::collections::BTreeSet;
use std::marker::Model;

/// What came to a set and went from it since some moment, if that is followed. Where it finds no
/// memory it is followed no longer.
#[derive(Drop)]
pub struct Moves<T: Item> {
    followed: bool,
    came: BTreeSet<T>,
    gone: BTreeSet<T>,
}

impl<T: Item> Model for Moves<T> {
    ghost use Rattle.change_history.specs.Moved.{Moved};

    ghost Value = { Moved T };

    ghost view = { λ m. record { followed = m.followed; came = m.came.keys; gone = m.gone.keys } };
}

impl<T: Item> Moves<T> {
    /// Nothing came and nothing went, and what does is followed.
    pub fn new(alloc: Global) -> Moves<T>
        ensures { result ≡ record { followed = true; came = []; gone = [] } }
    {
        Moves {
            followed: true,
            came: BTreeSet::new(alloc),
            gone: BTreeSet::new(alloc),
        }
    }

    // All those elements went.
    pub(crate) fn all_gone(alloc: Global, gone: BTreeSet<T>) -> Moves<T>
        ensures { result ≡ record { followed = true; came = []; gone = gone.keys } }
    {
        Moves {
            followed: true,
            came: BTreeSet::new(alloc),
            gone,
        }
    }

    /// What comes and goes isn't followed.
    pub fn unfollowed(alloc: Global) -> Moves<T>
        ensures { result.followed ≡ false }
    {
        Moves {
            followed: false,
            came: BTreeSet::new(alloc),
            gone: BTreeSet::new(alloc),
        }
    }

    /// Puts the element into the set.
    ///
    /// # Errors
    ///
    /// Want of memory for the set.
    pub fn put(&mut self, set: &mut BTreeSet<T>, item: T) -> Result<(), OutOfMemory>
        ensures set { OnOk result (Gains set.old.keys set.new.keys item) }
        ensures follows { OnOk result (Follows set.old.keys set.new.keys self.old self.new) }
    {
        T::told_apart();
        let Some(copy) = self.copy_of(&item) else {
            set.insert(item)?;
            return Ok(());
        };
        if set.insert(item)? {
            self.come(copy);
        }
        Ok(())
    }

    /// Takes the element out of the set, if it is there.
    pub fn take(&mut self, set: &mut BTreeSet<T>, item: &T)
        ensures set { Loses set.old.keys set.new.keys item.now }
        ensures follows { Follows set.old.keys set.new.keys self.old self.new }
    {
        T::told_apart();
        if !set.remove(item) {
            return;
        }
        if let Some(copy) = self.copy_of(item) {
            self.go(copy);
        }
    }

    // A copy of the element, where it is followed.
    pub(crate) fn copy_of(&mut self, item: &T) -> Option<T>
        ensures copy { IfSome result (λ copy. (copy ≡ item.now) × (self.new ≡ self.old)) }
        ensures none { IfNone result (self.new.followed ≡ false) }
    {
        if !self.followed {
            return None;
        }
        match item.copy() {
            Ok(copy) => Some(copy),
            Err(_) => {
                self.followed = false;
                None
            }
        }
    }

    // The element, which wasn't in the set, came.
    pub(crate) fn come(&mut self, item: T)
        ensures { Comes self.old item self.new }
    {
        match cross(&mut self.gone, &mut self.came, item) {
            Ok(()) => {}
            Err(_) => self.followed = false,
        }
    }

    // The element, which was in the set, went.
    pub(crate) fn go(&mut self, item: T)
        ensures { Goes self.old item self.new }
    {
        T::told_apart();
        match cross(&mut self.came, &mut self.gone, item) {
            Ok(()) => {}
            Err(_) => self.followed = false,
        }
    }
}

impl<T: Item> Moves<T> {
    /// Whether what came and went is followed.
    pub fn is_followed(&self) -> bool
        ensures { result ≡ self.now.followed }
    {
        self.followed
    }

    // Counts one record more.
    pub(crate) fn count(&mut self, one: &Record<T>)
        ensures { Counts self.old one.now self.new }
    {
        let Some(copy) = self.copy_of(&one.item) else {
            return;
        };
        if one.came {
            self.come(copy);
        } else {
            self.go(copy);
        }
    }

    // The moves, if they were followed to the end.
    pub(crate) fn followed_through(self) -> Result<Moves<T>, OutOfMemory>
        ensures { IfOk result (λ moves. (moves ≡ self) × IsTrue moves.followed) }
    {
        if self.followed {
            Ok(self)
        } else {
            drop(self);
            Err(OutOfMemory)
        }
    }

    // What came, and what went.
    pub(crate) fn into_sets(self) -> (BTreeSet<T>, BTreeSet<T>)
        ensures came { result.0.keys ≡ self.came }
        ensures gone { result.1.keys ≡ self.gone }
    {
        let Moves {
            followed: _,
            came,
            gone,
        } = self;
        (came, gone)
    }
}

// Takes the element out of the one set, and puts it into the other if it wasn't there.
fn cross<T: Item>(from: &mut BTreeSet<T>, to: &mut BTreeSet<T>, item: T) -> Result<(), OutOfMemory>
    ensures { OnOk result (Crosses from.old.keys to.old.keys item from.new.keys to.new.keys) }
{
    T::told_apart();
    if !from.remove(&item) {
        to.insert(item)?;
    }
    Ok(())
}
