ghost use Rattle.std.specs.Prelude.{◌≡◌, Option, Some, None, IfSome, IfNone};
ghost use Rattle.desk_c.specs.declared.states.State.{State};

use crate::loose::Loose;
use crate::states::State;
use std::alloc::Global;
use std::marker::Model;
use std::mem::replace;
use std::ptr::null_mut;

/// What a C program keeps: a pointer, null at a closed handle. The program sets it to null before the
/// first call, doesn't copy it, and gives it to one call at a time, in one thread.
#[repr(C)]
#[derive(Drop)]
pub struct Handle {
    at: *mut u8,
    ghost held: { Option State },
}

impl Model for Handle {
    ghost use Rattle.desk_c.specs.Owned.{owned_at};
    ghost use Rattle.desk_c.specs.contracts.states.State.{the_row};

    ghost also_owns = { λ h. owned_at the_row h.at h.held };
}

impl Handle {
    fn closed() -> Handle
        ensures { result.held ≡ None }
    {
        Handle { at: null_mut() }
    }

    fn of(state: Loose<State, Global>) -> Handle
        ensures { result.held ≡ Some state.value }
    {
        let Loose { at, alloc: _ } = state;
        Handle { at: at as *mut u8 }
    }

    // What is behind it, as a box's pointer.
    fn into_loose(self, alloc: Global) -> Option<Loose<State, Global>>
        ensures some { IfSome result (λ l. self.held ≡ Some l.value) }
        ensures none { IfNone result (self.held ≡ None) }
    {
        let Handle { at } = self;
        if at.is_null() {
            None
        } else {
            Some(Loose {
                at: at as *mut State,
                alloc,
            })
        }
    }

    /// Takes out what is behind it, and leaves it closed.
    pub(crate) fn take(&mut self, alloc: Global) -> Option<Box<State>>
        ensures closed { self.new.held ≡ None }
        ensures some { IfSome result (λ state. self.old.held ≡ Some state.value) }
        ensures none { IfNone result (self.old.held ≡ None) }
    {
        match replace(self, Handle::closed()).into_loose(alloc) {
            None => None,
            Some(loose) => Some(loose.into_box()),
        }
    }

    /// Puts a state behind it. A closed handle takes it; what an open one has is lost to memory.
    pub(crate) fn put(&mut self, state: Box<State>)
        ensures { self.new.held ≡ Some state.value }
    {
        *self = Handle::of(Loose::of(state));
    }
}
