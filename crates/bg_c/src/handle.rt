//! A party, or none, as C holds it: a pointer.
ghost use Rattle.std.specs.Prelude.{◌≡◌, Some, None, option_map};
ghost use Rattle.bg_c.specs.Handle.{Kept, handle_owns, kept_coded};

use crate::loose::Loose;
use bg_parties::Party;
use std::alloc::Global;
use std::marker::Model;
use std::mem::replace;
use std::ptr::null_mut;

/// A place for a party, `bg_inner` of include/handles.c. C sees a pointer, which is null where
/// there is none, so that a place of zero bytes is an empty one. Contracts see the party.
#[repr(C)]
pub struct Handle {
    at: *mut u8,
    alloc: Global,
    pub ghost value: { Kept } by { kept_coded },
}

impl Model for Handle {
    ghost also_owns = { λ s. handle_owns s.alloc s.at s.value };
}

impl Handle {
    /// Returns a handle without a party.
    pub fn empty(alloc: Global) -> Handle
        ensures { result.value ≡ None }
    {
        Handle {
            at: null_mut(),
            alloc,
        }
    }

    /// Returns a handle with a party.
    pub fn full(party: Box<Party>) -> Handle
        ensures { result.value ≡ Some party.value }
    {
        Handle::of_loose(Loose::of(party))
    }

    /// Returns the party that the handle has.
    pub fn into_box(self) -> Option<Box<Party>>
        ensures { option_map (λ party. party.value) result ≡ self.value }
    {
        match self.into_loose() {
            Some(loose) => Some(loose.into_box()),
            None => None,
        }
    }

    /// Takes the party that the handle has, and leaves the handle without one.
    pub fn take(&mut self, alloc: Global) -> Option<Box<Party>>
        ensures taken { option_map (λ party. party.value) result ≡ self.old.value }
        ensures empty { self.new.value ≡ None }
    {
        replace(self, Handle::empty(alloc)).into_box()
    }

    /// Puts a party into the handle. The party that it has is dropped.
    pub fn put(&mut self, party: Box<Party>)
        ensures { self.new.value ≡ Some party.value }
    {
        *self = Handle::full(party);
    }

    /// Returns a handle of the pointer of a box, which is the handle's from here on.
    fn of_loose(loose: Loose<Party, Global>) -> Handle
        ensures { result.value ≡ Some loose.value }
    {
        let Loose { at, alloc } = loose;
        Handle {
            at: at.cast(),
            alloc,
        }
    }

    /// Returns the pointer of the handle's box, where it is not null.
    fn into_loose(self) -> Option<Loose<Party, Global>>
        ensures { option_map (λ loose. loose.value) result ≡ self.value }
    {
        let Handle { at, alloc } = self;
        if at.is_null() {
            return None;
        }
        Some(Loose {
            at: at.cast(),
            alloc,
        })
    }
}

impl Drop for Handle {
    fn drop(self) {
        drop(self.into_box());
    }
}

// The pointer is that of a box of the handle's own: whoever has the handle has the whole party, and
// nobody else has a part of it.
unsafe impl Send for Handle {}
