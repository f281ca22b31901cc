//! A box with a store, as its pointer.

ghost use Rattle.std.specs.Prelude.{◌≡◌, ◌≢◌, Option, Some, None};
ghost use Rattle.std.specs.Coded.{coded_option};
ghost use Rattle.l6_store.specs.BuddyStore.{BuddyStore, buddy_code};
ghost use Rattle.l6_store_c.specs.Handle.{owns_store};

use crate::loose::Loose;
use l6_store::Buddy;
use std::alloc::Global;
use std::marker::Model;

/// A store on the heap, or none.
#[repr(C)]
#[derive(Drop)]
pub struct Handle {
    at: *mut u8,
    pub ghost held: { Option BuddyStore } by { coded_option buddy_code },
}

impl Model for Handle {
    ghost also_owns = { λ h. owns_store h.at h.held };
}

impl Handle {
    ghost use Rattle.std.specs.Borrow.{sem};
    ghost use Rattle.l6_store_c.specs.Lending.{LendsStore};

    /// No store.
    pub(crate) fn none() -> Handle
        ensures { result.held ≡ None }
    {
        Handle {
            at: std::ptr::null_mut(),
        }
    }

    /// This store.
    pub(crate) fn of(store: Loose<Buddy, Global>) -> Handle
        ensures { result.held ≡ Some store.value }
    {
        let Loose { at, alloc: _ } = store;
        Handle { at: at as *mut u8 }
    }

    /// Its store, lent. The caller owes that there is one.
    pub(crate) fn lend(&mut self) -> &mut Buddy
        requires { self.old.held ≢ None }
        ensures* writes_back { sem 𝓛 (LendsStore self.entry result) }
        ensures value { self.old.held ≡ Some result.now }
    {
        unsafe { &mut *(self.at as *mut Buddy) }
    }

    /// Its store. The caller owes that there is one.
    pub(crate) fn into_loose(self, alloc: Global) -> Loose<Buddy, Global>
        requires { self.held ≢ None }
        ensures { self.held ≡ Some result.value }
    {
        let Handle { at } = self;
        Loose {
            at: at as *mut Buddy,
            alloc,
        }
    }
}
