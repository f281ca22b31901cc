//! A store as C keeps it: a struct that is closed while all its bytes are 0.

ghost use Rattle.std.specs.Prelude.{◌≡◌, ◌↔◌, false, Some, None, IsNone, IfSome};
ghost use Rattle.l6_offset_c.specs.Handle.{flag_of};

use crate::handle::Handle;
use crate::loose::Loose;
use l6_places::Board;
use std::alloc::Global;

/// A store, open or closed.
#[repr(C)]
#[derive(Drop)]
pub struct L6Offset {
    is_open: u64,
    pub(crate) handle: Handle,
    ghost flagged: { is_open ≡ flag_of handle.held },
}

impl L6Offset {
    /// A closed store.
    #[cfg(test)]
    pub(crate) fn closed() -> Self
        ensures { result.handle.held ≡ None }
    {
        L6Offset {
            is_open: 0,
            handle: Handle::none(),
        }
    }

    /// Whether it is open. It takes `&mut self`, as all calls do: what a handle owns can't be shared.
    pub(crate) fn is_open(&mut self) -> bool
        ensures open { (result ≡ false) ↔ (self.old.handle.held ≡ None) }
        ensures same { self.new ≡ self.old }
    {
        self.is_open != 0
    }

    /// Takes the store out, which closes it.
    pub(crate) fn take(&mut self, alloc: Global) -> Option<Box<Board>>
        ensures closed { IsNone result ↔ (self.old.handle.held ≡ None) }
        ensures store { IfSome result (λ store. self.old.handle.held ≡ Some store.value) }
        ensures after { self.new.handle.held ≡ None }
    {
        if self.is_open == 0 {
            return None;
        }
        let handle = std::mem::replace(&mut self.handle, Handle::none());
        self.is_open = 0;
        Some(handle.into_loose(alloc).into_box())
    }

    /// Puts a store in, which opens it. The caller owes that it is closed.
    pub(crate) fn put(&mut self, store: Box<Board>)
        requires { self.old.handle.held ≡ None }
        ensures { self.new.handle.held ≡ Some store.value }
    {
        self.handle = Handle::of(Loose::of(store));
        self.is_open = 1;
    }
}
