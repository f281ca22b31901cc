//! A box with a board, as its pointer.

ghost use Rattle.std.specs.Prelude.{◌≡◌, ◌≢◌, Option, Some, None};
ghost use Rattle.std.specs.Coded.{coded_option};
ghost use Rattle.l6_places.specs.Board.{Board as Places, board_code};
ghost use Rattle.l6_offset_c.specs.Handle.{owns_board};

use crate::loose::Loose;
use l6_places::Board;
use std::alloc::Global;
use std::marker::Model;

/// A board on the heap, or none.
#[repr(C)]
#[derive(Drop)]
pub struct Handle {
    at: *mut u8,
    pub ghost held: { Option Places } by { coded_option board_code },
}

impl Model for Handle {
    ghost also_owns = { λ h. owns_board h.at h.held };
}

impl Handle {
    /// No board.
    pub(crate) fn none() -> Handle
        ensures { result.held ≡ None }
    {
        Handle {
            at: std::ptr::null_mut(),
        }
    }

    /// This board.
    pub(crate) fn of(store: Loose<Board, Global>) -> Handle
        ensures { result.held ≡ Some store.value }
    {
        let Loose { at, alloc: _ } = store;
        Handle { at: at as *mut u8 }
    }

    /// Its board. The caller owes that there is one.
    pub(crate) fn into_loose(self, alloc: Global) -> Loose<Board, Global>
        requires { self.held ≢ None }
        ensures { self.held ≡ Some result.value }
    {
        let Handle { at } = self;
        Loose {
            at: at as *mut Board,
            alloc,
        }
    }
}
