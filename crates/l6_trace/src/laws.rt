//! That the numbers of the code are those of traces, and that what a board says is open is what a store says.

ghost use Rattle.std.specs.Prelude.{◌≡◌};
ghost use Rattle.l6_trace.specs.Boards.{SameOpen};
ghost use Rattle.l6_trace.specs.Numerals.{largest_pool_level, most_calls, most_name_bytes, most_number};

use crate::judge::MAX_POOL_LEVEL;
use crate::line::{MAX_NAME_BYTES, MAX_NUMBER};
use crate::trace::MAX_CALLS;

/// Traces have as many calls, their lines give as great numbers, and names have as many bytes, as
/// traces may have.
pub fn traces_have_their_limits()
    ensures calls { MAX_CALLS ≡ most_calls }
    ensures number { MAX_NUMBER ≡ most_number }
    ensures name { MAX_NAME_BYTES ≡ most_name_bytes }
    ensures level { MAX_POOL_LEVEL ≡ largest_pool_level }
{}

/// A place is open on the board of a store's blocks exactly if it is open in the store.
pub fn boards_are_stores()
    ensures { SameOpen }
{}
