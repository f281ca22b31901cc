//! That the number of the code is that of boards.

ghost use Rattle.std.specs.Prelude.{◌≡◌};
ghost use Rattle.l6_places.specs.Numerals.{largest_top};

use crate::board::MAX_TOP;

/// A board has as many levels as boards may have.
pub fn boards_have_their_limit()
    ensures { MAX_TOP ≡ largest_top }
{}
