//! That the numbers of the code are those of the debugger.

ghost use Rattle.std.specs.Prelude.{◌≡◌};
ghost use Rattle.l6_debug.specs.Numerals.{most_number};

use crate::reading::MAX_NUMBER;

/// Commands may give as large a number as the debugger's language says.
pub fn numbers_have_their_limit()
    ensures { MAX_NUMBER ≡ most_number }
{}
