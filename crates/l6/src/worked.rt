//! Worked examples of the definitions: theorems about them alone, of decks worked by hand.

ghost use Rattle.l6.specs.Worked.{FieldTraps, FiveIsPrinted, FiveIsSpelled, UnknownIsRefused};

use l6_store::scan_chooses;

/// A deck of a comment and two operations spells its program.
pub fn five_is_spelled()
    ensures { FiveIsSpelled }
{}

/// A whole run of that program ends by DONE, and its printout is `5` and the line of its ending.
pub fn five_is_printed()
    ensures { FiveIsPrinted }
{
    scan_chooses();
}

/// The fault of a deck is its first one.
pub fn unknown_is_refused()
    ensures { UnknownIsRefused }
{}

/// A step that traps changes the ending alone.
pub fn field_traps()
    ensures { FieldTraps }
{}
