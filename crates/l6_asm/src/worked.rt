//! Worked examples of the definitions: theorems about them alone, of decks worked by hand.

ghost use Rattle.l6_asm.specs.Worked.{MissingIsRefused, TwiceIsRefused};

/// A label given twice is reported before a label that is missing.
pub fn twice_is_refused()
    ensures { TwiceIsRefused }
{}

/// A label that is missing is the fault of the card that names it.
pub fn missing_is_refused()
    ensures { MissingIsRefused }
{}
