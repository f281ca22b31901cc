//! Worked examples of the definitions: theorems about them alone, of decks worked by hand.

ghost use Rattle.l6_card.specs.Worked.{HalfIsRefused, LoopIsRead, TestIsRefused, WordIsRefused};

/// A deck of three cards says two statements, with their labels, cards and spans.
pub fn loop_is_read()
    ensures { LoopIsRead }
{}

/// A statement that is not whole is the fault of its last card.
pub fn half_is_refused()
    ensures { HalfIsRefused }
{}

/// The columns and the reason of a group and of a word that object.
pub fn pieces_are_refused()
    ensures group { TestIsRefused }
    ensures word { WordIsRefused }
{}
