//! That the numbers of the code are those of the language.

ghost use Rattle.std.specs.Prelude.{◌≡◌};
ghost use Rattle.l6_group.specs.Numerals.{most_label_characters};

use crate::label::MAX_LABEL_CHARACTERS;

/// A label has as many characters as the language says.
pub fn labels_have_their_limit()
    ensures { MAX_LABEL_CHARACTERS ≡ most_label_characters }
{}
