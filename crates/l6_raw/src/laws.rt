//! That the numbers of the code are those of the language.

ghost use Rattle.std.specs.Prelude.{◌≡◌};
ghost use Rattle.l6_raw.specs.Numerals.{most_words, word_bits};

use crate::region::Region;

/// A region has as many words, and a word as many bits, as the language says.
pub fn regions_have_their_limit()
    ensures words { Region.MOST_WORDS ≡ most_words }
    ensures bits { Region.WORD_BITS ≡ word_bits }
{}
