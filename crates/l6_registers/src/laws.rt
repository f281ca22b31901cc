//! That there is room for all that the language has.

ghost use Rattle.std.specs.Prelude.{◌≡◌};
ghost use Rattle.l6_word.specs.Numerals.{input_width};
ghost use Rattle.l6_prog.specs.Numerals.{letter_count, name_count};
ghost use Rattle.l6_steps.specs.Numerals.{most_entries, word_characters};

use crate::characters::WORD_CHARACTERS;
use crate::definitions::FIELDS;
use crate::input::INPUT_WIDTH;
use crate::registers::BUGS;
use crate::stack::MAX_ENTRIES;

/// There is a bug for each letter and a definition for each name, as much may be saved as the language
/// says, and lines and words have as many characters.
#[tactic(auto, using(crate::proofs::Inputs::width_is))]
pub fn registers_have_their_limits()
    ensures bugs { BUGS ≡ letter_count }
    ensures fields { FIELDS ≡ name_count }
    ensures entries { MAX_ENTRIES ≡ most_entries }
    ensures width { INPUT_WIDTH ≡ input_width }
    ensures characters { WORD_CHARACTERS ≡ word_characters }
{}
