//! That the numbers of the code are those of the language, and laws of digits, codes and inputs.

ghost use Rattle.std.specs.Prelude.{◌≡◌};
ghost use Rattle.l6_word.specs.Laws.{CodesAreReadAgain, LineByLine, NoneOfNone, WholeLinesUnchanged};
ghost use Rattle.l6_word.specs.Numerals.{code_count, word_bits, word_octals, largest_level, unit_size};
ghost use Rattle.l6_word.specs.Octal.{OctalsAreReadAgain};

use crate::code::CODE_COUNT;
use crate::octal::OCTALS;
use crate::unit::{LARGEST_LEVEL, UNIT_SIZE};
use crate::word::Word;

/// A word has as many bits as the language says, and is written with as many octal digits.
pub fn words_have_their_bits()
    ensures bits { Word.BITS ≡ word_bits }
    ensures octals { OCTALS ≡ word_octals }
{}

/// There are as many codes of characters as the language says.
pub fn codes_have_their_number()
    ensures { CODE_COUNT ≡ code_count }
{}

/// The octal digits of a word determine it: read again, they give that word.
pub fn octals_are_read_again()
    ensures { OctalsAreReadAgain }
{}

/// The largest block is as large as the language says.
pub fn units_have_their_size()
    ensures level { LARGEST_LEVEL ≡ largest_level }
    ensures size { UNIT_SIZE ≡ unit_size }
{}

/// The characters of an input are those of its lines, one after another: an empty one has none, and a
/// line of 80 characters is taken as it is.
pub fn inputs_are_their_lines()
    ensures none { NoneOfNone }
    ensures lines { LineByLine }
    ensures whole { WholeLinesUnchanged }
{}

/// The character that has a code is read as that code.
pub fn codes_are_read_again()
    ensures { CodesAreReadAgain }
{}
