//! Loci: what chains lead to.

ghost use Rattle.std.specs.Prelude.{◌≡◌, ◌≤◌};
ghost use Rattle.l6_word.specs.Numerals.{word_bits};

use l6_prog::Name;
use l6_store::Place;
use l6_word::{Window, Word};

/// What a chain leads to: where a content is.
#[derive(Clone, Copy, Debug, PartialEq, Eq)]
pub enum Locus {
    /// The bug of this letter, all 36 bits of it.
    Bug(Name),
    /// A window of a word of the block that begins at this place.
    Field(Place, Window),
}

impl Locus {
    ghost use Rattle.l6_steps.specs.Getting.{lies_in};
    ghost use Rattle.l6_steps.specs.Locus.{width};

    /// How many bits are there, 1 to 36.
    pub fn width(self) -> u8
        ensures value { result ≡ width self }
        ensures range { result ≤ word_bits }
    {
        match self {
            Locus::Bug(_) => Word::BITS as u8,
            Locus::Field(_, window) => window.width(),
        }
    }

    /// Whether this is a field of the block that begins at a place.
    pub fn lies_in(self, place: Place) -> bool
        ensures { result ≡ lies_in place self }
    {
        match self {
            Locus::Bug(_) => false,
            Locus::Field(start, _) => start == place,
        }
    }
}
