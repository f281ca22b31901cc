//! Names of bugs and fields.

ghost use Rattle.std.specs.Prelude.{◌≡◌, ℕ, ◌<◌, ◌≤◌, ◌↔◌, true, IsTrue, IsSome, IfSome};
ghost use Rattle.l6_prog.specs.Chain.{is_name};
ghost use Rattle.l6_prog.specs.Numerals.{name_count, first_letter};

use std::marker::Model;

/// How many names there are: the digits and the letters.
pub const NAMES: u8 = 36;
/// How many names are digits. The letters are numbered from here on.
pub const DIGITS: u8 = 10;

/// The name of a field, a digit or a letter: `0` to `9` and `A` to `Z` are numbered from 0 to 35. A
/// letter also names a bug.
#[derive(Clone, Copy, Debug, PartialEq, Eq, Hash, PartialOrd, Ord)]
pub struct Name {
    number: u8,
}

impl Model for Name {
    ghost use Rattle.std.specs.Prelude.{ℕ, ◌<◌};
    ghost use Rattle.l6_prog.specs.Numerals.{name_count};

    ghost Value = { ℕ };

    ghost view = { λ name. name.number };

    ghost invariant = { λ name. name.number < name_count };

    ghost inverse = { λ number. record { number = number } };
}

impl Name {
    /// The name of this number, or `None` from 36 on.
    pub fn new(number: u8) -> Option<Self>
        ensures valid { IsSome result ↔ (number < name_count) }
        ensures value { IfSome result (λ name. name ≡ number) }
    {
        if number < NAMES {
            Some(Name { number })
        } else {
            None
        }
    }

    /// The number, below 36.
    pub fn number(self) -> u8
        ensures value { result ≡ self }
        ensures range { result < name_count }
    {
        self.number
    }

    /// Does nothing. Its clause gives the prover what is true of every name.
    #[inline(always)]
    pub(crate) fn reveal(self)
        ensures { is_name self ≡ true }
    {
        // a look at the field, for which the invariant is opened
        let _ = self.number;
    }

    /// Whether this is a letter, and so may name a bug.
    pub fn is_letter(self) -> bool
        ensures { IsTrue result ↔ (first_letter ≤ self) }
    {
        DIGITS <= self.number
    }
}

/// The name `0`, which fills the unused part of a chain's array.
impl Default for Name {
    ghost is_default = { λ name. name ≡ 0 };

    fn default() -> Self {
        Name { number: 0 }
    }
}
