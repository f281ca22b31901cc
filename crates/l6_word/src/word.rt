//! The machine word.

ghost use Rattle.std.specs.Prelude.{◌≡◌, ℕ, ◌<◌, ◌%◌, ◌^◌, ◌↔◌, IsSome, IfSome};
ghost use Rattle.l6_word.specs.Numerals.{word_bits};

use std::marker::Model;

/// A machine word: a number below 2^36. Its bits are numbered from 0 (leftmost) to 35.
#[derive(Clone, Copy, Debug, PartialEq, Eq, Hash, PartialOrd, Ord)]
pub struct Word {
    value: u64,
}

impl Model for Word {
    ghost use Rattle.std.specs.Prelude.{ℕ, ◌<◌, ◌^◌};
    ghost use Rattle.l6_word.specs.Numerals.{word_bits};

    ghost Value = { ℕ };

    ghost view = { λ word. word.value };

    ghost invariant = { λ word. word.value < 2 ^ word_bits };

    ghost inverse = { λ value. record { value = value } };
}

impl Word {
    /// How many bits a word has.
    pub const BITS: u32 = 36;

    /// The word of this value, or `None` where it takes more than 36 bits.
    pub fn new(value: u64) -> Option<Self>
        ensures fits { IsSome result ↔ (value < 2 ^ word_bits) }
        ensures value { IfSome result (λ word. word ≡ value) }
    {
        if value < 1 << Self::BITS {
            Some(Word { value })
        } else {
            None
        }
    }

    /// The word of a number's lowest 36 bits.
    pub fn wrapping(number: u64) -> Self
        ensures { result ≡ number % 2 ^ word_bits }
    {
        Word {
            value: number % (1 << Self::BITS),
        }
    }

    /// The word of a value that is known to fit. The caller owes that it does.
    pub fn from_value(value: u64) -> Self
        requires { value < 2 ^ word_bits }
        ensures { result ≡ value }
    {
        Word { value }
    }

    /// The value, below 2^36.
    pub fn get(self) -> u64
        ensures value { result ≡ self }
        ensures range { result < 2 ^ word_bits }
    {
        self.value
    }
}

/// The word of a number of 32 bits, such as a place of a store: each is one.
impl From<u32> for Word {
    ghost use Rattle.std.specs.Prelude.{◌≡◌};

    ghost from_gives = { λ number word. word ≡ number };

    fn from(number: u32) -> Self {
        Word::from_value(u64::from(number))
    }
}

/// The word 0.
impl Default for Word {
    ghost is_default = { λ word. word ≡ 0 };

    fn default() -> Self {
        Word { value: 0 }
    }
}
