//! Windows, through which a word of a block is seen.

ghost use Rattle.std.specs.Prelude.{◌≡◌, ℕ, ◌+◌, ◌-◌, ◌%◌, ◌<◌, ◌≤◌, ◌^◌, ◌↔◌, IsSome, IfSome, IsTrue};
ghost use Rattle.l6_word.specs.Numerals.{word_bits, unit_size};
ghost use Rattle.l6_word.specs.Window.{is_window, width, right_of, take, put};

use crate::unit::UNIT_SIZE;
use crate::word::Word;
use std::marker::Model;

/// Bits side by side in a word of a block: the word's index in the block, and the first and the
/// last bit. Bits are numbered from 0 (leftmost) to 35.
#[derive(Clone, Copy, Debug, PartialEq, Eq)]
pub struct Window {
    word: u16,
    first: u8,
    last: u8,
}

impl Model for Window {
    ghost use Rattle.l6_word.specs.Window.{Window as Bits};

    ghost Value = { Bits };

    ghost use Rattle.std.specs.Prelude.{IsTrue};
    ghost use Rattle.l6_word.specs.Window.{is_window};

    ghost view = { λ w. record { word = w.word; first = w.first; last = w.last } };

    ghost invariant = { λ w.
        IsTrue (is_window (record { word = w.word; first = w.first; last = w.last })) };

    ghost inverse = { λ b. record { word = b.word; first = b.first; last = b.last } };
}

impl Window {
    /// The window on these bits of a word, or `None` if the largest block has no such word (from
    /// 1,024 on), a word has no such bit (from 36 on), or the first bit is after the last.
    pub fn new(word: u16, first: u8, last: u8) -> Option<Self>
        ensures valid { IsSome result
            ↔ IsTrue (is_window (record { word = word; first = first; last = last })) }
        ensures value { IfSome result
            (λ window. window ≡ record { word = word; first = first; last = last }) }
    {
        if word < UNIT_SIZE && first <= last && u32::from(last) < Word::BITS {
            Some(Window { word, first, last })
        } else {
            None
        }
    }

    /// The index of the word in its block, below 1,024.
    pub fn word(self) -> u16
        ensures value { result ≡ self.word }
        ensures range { result < unit_size }
    {
        self.word
    }

    /// The first bit, at most the last.
    pub fn first(self) -> u8
        ensures value { result ≡ self.first }
        ensures range { result ≤ self.last }
    {
        self.first
    }

    /// The last bit, below 36.
    pub fn last(self) -> u8
        ensures value { result ≡ self.last }
        ensures range { result < word_bits }
    {
        self.last
    }

    /// How many bits the window has, 1 to 36.
    pub fn width(self) -> u8
        ensures value { result ≡ width self }
        ensures range { result ≤ word_bits }
    {
        self.last - self.first + 1
    }

    /// What the window shows of a word: its bits, moved to the right end.
    pub fn take(self, word: Word) -> Word
        ensures value { result ≡ take self word }
        ensures range { result < 2 ^ width self }
    {
        Word::from_value(word.get() >> self.shift() & self.mask())
    }

    /// The word with the lowest bits of a value in the window. Its other bits stay. As the window
    /// has no more bits than a word, the value may be a number that was cut to a word.
    pub fn put(self, word: Word, value: Word) -> Word
        ensures value { result ≡ put self word value }
        ensures cut { (number : ℕ) → value ≡ number % 2 ^ word_bits
            → result ≡ put self word number }
    {
        let shift = self.shift();
        let mask = self.mask();
        Word::from_value(word.get() & !(mask << shift) | (value.get() & mask) << shift)
    }

    /// How many bits are to the right of the window.
    fn shift(self) -> u32
        ensures value { result ≡ right_of self }
        ensures range { result + width self ≤ word_bits }
    {
        Word::BITS - 1 - u32::from(self.last)
    }

    /// As many ones as the window has bits.
    fn mask(self) -> u64
        ensures { result ≡ 2 ^ width self - 1 }
    {
        (1 << self.width()) - 1
    }
}
