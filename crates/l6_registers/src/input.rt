//! The input of a run, as its characters are taken.

ghost use Rattle.std.specs.Prelude.{◌≡◌, ◌+◌, ◌-◌, ◌<◌, ◌≤◌, ◌++◌, ◌∷◌, length, take, drop, IfOk, OnOk, slice_index};
ghost use Rattle.l6_word.specs.Input.{characters_of};
ghost use Rattle.l6_word.specs.Numerals.{code_count, input_width};
ghost use Rattle.l6_steps.specs.Characters.{number_of};
ghost use Rattle.l6_steps.specs.Numerals.{most_input, word_characters};
ghost use Rattle.l6_registers.specs.inner.Input.{blank, kept_line, line_end, spread};

use l6_word::{CODE_COUNT, first_line, input_code, without_return};
use std::alloc::{AllocError, Global};
use std::marker::Model;
use std::rc::Rc;

/// How many characters a line of an input has.
pub const INPUT_WIDTH: usize = 80;

/// What follows the codes of a line: no character has this code.
const LINE_END: u8 = 64;

/// The code of a blank.
const BLANK: u8 = 0;

/// The input of a run, and how much of it is taken. The codes of each line are kept, cut to the
/// width of a line, with an end after them; the blanks that fill a line are not kept, but counted.
#[derive(Drop)]
pub(crate) struct Input {
    // they never change, so the copies of an input share them
    codes: Rc<Vec<u8>, Global>,
    // how many characters there are, and how many are taken
    count: usize,
    taken: usize,
    // where the next one is: its place among the codes, and its column in its line
    place: usize,
    column: usize,
}

impl Model for Input {
    ghost use Rattle.std.specs.Coded.{code_by, coded×, coded_ℕ, coded_list};
    ghost use Rattle.l6_registers.specs.inner.Input.{Fed, IsFed, characters_in};

    ghost Value = { Fed };

    ghost view = { λ i. record { characters = characters_in i.codes.value.items; taken = i.taken } };

    ghost invariant = { λ i. IsFed i.codes.value.items i.count i.taken i.place i.column };
}

impl Input {
    /// The input of this text, of which nothing is taken yet.
    pub(crate) fn new(alloc: Global, text: &[u8]) -> Result<Self, AllocError>
        requires { length text.now ≤ most_input }
        ensures characters { IfOk result (λ input. input.characters ≡ characters_of text.now) }
        ensures taken { IfOk result (λ input. input.taken ≡ 0) }
    {
        let mut codes = Vec::with_capacity(alloc, text.len() + 1)?;
        let mut count = 0;
        let mut rest = text;
        while let Some((line, following)) = first_line(rest) {
            push_line(&mut codes, without_return(line))?;
            count += INPUT_WIDTH;
            rest = following;
        }
        Ok(Input {
            codes: Rc::new(alloc, codes)?,
            count,
            taken: 0,
            place: 0,
            column: 0,
        })
    }

    /// A copy of the input, of which as many characters are taken.
    pub(crate) fn duplicate(&self) -> Result<Self, AllocError>
        ensures { IfOk result (λ copy. copy ≡ self.now) }
    {
        Ok(Input {
            codes: self.codes.clone()?,
            count: self.count,
            taken: self.taken,
            place: self.place,
            column: self.column,
        })
    }

    /// Gives all characters back, so that none is taken.
    pub(crate) fn rewind(&mut self)
        ensures { self.new ≡ record self.old { taken = 0 } }
    {
        self.taken = 0;
        self.place = 0;
        self.column = 0;
    }

    /// How many characters are taken.
    pub(crate) fn taken(&self) -> usize
        ensures { result ≡ self.now.taken }
    {
        self.taken
    }

    /// How many characters are not taken yet.
    pub(crate) fn left(&self) -> usize
        ensures { result ≡ length (drop self.now.taken self.now.characters) }
    {
        self.count - self.taken
    }

    /// Takes so many characters, and answers the number that they stand for. The caller owes that so
    /// many are left.
    pub(crate) fn take(&mut self, count: usize) -> u64
        requires few { count ≤ word_characters }
        requires left { count ≤ length (drop self.old.taken self.old.characters) }
        ensures value { result
            ≡ number_of (take count (drop self.old.taken self.old.characters)) }
        ensures taken { self.new ≡ record self.old { taken = self.old.taken + count } }
    {
        let mut number = 0;
        for _ in 0..count {
            number = number * CODE_COUNT + u64::from(self.next());
        }
        number
    }

    /// Takes a character, and answers its code. The caller owes that one is left.
    fn next(&mut self) -> u8
        requires { 0 < length (drop self.old.taken self.old.characters) }
        ensures value { drop self.old.taken self.old.characters
            ≡ result ∷ drop self.new.taken self.old.characters }
        ensures taken { self.new ≡ record self.old { taken = self.old.taken + 1 } }
        ensures range { result < code_count }
    {
        let (code, place, column) = next_of(
            self.codes.as_ref().as_slice(),
            self.place,
            self.column,
        );
        self.taken += 1;
        self.place = place;
        self.column = column;
        code
    }
}

/// Keeps a line after the others.
fn push_line(codes: &mut Vec<u8>, line: &[u8]) -> Result<(), AllocError>
    ensures { OnOk result
        (codes.new.items ≡ codes.old.items ++ kept_line input_width line.now) }
{
    for byte in &line[..line.len().min(INPUT_WIDTH)] {
        codes.push(input_code(*byte))?;
    }
    codes.push(LINE_END)?;
    Ok(())
}

/// The code of the next character, and the place and the column of the one after it. At a line's end
/// it is in the next line.
fn next_of(codes: &[u8], place: usize, column: usize) -> (u8, usize, usize)
    requires some { 0 < length (spread input_width column (drop place codes.now)) }
    requires near { column ≤ input_width + place }
    requires inside { place ≤ length codes.now }
    ensures value { spread input_width column (drop place codes.now)
        ≡ result.0 ∷ spread input_width result.2 (drop result.1 codes.now) }
    ensures near { result.2 ≤ input_width + result.1 }
    ensures inside { result.1 ≤ length codes.now }
{
    if codes[place] == LINE_END && column >= INPUT_WIDTH {
        next_in_line(codes, place + 1, 0)
    } else {
        next_in_line(codes, place, column)
    }
}

/// The same within a line: at its end is a blank, until it has its width.
fn next_in_line(codes: &[u8], place: usize, column: usize) -> (u8, usize, usize)
    requires some { place < length codes.now }
    requires blank { slice_index codes.now place ≡ line_end → column < input_width }
    requires near { column ≤ input_width + place }
    ensures value { spread input_width column (drop place codes.now)
        ≡ result.0 ∷ spread input_width result.2 (drop result.1 codes.now) }
    ensures near { result.2 ≤ input_width + result.1 }
    ensures inside { result.1 ≤ length codes.now }
{
    match codes[place] {
        LINE_END => (BLANK, place, column + 1),
        code => (code, place + 1, column + 1),
    }
}
