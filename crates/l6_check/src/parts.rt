//! The parts of a deck: each is a statement with the cards that are not read after it.

ghost use Rattle.std.specs.Prelude.{◌≡◌, ◌+◌, ◌≤◌, [], drop, length, MatchOption, IfOk};
ghost use Rattle.l6_word.specs.Lines.{lines_of};
ghost use Rattle.l6_card.specs.Numerals.{card_width, most_deck_bytes};
ghost use Rattle.l6_card.specs.ReadAlone.{objection_to_lines};
ghost use Rattle.l6_check.specs.Statements as spec;
ghost use Rattle.l6_check.specs.inner.Parts.{lines_in, IsNextPart};

use crate::fault::OutOfMemory;
use crate::finding::WIDTH;
use crate::scan::begin_blank;
use l6_card::{Objection, ReadError, Role, columns_of, read_part, role_of};
use l6_group::{Spelling, after_then, spelled};
use l6_word::{first_line, without_return};
use std::alloc::Global;

/// A part of a deck: so many cards of a text.
#[derive(Clone, Copy, Debug)]
pub(crate) struct Part<'a> {
    /// How many cards of the deck are before it.
    pub(crate) before: u32,
    /// The text that begins with it.
    pub(crate) text: &'a [u8],
    /// How many cards it has.
    pub(crate) count: u32,
}

impl<'a> Part<'a> {
    /// The objection to it, read as a deck of its own, if there is one.
    ///
    /// # Errors
    ///
    /// Memory ran out.
    pub(crate) fn objection(self, alloc: Global) -> Result<Option<Objection>, OutOfMemory>
        requires { self.before + length self.text.now ≤ most_deck_bytes }
        ensures { let met = objection_to_lines (self.entry.before + 1) (lines_in self.entry) in
            IfOk result (λ objection. objection ≡ met) }
    {
        match read_part(alloc, self.before, self.text, self.count) {
            Ok(_) => Ok(None),
            Err(ReadError::Objection(objection)) => Ok(Some(objection)),
            Err(ReadError::NoMemory) => Err(OutOfMemory),
        }
    }

    /// The line of a card of it, without a return.
    pub(crate) fn line_on(self, card: u32) -> &'a [u8] {
        line_on(self.text, self.before, card)
    }
}

/// The line of a card of a text that comes after so many cards, without a return.
pub(crate) fn line_on(text: &[u8], before: u32, card: u32) -> &[u8] {
    let mut rest = text;
    let mut number = before;
    while let Some((line, following)) = first_line(rest) {
        number = number.saturating_add(1);
        if number >= card {
            return without_return(line);
        }
        rest = following;
    }
    &[]
}

/// The parts that are left of a deck.
#[derive(Clone, Copy, Debug)]
pub(crate) struct Parts<'a> {
    /// How many cards of the deck are before them.
    pub(crate) before: u32,
    /// Their text.
    pub(crate) rest: &'a [u8],
}

impl<'a> Parts<'a> {
    /// The parts of a deck.
    pub(crate) fn of(deck: &'a [u8]) -> Self
        ensures before { result.before ≡ 0 }
        ensures rest { result.rest.now ≡ deck.now }
    {
        Parts {
            before: 0,
            rest: deck,
        }
    }

    /// The next part, if there is one.
    pub(crate) fn next(&mut self) -> Option<Part<'a>>
        requires { self.old.before + length self.old.rest.now ≤ most_deck_bytes }
        ensures { MatchOption result
            (lines_of self.old.rest.now ≡ [])
            (λ part. IsNextPart self.old part self.new) }
    {
        let (_, others) = first_line(self.rest)?;
        let following = past_statement(others);
        let part = Part {
            before: self.before,
            text: self.rest,
            count: following.further + 1,
        };
        self.before += part.count;
        self.rest = following.text;
        Some(part)
    }
}

/// What follows the first card of a part.
#[derive(Clone, Copy)]
struct Following<'a> {
    /// How many more cards belong to the part.
    further: u32,
    /// The text after them.
    text: &'a [u8],
}

/// What follows the first card of a part, which this text comes after.
fn past_statement(text: &[u8]) -> Following<'_>
    requires { length text.now ≤ most_deck_bytes }
    ensures count { result.further ≡ spec.further_count (lines_of text.now) }
    ensures following { lines_of result.text.now ≡ drop result.further (lines_of text.now) }
    ensures shorter { result.further + length result.text.now ≤ length text.now }
{
    let mut rest = text;
    let mut further: u32 = 0;
    while let Some((line, following)) = first_line(rest) {
        if !belongs(line) {
            break;
        }
        further += 1;
        rest = following;
    }
    Following {
        further,
        text: rest,
    }
}

/// Whether the card of a line belongs to the statement before it: it says so, or begins with THEN and lacks
/// its `+`.
fn belongs(line: &[u8]) -> bool
    ensures { result ≡ spec.belongs line.now }
{
    continues(role_of(line)) || begin_with_then(columns_of(line))
}

/// Whether a card of this role continues the statement before it, or is not read.
fn continues(role: Role) -> bool
    ensures { result ≡ spec.continues role }
{
    match role {
        Role::Skipped | Role::Further => true,
        Role::First | Role::Unknown => false,
    }
}

/// Whether columns begin with a blank, and then with THEN.
pub(crate) fn begin_with_then(columns: &[u8]) -> bool
    requires { length columns.now ≤ card_width }
    ensures { result ≡ spec.begin_with_then columns.now }
{
    begin_blank(columns) && spell_then(columns)
}

/// Whether columns spell THEN, and perhaps more after it.
pub(crate) fn spell_then(columns: &[u8]) -> bool
    requires { length columns.now ≤ card_width }
    ensures { result ≡ spec.spell_then columns.now }
{
    let characters: Option<Spelling<'_, WIDTH>> = spelled(columns);
    match characters {
        None => false,
        Some(characters) => after_then(characters.as_slice()).is_some(),
    }
}
