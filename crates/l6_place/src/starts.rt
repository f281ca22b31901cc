//! Where the cards of a deck begin.

ghost use Rattle.std.specs.Prelude.{◌≡◌, ◌≤◌, ◌<◌, ◌+◌, ◌-◌, ◌^◌, length, IfOk};
ghost use Rattle.l6_place.specs.Cards as spec;
ghost use Rattle.l6_place.specs.inner.Starts.{StartsAt, starts_of};

use crate::spot::{Spot, is_last_of_end, units_of};
use l6_word::{first_line, without_return};
use std::alloc::{AllocError, Global};
use std::marker::Model;

/// Where a card begins.
#[derive(Clone, Copy, Debug, PartialEq, Eq)]
struct CardStart {
    /// How many bytes of the deck are before it.
    offset: usize,
    /// Its line, as editors count.
    line: u64,
}

/// The cards of a deck, by where they begin. Cards end at line feeds, and the lines of editors also at carriage
/// returns.
#[derive(Drop)]
pub struct CardStarts<'a> {
    deck: &'a [u8],
    starts: Vec<CardStart>,
    ghost are: { starts.items ≡ starts_of deck.now },
}

impl<'a> Model for CardStarts<'a> {
    ghost use Rattle.std.specs.Prelude.{ℕ, List};

    ghost Value = { List ℕ };

    ghost view = { λ cards. cards.deck.now };
}

impl<'a> CardStarts<'a> {
    /// The cards of a deck.
    ///
    /// # Errors
    ///
    /// Memory ran out.
    pub fn of(alloc: Global, deck: &'a [u8]) -> Result<Self, AllocError>
        ensures { IfOk result (λ cards. cards ≡ deck.now) }
    {
        let mut starts = Vec::new(alloc);
        let mut line: u64 = 0;
        let mut rest = deck;
        starts.push(CardStart { offset: 0, line })?;
        while let Some((first, following)) = rest.split_first() {
            if is_last_of_end(*first, following) {
                line += 1;
            }
            rest = following;
            if *first == b'\n' {
                starts.push(CardStart {
                    offset: deck.len() - rest.len(),
                    line,
                })?;
            }
        }
        Ok(CardStarts { deck, starts })
    }

    /// The deck.
    pub fn deck(&self) -> &'a [u8]
        ensures { result.now ≡ self.now }
    {
        self.deck
    }

    /// The line of a card, numbered from 1, without its end: nothing where there is no such card.
    pub fn card(&self, card: usize) -> &'a [u8]
        ensures value { result.now ≡ spec.card_line self.now card }
        ensures within { spec.card_start self.now card + length result.now ≤ length self.now }
    {
        match first_line(&self.deck[self.offset(card)..]) {
            None => &[],
            Some((line, _)) => without_return(line),
        }
    }

    /// How many bytes of the deck are before a card: all of them where there is no such card.
    fn offset(&self, card: usize) -> usize
        ensures value { result ≡ spec.card_start self.now card }
        ensures within { result ≤ length self.now }
        ensures few { length self.now < 2 ^ 64 }
    {
        let all = self.deck.len();
        match self.start(card) {
            None => all,
            Some(start) => start.offset,
        }
    }

    /// How many bytes of the deck are before a column of a card, counted from 0: those before the end of its
    /// line, where the column is past that.
    pub fn offset_in(&self, card: usize, column: usize) -> usize
        ensures value { result ≡ spec.before_column self.now card column }
        ensures within { result ≤ length self.now }
    {
        self.offset(card) + column.min(self.card(card).len())
    }

    /// Where a card begins.
    fn start(&self, card: usize) -> Option<CardStart>
        ensures { StartsAt self.now card result }
    {
        let index = card.checked_sub(1)?;
        if index < self.starts.len() {
            Some(self.starts[index])
        } else {
            None
        }
    }

    /// The place of a column of a card, counted from 0: its end, where the column is past it.
    pub fn spot(&self, card: usize, column: usize) -> Spot
        ensures { result ≡ spec.spot_of self.now card column }
    {
        let end = self.offset_in(card, column);
        match self.start(card) {
            None => spot_after(self.deck, 0, end),
            Some(start) => spot_after(&self.deck[start.offset..], start.line, end - start.offset),
        }
    }

    /// The card that has a byte of the deck, numbered from 1, and how many of its bytes are before it.
    pub fn card_at(&self, offset: usize) -> (usize, usize) {
        let after = self
            .starts
            .as_slice()
            .partition_point(|start| start.offset <= offset);
        let card = after.max(1);
        match self.start(card) {
            None => (card, 0),
            Some(start) => (card, offset.saturating_sub(start.offset)),
        }
    }
}

/// The place after so many bytes of a text that begins a line of this number.
fn spot_after(text: &[u8], line: u64, count: usize) -> Spot
    requires { line + length text.now ≤ 2 ^ 63 }
    ensures { result ≡ spec.spot_after (spec.line_spot line) count text.now }
{
    let mut spot = Spot { line, character: 0 };
    let mut rest = text;
    let mut left = count;
    while let Some((first, following)) = rest.split_first() {
        if left == 0 {
            break;
        }
        spot = next_spot(spot, *first, following);
        left -= 1;
        rest = following;
    }
    spot
}

/// The place after a byte, with those that follow it.
fn next_spot(spot: Spot, first: u8, rest: &[u8]) -> Spot
    requires line { spot.line < 2 ^ 63 }
    requires character { spot.character < 2 ^ 64 - 2 }
    ensures value { result ≡ spec.next_spot spot first rest.now }
    ensures line { result.line ≤ spot.line + 1 }
    ensures character { result.character ≤ spot.character + 2 }
{
    if is_last_of_end(first, rest) {
        Spot {
            line: spot.line + 1,
            character: 0,
        }
    } else {
        Spot {
            line: spot.line,
            character: spot.character + units_of(first),
        }
    }
}
