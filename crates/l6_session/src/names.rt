//! How commands name the statements of a deck.

ghost use Rattle.std.specs.Prelude.{◌≡◌, ◌+◌, ◌<◌, ◌^◌};
ghost use Rattle.std.specs.Option.{option_or};
ghost use Rattle.l6_word.specs.Lines.{lines_of};
ghost use Rattle.l6_debug.specs.Command as commands;
ghost use Rattle.l6_session.specs.Names as spec;

use crate::parted::parted;
use l6_asm::Labels;
use l6_card::role_of;
use l6_debug::number_of;
use l6_group::label_of;
use l6_marks::{begun_with, statement_with};
use l6_word::first_line;
use std::marker::Model;

/// What a deck's statements are named by: the labels, and the cards.
#[derive(Drop)]
pub struct Names {
    labels: Labels,
    deck: Vec<u8>,
    statements: usize,
}

impl Model for Names {
    ghost use Rattle.l6_session.specs.Names as names;

    ghost Value = { names.Names };

    ghost view = { λ n. record {
      labels = n.labels.entries;
      deck = n.deck.items;
      statements = n.statements;
    } };
}

impl Names {
    /// The names of the statements of this deck, which has these labels, and whose program has so many
    /// statements.
    pub fn new(labels: Labels, deck: Vec<u8>, statements: usize) -> Self
        ensures { result ≡ record {
          labels = labels.entries;
          deck = deck.items;
          statements = statements;
        } }
    {
        Names {
            labels,
            deck,
            statements,
        }
    }

    /// The labels, in the order of the cards, each with the number of its statement.
    pub fn labels(&self) -> &Labels
        ensures { result.now.entries ≡ self.now.labels }
    {
        &self.labels
    }

    /// The text of the deck.
    pub fn deck(&self) -> &[u8]
        ensures { result.now ≡ self.now.deck }
    {
        self.deck.as_slice()
    }

    /// The number of the statement that a word names: by its number, by its label, also with `+` and how
    /// many statements after it, or, after a colon, by the number of one of its cards. `None` where the
    /// program has no such statement.
    pub fn statement_of(&self, word: &[u8]) -> Option<u64>
        ensures { result ≡ spec.statement_of self.now word.now }
    {
        if let Some((label, digits)) = parted(word, b'+') {
            return self.statement_after(label, digits);
        }
        let number = self.number_by(word)?;
        if number < self.statements as u64 {
            Some(number)
        } else {
            None
        }
    }

    /// How many statements the program has.
    pub(crate) fn statements(&self) -> usize
        ensures { result ≡ self.now.statements }
    {
        self.statements
    }

    /// The number that a word gives.
    fn number_by(&self, word: &[u8]) -> Option<u64>
        ensures { result ≡ option_or (commands.number_of word.now)
            (option_or (spec.statement_of_card self.now word.now)
            (spec.statement_of_label self.now word.now)) }
    {
        if let Some(number) = number_of(word) {
            return Some(number);
        }
        if let Some(number) = self.statement_of_card(word) {
            return Some(number);
        }
        self.statement_of_label(word)
    }

    /// The number of the statement that is so many statements after a label.
    fn statement_after(&self, label: &[u8], digits: &[u8]) -> Option<u64>
        ensures { result ≡ spec.statement_after self.now label.now digits.now }
    {
        let from = self.statement_of_label(label)?;
        let further = number_of(digits)?;
        self.statement_further(from, further)
    }

    /// The number of the statement that is so many statements after another one.
    fn statement_further(&self, from: u64, further: u64) -> Option<u64>
        ensures { result ≡ spec.if_statement self.now (from + further) }
    {
        let statements = self.statements as u64;
        if from < statements && further < statements - from {
            Some(from + further)
        } else {
            None
        }
    }

    /// The number of the statement whose label a word is.
    pub(crate) fn statement_of_label(&self, word: &[u8]) -> Option<u64>
        ensures { result ≡ spec.statement_of_label self.now word.now }
    {
        let label = label_of(word)?;
        let number = self.labels.get(&label).copied()?;
        Some(u64::from(number))
    }

    /// The number of the statement of a card, whose number follows a colon.
    fn statement_of_card(&self, word: &[u8]) -> Option<u64>
        ensures { result ≡ spec.statement_of_card self.now word.now }
    {
        let (first, digits) = word.split_first()?;
        if *first == b':' {
            statement_on(number_of(digits)?, self.deck.as_slice())
        } else {
            None
        }
    }
}

/// The number of the statement of the card of this number in a deck, from 1 on.
fn statement_on(wanted: u64, deck: &[u8]) -> Option<u64>
    ensures { result ≡ spec.statement_on wanted 0 0 (lines_of deck.now) }
{
    let mut rest = deck;
    let mut card: usize = 0;
    let mut begun: usize = 0;
    while let Some((line, following)) = first_line(rest) {
        card += 1;
        let role = role_of(line);
        begun = begun_with(role, begun);
        if wanted == card as u64 {
            return statement_with(role, begun);
        }
        rest = following;
    }
    None
}
