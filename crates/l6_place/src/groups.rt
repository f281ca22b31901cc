//! The groups of a deck, one after another.

ghost use Rattle.std.specs.Prelude.{◌≡◌};

use crate::occurrence::without_blanks;
use l6_card::{Token, columns_of, first_item, split_label};
use l6_group::is_letter;
use l6_word::first_line;

/// A group of a card.
#[derive(Clone, Copy, Debug)]
pub struct Group<'a> {
    /// The card, numbered from 1.
    pub card: usize,
    /// The column of the group's `(`, counted from 0.
    pub from: usize,
    /// The columns between its parentheses.
    pub inside: &'a [u8],
}

/// The groups of a deck that are still to come.
#[derive(Clone, Copy, Debug)]
pub struct Groups<'a> {
    /// The lines after this card.
    lines: &'a [u8],
    /// The columns of this card.
    columns: &'a [u8],
    /// Those of them that are still to come.
    rest: &'a [u8],
    card: usize,
}

impl<'a> Groups<'a> {
    /// Those of a deck.
    pub fn of(deck: &'a [u8]) -> Self {
        Groups {
            lines: deck,
            columns: &[],
            rest: &[],
            card: 0,
        }
    }

    /// The next group.
    pub fn next_group(&mut self) -> Option<Group<'a>> {
        loop {
            if let Some(group) = self.next_on_card() {
                return Some(group);
            }
            let (line, following) = first_line(self.lines)?;
            self.lines = following;
            self.columns = columns_of(line);
            self.rest = body_of(self.columns);
            self.card = self.card.saturating_add(1);
        }
    }

    /// The next group of this card.
    fn next_on_card(&mut self) -> Option<Group<'a>>
        ensures { self.new.lines.now ≡ self.old.lines.now }
    {
        loop {
            let from = self
                .columns
                .len()
                .saturating_sub(without_blanks(self.rest).len());
            match first_item(self.rest) {
                Token::End | Token::Unclosed(_) | Token::Unopened(_) => {
                    self.rest = &[];
                    return None;
                }
                Token::Group(inside, following) => {
                    self.rest = following;
                    let card = self.card;
                    return Some(Group { card, from, inside });
                }
                Token::Word(_, following) => self.rest = following,
            }
        }
    }
}

/// What follows the label or column 1 of a card; nothing where it is a comment.
pub(crate) fn body_of(columns: &[u8]) -> &[u8] {
    match columns.split_first() {
        None | Some((b'*', _)) => &[],
        Some((first, others)) => {
            if is_letter(*first) {
                split_label(columns).1
            } else {
                others
            }
        }
    }
}
