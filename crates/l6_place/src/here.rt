//! What is at a column of a card.

ghost use Rattle.std.specs.Prelude.{◌≡◌, ◌≤◌, length};

use crate::occurrence::without_blanks;
use l6_card::{Token, first_item, split_label};
use l6_group::{are_blank, is_letter};

/// What is at a column of a card.
#[derive(Clone, Copy, Debug)]
pub enum Item<'a> {
    /// The label that the card gives.
    Label(&'a [u8]),
    /// A group with these columns between its parentheses.
    Group(&'a [u8]),
    /// A word.
    Word(&'a [u8]),
    /// Nothing that counts.
    Nothing,
}

/// What is at a column of a card, and where.
#[derive(Clone, Copy, Debug)]
pub struct Here<'a> {
    /// What is there.
    pub item: Item<'a>,
    /// Its first column, counted from 0.
    pub from: usize,
    /// The column after its last one.
    pub to: usize,
}

/// What is at a column of a card with these columns.
pub fn here_on(columns: &[u8], column: usize) -> Here<'_> {
    let nothing = Here {
        item: Item::Nothing,
        from: column,
        to: column,
    };
    let Some((first, others)) = columns.split_first() else {
        return nothing;
    };
    if *first == b'*' || are_blank(columns) {
        return nothing;
    }
    let mut rest = others;
    if is_letter(*first) {
        let (label, body) = split_label(columns);
        if column <= label.len() {
            return Here {
                item: Item::Label(label),
                from: 0,
                to: label.len(),
            };
        }
        rest = body;
    }
    loop {
        let from = columns.len().saturating_sub(without_blanks(rest).len());
        let (item, following) = match first_item(rest) {
            Token::End | Token::Unclosed(_) | Token::Unopened(_) => return nothing,
            Token::Group(inside, following) => (Item::Group(inside), following),
            Token::Word(word, following) => (Item::Word(word), following),
        };
        let to = columns.len().saturating_sub(following.len());
        if from <= column && column < to {
            return Here { item, from, to };
        }
        rest = following;
    }
}
