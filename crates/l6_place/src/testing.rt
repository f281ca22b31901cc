//! The groups of a deck that are tests.

use crate::groups::body_of;
use l6_card::{Role, Token, columns_of, first_item, role_of};
use l6_group::{MAX_LABEL_CHARACTERS, Spelling, after_then, condition_from, spelled};
use l6_word::first_line;

/// Whether a group at a column of a card stands among the tests of its statement: a condition begins the
/// statement, and THEN does not come before the group.
pub fn is_in_test(deck: &[u8], card: usize, column: usize) -> bool {
    let mut rest = deck;
    let mut number: usize = 0;
    let mut is_testing = false;
    while let Some((line, following)) = first_line(rest) {
        number = number.saturating_add(1);
        let columns = columns_of(line);
        if role_of(line) == Role::First {
            is_testing = false;
        }
        let end = if number == card {
            column
        } else {
            columns.len()
        };
        is_testing = tests_after(columns, end, is_testing);
        if number >= card {
            return is_testing;
        }
        rest = following;
    }
    is_testing
}

/// Whether tests come after the words of a card that begin before a column, where they do before the card.
fn tests_after(columns: &[u8], end: usize, before: bool) -> bool {
    let mut is_testing = before;
    let mut rest = body_of(columns);
    while columns.len().saturating_sub(rest.len()) < end {
        match first_item(rest) {
            Token::End | Token::Unclosed(_) | Token::Unopened(_) => return is_testing,
            Token::Group(_, following) => rest = following,
            Token::Word(word, following) => {
                is_testing = is_condition(word) || (is_testing && !is_then(word));
                rest = following;
            }
        }
    }
    is_testing
}

/// Whether a word is a condition.
fn is_condition(word: &[u8]) -> bool {
    let characters: Option<Spelling<'_, MAX_LABEL_CHARACTERS>> = spelled(word);
    match characters {
        None => false,
        Some(characters) => condition_from(characters.as_slice()).is_some(),
    }
}

/// Whether a word begins with THEN.
fn is_then(word: &[u8]) -> bool {
    let characters: Option<Spelling<'_, 10>> = spelled(word);
    match characters {
        None => false,
        Some(characters) => after_then(characters.as_slice()).is_some(),
    }
}
