//! Where the cards of a deck give and name labels.

ghost use Rattle.std.specs.Prelude.{◌≡◌, ◌≤◌, length};

use l6_card::{Token, columns_of, first_item, split_label};
use l6_group::{
    Label, Spelling, after_then, are_blank, is_blank, is_letter, label_of, operation_of, spelled,
};
use l6_prog::Op;
use l6_word::first_line;
use std::alloc::{AllocError, Global};

/// How many characters a word may have that names a label: those of THEN and those of the label.
const MOST: usize = 10;

/// How a card uses a label.
#[derive(Clone, Copy, Debug, PartialEq, Eq)]
pub enum Use {
    /// It gives the label.
    Gives,
    /// It calls its statement.
    Calls,
    /// Where an operation has no success, the run goes there.
    Fails,
    /// An exit leads there.
    Exits,
}

/// A place where a label is given or named.
#[derive(Debug, Drop)]
pub struct Occurrence {
    /// The label.
    pub label: Label,
    /// Its card, numbered from 1.
    pub card: usize,
    /// Its first column, counted from 0.
    pub from: usize,
    /// The column after its last one.
    pub to: usize,
    /// How it is used there.
    pub kind: Use,
}

/// The places where the cards of a deck give and name labels, in their order.
///
/// # Errors
///
/// Memory ran out.
pub fn occurrences_of(alloc: Global, deck: &[u8]) -> Result<Vec<Occurrence>, AllocError> {
    let mut found = Vec::new(alloc);
    let mut rest = deck;
    let mut card: usize = 0;
    while let Some((line, following)) = first_line(rest) {
        card = card.saturating_add(1);
        push_card(&mut found, card, columns_of(line))?;
        rest = following;
    }
    Ok(found)
}

/// Adds those of a card with these columns.
fn push_card(found: &mut Vec<Occurrence>, card: usize, columns: &[u8]) -> Result<(), AllocError> {
    let Some((first, others)) = columns.split_first() else {
        return Ok(());
    };
    if *first == b'*' || are_blank(columns) {
        return Ok(());
    }
    let mut rest = others;
    if is_letter(*first) {
        let (label, body) = split_label(columns);
        push_label(found, Use::Gives, card, 0, label)?;
        rest = body;
    }
    loop {
        let from = columns.len().saturating_sub(without_blanks(rest).len());
        match first_item(rest) {
            Token::End | Token::Unclosed(_) | Token::Unopened(_) => return Ok(()),
            Token::Group(inside, following) => {
                push_group(found, card, from.saturating_add(1), inside)?;
                rest = following;
            }
            Token::Word(word, following) => {
                if following.is_empty() {
                    push_exit(found, card, from, without_blanks(word))?;
                }
                rest = following;
            }
        }
    }
}

/// Adds those of a group, whose first element begins in this column.
fn push_group(
    found: &mut Vec<Occurrence>,
    card: usize,
    from: usize,
    inside: &[u8],
) -> Result<(), AllocError> {
    let Some(operation) = operation_of(inside) else {
        return Ok(());
    };
    let mut column = from;
    for (index, element) in inside.split(|byte| *byte == b',').enumerate() {
        if let Some(kind) = use_of(&operation, index) {
            let text = without_blanks(element);
            let front = element.len().saturating_sub(text.len());
            push_label(
                found,
                kind,
                card,
                column.saturating_add(front),
                trimmed(text),
            )?;
        }
        column = column.saturating_add(element.len()).saturating_add(1);
    }
    Ok(())
}

/// How an operation uses the label that is its element of this number, if it is one.
pub fn use_of(operation: &Op<Label>, element: usize) -> Option<Use> {
    match (operation, element) {
        (Op::Call(_, _), 0) => Some(Use::Calls),
        (Op::Call(_, Some(_)), 2)
        | (Op::Get(_, _, _, Some(_)), 4)
        | (Op::Duplicate(_, _, Some(_)), 4)
        | (Op::Input(_, _, Some(_)), 3) => Some(Use::Fails),
        _ => None,
    }
}

/// Adds the label of an exit.
fn push_exit(
    found: &mut Vec<Occurrence>,
    card: usize,
    from: usize,
    word: &[u8],
) -> Result<(), AllocError> {
    let word = trimmed(word);
    let characters: Option<Spelling<'_, MOST>> = spelled(word);
    let Some(characters) = characters else {
        return Ok(());
    };
    let label = match after_then(characters.as_slice()) {
        None => word,
        Some(after) => last_letters(word, after.len()),
    };
    let front = word.len().saturating_sub(label.len());
    push_label(found, Use::Exits, card, from.saturating_add(front), label)
}

/// The end of a word that has so many characters which are no blanks, and begins with one of them.
fn last_letters(word: &[u8], count: usize) -> &[u8] {
    let mut left = count;
    let mut rest = word;
    let mut start = word.len();
    while let Some((last, front)) = rest.split_last() {
        if left == 0 {
            break;
        }
        if !is_blank(*last) {
            left -= 1;
            start = front.len();
        }
        rest = front;
    }
    word.get(start..).unwrap_or(&[])
}

/// Adds a place, if a label is spelled there.
fn push_label(
    found: &mut Vec<Occurrence>,
    kind: Use,
    card: usize,
    from: usize,
    text: &[u8],
) -> Result<(), AllocError> {
    if let Some(label) = label_of(text) {
        let to = from.saturating_add(text.len());
        let one = Occurrence {
            label,
            card,
            from,
            to,
            kind,
        };
        found.push(one)?;
    }
    Ok(())
}

/// Columns without the blanks around them.
fn trimmed(columns: &[u8]) -> &[u8] {
    let mut rest = without_blanks(columns);
    while let Some((last, before)) = rest.split_last() {
        if !is_blank(*last) {
            return rest;
        }
        rest = before;
    }
    rest
}

/// Columns without the blanks that they begin with.
pub fn without_blanks(columns: &[u8]) -> &[u8]
    ensures { length result.now ≤ length columns.now }
{
    let mut rest = columns;
    while let Some((first, following)) = rest.split_first() {
        if !is_blank(*first) {
            return rest;
        }
        rest = following;
    }
    rest
}
