//! Where cards name labels.

ghost use Rattle.std.specs.Prelude.{◌≡◌, ◌≤◌, length, IfSome};
ghost use Rattle.l6_check.specs.Marked as spec;
ghost use Rattle.l6_check.specs.OnCard.{IsOnCard};

use crate::element::nth_element;
use crate::finding::Span;
use crate::scan::{columns_from, without_blanks, without_last_blanks};
use l6_card::{Token, first_item, split_label};
use l6_group::{Label, is_blank, is_letter, label_of};

/// Where columns name a label.
pub(crate) fn span_of(columns: &[u8], label: &Label) -> Span
    ensures { IsOnCard result }
{
    let mut rest = columns_from(columns, body_start(columns));
    loop {
        let from = columns.len().saturating_sub(without_blanks(rest).len());
        match first_item(rest) {
            Token::End | Token::Unclosed(_) | Token::Unopened(_) => return Span::whole(),
            Token::Group(inside, following) => {
                if let Some(span) = span_in_group(from.saturating_add(1), inside, label) {
                    return span;
                }
                rest = following;
            }
            Token::Word(word, following) => {
                if let Some(span) = span_in_word(from, without_blanks(word), label) {
                    return span;
                }
                rest = following;
            }
        }
    }
}

/// How many columns are before the body of a card.
pub(crate) fn body_start(columns: &[u8]) -> usize
    ensures value { result ≡ spec.body_start columns.now }
    ensures few { result ≤ length columns.now }
{
    match columns.first() {
        None => 0,
        Some(column) => {
            if is_letter(*column) {
                split_label(columns).0.len()
            } else {
                1
            }
        }
    }
}

/// Where a group names a label, if it does: labels are its last elements, or the first one of a call.
fn span_in_group(from: usize, inside: &[u8], label: &Label) -> Option<Span>
    ensures { IfSome result IsOnCard }
{
    for number in [4, 3, 2, 0] {
        if let Some(element) = nth_element(inside, number) {
            if spells(element.text, label) {
                let start = from.saturating_add(element.start);
                return Some(Span::on_card(start, start.saturating_add(element.text.len())));
            }
        }
    }
    None
}

/// Where a word names a label, if it does: it is the label, or THEN is before it.
fn span_in_word(from: usize, word: &[u8], label: &Label) -> Option<Span>
    ensures { IfSome result IsOnCard }
{
    let whole = without_last_blanks(word);
    if spells(whole, label) {
        return Some(Span::on_card(from, from.saturating_add(whole.len())));
    }
    let rest = without_blanks(after_letters(whole, 4));
    if spells(rest, label) {
        let to = from.saturating_add(whole.len());
        return Some(Span::on_card(to.saturating_sub(rest.len()), to));
    }
    None
}

/// What follows so many characters of a text that are no blanks.
fn after_letters(text: &[u8], count: usize) -> &[u8] {
    let mut rest = text;
    let mut left = count;
    while let Some((first, following)) = rest.split_first() {
        if left == 0 {
            return rest;
        }
        if !is_blank(*first) {
            left -= 1;
        }
        rest = following;
    }
    rest
}

/// Whether a text spells a label.
fn spells(text: &[u8], label: &Label) -> bool {
    match label_of(text) {
        None => false,
        Some(read) => read == *label,
    }
}
