//! The line of signs below a card.

ghost use Rattle.std.specs.Prelude.{◌≡◌, ◌≤◌, ◌++◌, length, map, IfOk, OnOk};
ghost use Rattle.l6_card.specs.Card as cards;
ghost use Rattle.l6_marks.specs.Marks as spec;

use crate::ahead::Ahead;
use crate::card::{CARD_PLACES, push_blanks};
use l6_card::{columns_of, split_label};
use std::alloc::AllocError;

/// Adds the line of signs below a card, if something on it is marked. Answers what is ahead after it.
pub(crate) fn push_marks(text: &mut Vec<u8>, ahead: Ahead, line: &[u8]) -> Result<Ahead, AllocError>
    ensures line { OnOk result (text.new.items
        ≡ text.old.items ++ spec.mark_line ahead (cards.columns_of line.now)) }
    ensures ahead { IfOk result
        (λ next. next ≡ spec.past_all ahead (spec.body_of (cards.columns_of line.now))) }
{
    let columns = columns_of(line);
    let (front, body) = columns.split_at(front_length(columns));
    let count = marked_length(ahead, body);
    if count != 0 {
        push_blanks(text, CARD_PLACES + 1)?;
        push_below(text, front)?;
        push_signs(text, ahead, &body[..count])?;
        text.push(b'\n')?;
    }
    Ok(past_all(ahead, body))
}

/// How many columns are in front of a card's groups: those of its label, or column 1.
fn front_length(columns: &[u8]) -> usize
    ensures value { result ≡ spec.front_length columns.now }
    ensures within { result ≤ length columns.now }
{
    if columns.is_empty() {
        return 0;
    }
    let (label, _) = split_label(columns);
    if label.is_empty() { 1 } else { label.len() }
}

/// How many columns go up to the last one that is marked.
fn marked_length(ahead: Ahead, columns: &[u8]) -> usize
    ensures value { result ≡ spec.marked_length ahead columns.now }
    ensures within { result ≤ length columns.now }
{
    let mut next = ahead;
    let mut place: usize = 0;
    let mut found: usize = 0;
    let mut rest = columns;
    while let Some((column, following)) = rest.split_first() {
        let here = next.at(*column);
        place += 1;
        if here.marks(*column) {
            found = place;
        }
        next = here.past(*column);
        rest = following;
    }
    found
}

/// Adds what is below columns of which none is marked.
fn push_below(text: &mut Vec<u8>, columns: &[u8]) -> Result<(), AllocError>
    ensures { OnOk result (text.new.items ≡ text.old.items ++ map spec.below columns.now) }
{
    let mut rest = columns;
    while let Some((column, following)) = rest.split_first() {
        text.push(below(*column))?;
        rest = following;
    }
    Ok(())
}

/// Adds a sign below each column.
fn push_signs(text: &mut Vec<u8>, ahead: Ahead, columns: &[u8]) -> Result<(), AllocError>
    ensures { OnOk result (text.new.items ≡ text.old.items ++ spec.signs ahead columns.now) }
{
    let mut next = ahead;
    let mut rest = columns;
    while let Some((column, following)) = rest.split_first() {
        let here = next.at(*column);
        text.push(sign(here, *column))?;
        next = here.past(*column);
        rest = following;
    }
    Ok(())
}

/// What is ahead after columns.
fn past_all(ahead: Ahead, columns: &[u8]) -> Ahead
    ensures { result ≡ spec.past_all ahead columns.now }
{
    let mut next = ahead;
    let mut rest = columns;
    while let Some((column, following)) = rest.split_first() {
        next = next.at(*column).past(*column);
        rest = following;
    }
    next
}

/// The sign below the column at which this is ahead.
fn sign(ahead: Ahead, column: u8) -> u8
    ensures { result ≡ spec.sign ahead column }
{
    if ahead.marks(column) {
        b'^'
    } else {
        below(column)
    }
}

/// What is below a column that is not marked: a tab below a tab, so that what follows stays in line.
fn below(column: u8) -> u8
    ensures { result ≡ spec.below column }
{
    if column == b'\t' { b'\t' } else { b' ' }
}
