//! The lines of a listing.

ghost use Rattle.std.specs.Prelude.{◌≡◌, ◌≤◌, ◌<◌, ◌^◌, ◌+◌, ℕ, ◌++◌, true, length, map, take, drop, codes, decimal, vec_capacity, IsOk, OnOk};
ghost use Rattle.std.specs.List.{list_all, flat_map};
ghost use Rattle.l6_word.specs.Word.{is_word};
ghost use Rattle.l6_card.specs.Numerals.{card_width};
ghost use Rattle.l6_asm.specs.Listing as spec;
ghost use Rattle.l6_asm.specs.Numerals.{word_margin};

use itoa::Buffer;
use l6_group::Label;
use l6_word::{OCTALS, Word, char_of, input_code, octal12};
use std::alloc::AllocError;

/// How many columns the number of a card has.
const CARD_PLACES: usize = 7;
/// How many columns the number of a statement has.
const STATEMENT_PLACES: usize = 5;
/// How many columns a label has.
const LABEL_PLACES: usize = 6;
/// How many blanks are in front of a word.
const WORD_MARGIN: usize = 15;
/// The most digits of a number.
const MAX_DIGITS: usize = 20;
/// How many columns a card has.
const CARD_COLUMNS: usize = 72;
/// The most bytes of the line of a card, its line feed included. The line of a word is shorter.
pub const MAX_LINE_BYTES: usize = 2 * MAX_DIGITS + 3 + CARD_COLUMNS + 1;

/// Adds the line of a card: its number, that of the statement which begins on it, and its columns.
pub(crate) fn push_card(
    text: &mut Vec<u8>,
    card: Option<usize>,
    statement: Option<usize>,
    columns: &[u8],
) -> Result<(), AllocError>
    ensures line { OnOk result
        (text.new.items ≡ text.old.items ++ spec.card_line card statement columns.now) }
    ensures longer { OnOk result (length text.old.items < length text.new.items) }
    ensures capacity { vec_capacity text.old ≤ vec_capacity text.new }
    ensures succeeds { length columns.now ≤ card_width
        → length text.old.items + MAX_LINE_BYTES ≤ vec_capacity text.old → IsOk result }
{
    let start = text.len();
    push_number(text, CARD_PLACES, card)?;
    push_blanks(text, 1)?;
    push_number(text, STATEMENT_PLACES, statement)?;
    push_blanks(text, 2)?;
    push_columns(text, columns)?;
    drop_last_blanks(text, start);
    text.extend_from_slice(b"\n")
}

/// Adds the lines of words. The caller owes that they are words.
pub(crate) fn push_words(text: &mut Vec<u8>, words: &[u64]) -> Result<(), AllocError>
    requires { list_all is_word words.now ≡ true }
    ensures { OnOk result (text.new.items ≡ text.old.items ++ flat_map spec.word_line words.now) }
{
    for word in words {
        push_word(text, Word::from_value(*word))?;
    }
    Ok(())
}

/// Adds the line of a word.
pub(crate) fn push_word(text: &mut Vec<u8>, word: Word) -> Result<(), AllocError>
    ensures line { OnOk result (text.new.items ≡ text.old.items ++ spec.word_line word) }
    ensures longer { OnOk result (length text.old.items < length text.new.items) }
    ensures capacity { vec_capacity text.old ≤ vec_capacity text.new }
    ensures succeeds { length text.old.items + MAX_LINE_BYTES ≤ vec_capacity text.old → IsOk result }
{
    let mut line = [b' '; WORD_MARGIN + OCTALS + 1];
    line[WORD_MARGIN..WORD_MARGIN + OCTALS].copy_from_slice(&octal12(word));
    line[WORD_MARGIN + OCTALS] = b'\n';
    text.extend_from_slice(&line)
}

/// Adds the line of a label and of the number of its statement.
pub(crate) fn push_label(text: &mut Vec<u8>, label: &Label, number: u16) -> Result<(), AllocError>
    ensures { OnOk result
        (text.new.items ≡ text.old.items ++ spec.label_line (label.now, number)) }
{
    let characters = label.characters();
    text.extend_from_slice(characters)?;
    push_blanks(text, LABEL_PLACES.saturating_sub(characters.len()))?;
    push_blanks(text, 1)?;
    push_number(text, STATEMENT_PLACES, Some(usize::from(number)))?;
    text.extend_from_slice(b"\n")
}

/// Adds a number at the right end of so many columns, or blanks if there is none. There are at most
/// as many columns as blanks in front of a word.
fn push_number(text: &mut Vec<u8>, places: usize, number: Option<usize>) -> Result<(), AllocError>
    requires { places ≤ word_margin }
    ensures digits { OnOk result
        (text.new.items ≡ text.old.items ++ spec.number_in places number) }
    ensures count { OnOk result (length text.new.items ≤ length text.old.items + MAX_DIGITS) }
    ensures capacity { vec_capacity text.old ≤ vec_capacity text.new }
    ensures succeeds { length text.old.items + MAX_DIGITS ≤ vec_capacity text.old → IsOk result }
{
    match number {
        None => push_blanks(text, places),
        Some(number) => {
            let mut buffer = Buffer::new();
            let digits = buffer.format(number).as_bytes();
            push_blanks(text, places.saturating_sub(digits.len()))?;
            text.extend_from_slice(digits)
        }
    }
}

/// Adds so many blanks, at most those in front of a word.
fn push_blanks(text: &mut Vec<u8>, count: usize) -> Result<(), AllocError>
    requires { count ≤ word_margin }
    ensures blanks { OnOk result (text.new.items ≡ text.old.items ++ spec.blanks count) }
    ensures count { OnOk result (length text.new.items ≡ length text.old.items + count) }
    ensures capacity { vec_capacity text.old ≤ vec_capacity text.new }
    ensures succeeds { length text.old.items + count ≤ vec_capacity text.old → IsOk result }
{
    text.extend_from_slice(&[b' '; WORD_MARGIN][..count])
}

/// Adds what the columns of a card show.
fn push_columns(text: &mut Vec<u8>, columns: &[u8]) -> Result<(), AllocError>
    ensures columns { OnOk result
        (text.new.items ≡ text.old.items ++ map spec.shown columns.now) }
    ensures count { OnOk result
        (length text.new.items ≡ length text.old.items + length columns.now) }
    ensures capacity { vec_capacity text.old ≤ vec_capacity text.new }
    ensures succeeds { length text.old.items + length columns.now ≤ vec_capacity text.old
        → IsOk result }
{
    let start = text.len();
    text.extend_from_slice(columns)?;
    show(&mut text[start..]);
    Ok(())
}

/// Replaces each column by what it shows.
fn show(columns: &mut [u8])
    ensures { columns.new ≡ map spec.shown columns.old }
{
    for column in columns {
        *column = char_of(input_code(*column));
    }
}

/// Drops the blanks at the end of a text, back to a place in it.
fn drop_last_blanks(text: &mut Vec<u8>, start: usize)
    requires { start ≤ length text.old.items }
    ensures line { text.new.items
        ≡ take start text.old.items ++ spec.without_last_blanks (drop start text.old.items) }
    ensures shorter { length text.new.items ≤ length text.old.items }
    ensures capacity { vec_capacity text.new ≡ vec_capacity text.old }
{
    let (front, line) = text.split_at(start);
    let end = front.len() + without_last_blanks(line).len();
    text.truncate(end);
}

/// A line without the blanks at its end.
fn without_last_blanks(line: &[u8]) -> &[u8]
    ensures { result.now ≡ spec.without_last_blanks line.now }
{
    let mut rest = line;
    while let Some((last, front)) = rest.split_last() {
        if *last != b' ' {
            return rest;
        }
        rest = front;
    }
    rest
}
