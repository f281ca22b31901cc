//! How operations and tests are written: for what a group has to be in place of what it is.

use crate::element::nth_element;
use crate::scan::{begins_with, has_digits_alone, letter_count};
use l6_group::{Spelling, spelled};
use l6_word::split_once;

/// How many characters the spelling of an operation or a test has.
const MAX_SPELLING: usize = 2;

/// What to write in place of a group with these columns, whose number of elements is wrong.
pub(crate) fn form_advice(columns: &[u8]) -> &'static str {
    if has_parted_number(columns) {
        return "a number has no commas: (A,E,1000)";
    }
    match split_once(columns, b',') {
        None => word_advice(columns),
        Some((_, others)) => word_advice(first_of(others)),
    }
}

/// Whether a group with too many elements seems to have a number that commas part.
fn has_parted_number(columns: &[u8]) -> bool {
    let is_parted = match (nth_element(columns, 2), nth_element(columns, 3)) {
        (Some(front), Some(back)) => {
            has_digits_alone(front.text) && has_digits_alone(back.text) && back.text.len() == 3
        }
        _ => false,
    };
    is_parted && !is_definition_without_d(columns)
}

/// Whether a group with too many elements seems to be a definition without its D.
pub(crate) fn is_definition_without_d(columns: &[u8]) -> bool {
    match (
        nth_element(columns, 0),
        nth_element(columns, 1),
        nth_element(columns, 3),
    ) {
        (Some(word), Some(field), Some(_)) => {
            has_digits_alone(word.text) && letter_count(field.text) == 1
        }
        _ => false,
    }
}

/// What to write in place of a number where a chain must stand, in a group with these columns and after so
/// many elements.
pub(crate) fn chain_place_advice(columns: &[u8], before: usize) -> &'static str {
    if before == 0 {
        return "what is changed or tested comes first, and then the number: (A,E,5)";
    }
    match nth_element(columns, 1) {
        Some(word) if begins_with(word.text, b"I") => {
            "(c,I,c) exchanges the contents of two chains; (A,E,5) makes A equal to 5"
        }
        Some(word) => word_advice(word.text),
        None => "",
    }
}

/// The first element of a group.
pub(crate) fn first_of(columns: &[u8]) -> &[u8] {
    match split_once(columns, b',') {
        None => columns,
        Some((first, _)) => first,
    }
}

/// What to write for an operation with this word, or nothing if none has it.
fn word_advice(word: &[u8]) -> &'static str {
    let characters: Option<Spelling<'_, MAX_SPELLING>> = spelled(word);
    match characters {
        None => "",
        Some(characters) => operation_form(characters.as_slice()),
    }
}

/// What to write for an operation with this word, if it is one of two letters.
pub(crate) fn plain_word_advice(word: &[u8]) -> &'static str {
    let characters: Option<Spelling<'_, MAX_SPELLING>> = spelled(word);
    match characters {
        None => "",
        Some(characters) => plain_form(characters.as_slice()),
    }
}

/// What to write in place of a test whose number of elements is wrong.
pub(crate) fn test_form_advice() -> &'static str {
    "write (c,E,cd), or N, G, L, O or Z in place of E"
}

/// What to write for an operation that is spelled so, or nothing if none is.
fn operation_form(characters: &[u8]) -> &'static str {
    let plain = plain_form(characters);
    if !plain.is_empty() {
        return plain;
    }
    match characters {
        b"I" => "write (c,I,c)",
        [b'D', _] => "write (cd,Df,cd,cd)",
        _ => arithmetic_form(characters),
    }
}

/// What to write for an operation of two letters, none of them its field's or a suffix.
fn plain_form(characters: &[u8]) -> &'static str {
    match characters {
        b"PL" => "write (PL)",
        b"FR" => "write (c,FR) or (c,FR,cd)",
        b"PD" => "write (c,PD)",
        b"PO" => "write (c,PO)",
        b"PH" => "write (text,PH)",
        b"DO" => "write (L,DO) or (L,DO,L)",
        b"FC" => "write (S,FC,c) or (R,FC,c)",
        b"FD" => "write (S,FD,f) or (R,FD,f)",
        b"GT" => "write (c,GT,cd), (c,GT,cd,c), (c,GT,cd,c,L) or (c,GT,cd,,L)",
        b"DP" => "write (c,DP,cd) or (c,DP,cd,,L)",
        b"IN" => "write (c,IN,cd) or (c,IN,cd,L)",
        b"PR" => "write (c,PR,cd)",
        _ => "",
    }
}

/// What to write for an operation of arithmetic or logic that is spelled so, or nothing if none is.
fn arithmetic_form(characters: &[u8]) -> &'static str {
    match characters {
        [
            b'E' | b'A' | b'S' | b'M' | b'V' | b'Y' | b'N' | b'O' | b'X' | b'C' | b'L' | b'R',
            ..
        ] => "write (c,E,cd), with the operation's letter in place of E",
        _ => "",
    }
}
