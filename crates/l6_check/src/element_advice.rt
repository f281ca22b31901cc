//! Advice on elements that are not what stands there: what to write in their place.

use crate::advice::NO_ASCII;
use crate::scan::{
    begins_with, begins_with_digit, digit_count, has, has_digits_alone, letter_count,
};
use l6_prog::{MAX_CHARACTERS, MAX_NAMES};

/// How many characters of a text a word has room for.
const MAX_TEXT: usize = 6;

/// Advice on a chain of too many names.
const LONG_CHAIN: &str =
    "a bug is one letter, as in (C,E,5); up to 5 letters or digits after it are fields";

/// Advice on a chain that is written as in other languages.
const SIDE_BY_SIDE: &str = "the names of a chain stand side by side: LN is N of the block at L";

/// Advice on an index.
const NO_ARRAYS: &str =
    "there are no arrays: (L,GT,4) gets a block of 4 words, and a chain such as LN leads to a field of it";

/// Advice on digits with letters that look like digits.
const LETTER_FOR_DIGIT: &str = "a number has digits alone: 0 and 1 are no letters O, I or L";

/// Advice on an element that is no chain, and on which this much is known by where it stands.
pub(crate) fn chain_advice(text: &[u8], number_advice: &'static str) -> &'static str {
    if !text.is_ascii() {
        return NO_ASCII;
    }
    if has_digits_alone(text) {
        return number_advice;
    }
    let known = name_advice(text);
    if !known.is_empty() {
        return known;
    }
    "a chain is 1 to 6 letters or digits, the first a letter"
}

/// Advice on names that are written as in other languages, or are too many.
fn name_advice(text: &[u8]) -> &'static str {
    if has(text, b'[') && first_is_letter(text) {
        return NO_ARRAYS;
    }
    if has(text, b'>')
        || begins_with(text, b"*")
        || begins_with(text, b"&")
        || begins_with(text, b"@")
    {
        return SIDE_BY_SIDE;
    }
    if has(text, b'.') && digit_count(text) < letter_count(text) {
        return SIDE_BY_SIDE;
    }
    if letter_count(text) > MAX_NAMES && !begins_with_digit(text) {
        return LONG_CHAIN;
    }
    ""
}

/// Whether a text begins with a letter.
fn first_is_letter(text: &[u8]) -> bool {
    match text.first() {
        None => false,
        Some(byte) => byte.is_ascii_alphabetic(),
    }
}

/// Advice on an element that is no octal number.
pub(crate) fn octal_advice(text: &[u8]) -> &'static str {
    if has_lookalike(text) {
        return LETTER_FOR_DIGIT;
    }
    "its digits are 0 to 7, and it is below 2^36"
}

/// Advice on an element that is no text that denotes a number.
pub(crate) fn text_advice(text: &[u8]) -> &'static str {
    if !text.is_ascii() {
        return NO_ASCII;
    }
    if text.len() > MAX_TEXT {
        return "a word has room for 6 characters; (text,PH) prints a longer text";
    }
    ""
}

/// Advice on an element that is no text that can be printed.
pub(crate) fn printed_advice(text: &[u8]) -> &'static str {
    if !text.is_ascii() {
        return NO_ASCII;
    }
    if text.len() > MAX_CHARACTERS {
        return "a longer text is printed in parts, by several operations";
    }
    ""
}

/// Advice on an element that is no chain and no number.
pub(crate) fn operand_advice(text: &[u8]) -> &'static str {
    if !text.is_ascii() {
        return NO_ASCII;
    }
    if has(text, b'\'') || has(text, b'"') {
        return "a text has no quotes, and H before it: (A,EH,X) makes A the code of X";
    }
    if letter_count(text) == 0 {
        return "a character has H before it: (A,EH,.) makes A the code of .";
    }
    let known = name_advice(text);
    if !known.is_empty() {
        return known;
    }
    number_advice(text)
}

/// Advice on an element that seems to be a number.
fn number_advice(text: &[u8]) -> &'static str {
    if begins_with(text, b"-") {
        return "there are no negative numbers: subtract";
    }
    if begins_with(text, b"+") {
        return "a number has no sign";
    }
    if begins_with(text, b"0O") {
        return "an octal number has O before it: (A,EO,77)";
    }
    if begins_with(text, b"0X") || begins_with(text, b"$") {
        return "there are no hexadecimal numbers: write (A,E,31), or in octal (A,EO,37)";
    }
    if begins_with(text, b"0B") {
        return "there are no binary numbers: write (A,E,31), or in octal (A,EO,37)";
    }
    if has_lookalike(text) {
        return LETTER_FOR_DIGIT;
    }
    formula_advice(text)
}

/// Advice on an element that is a formula, a number with a point or one that is too large.
fn formula_advice(text: &[u8]) -> &'static str {
    if has(text, b'+') || has(text, b'-') || has(text, b'*') || has(text, b'/') || has(text, b'%') {
        return "there are no formulas: each operation is a group of its own";
    }
    if has(text, b'.') && digit_count(text) == letter_count(text) {
        return "numbers are whole";
    }
    if has_digits_alone(text) {
        return "numbers are below 2^36, which is 68719476736";
    }
    "a chain is 1 to 6 letters or digits, the first a letter; a number has digits alone"
}

/// Whether a text begins with a digit, and has letters that look like digits, and no others.
fn has_lookalike(text: &[u8]) -> bool {
    begins_with_digit(text)
        && text.iter().any(|byte| looks_like_digit(*byte))
        && text
            .iter()
            .all(|byte| byte.is_ascii_digit() || looks_like_digit(*byte))
}

/// Whether a letter looks like a digit.
fn looks_like_digit(byte: u8) -> bool {
    matches!(byte, b'O' | b'o' | b'I' | b'i' | b'L' | b'l')
}
