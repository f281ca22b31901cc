//! Advice on the spelling of operations and tests: what to write in their place.

use crate::advice::comparison_advice;
use crate::element::nth_element;
use crate::finding::Finding;
use crate::scan::{begins_with, has, has_blank_inside, has_digits_alone, letter_count};
use crate::slips::{MAX_ADVISED, operation_advice, pointed_advice, test_advice};
use l6_group::{Spelling, label_of, spelled};

/// Advice on a comma that is missing, or is another sign.
const COMMAS: &str = "commas part the elements of a group: (A,E,5)";

/// Advice on an assignment.
const EQUAL: &str = "(A,E,5) makes A equal to 5";

/// Advice on the spelling of an operation.
pub(crate) fn operation_spelling_advice(finding: &Finding<'_>) -> &'static str {
    let text = finding.text;
    if letter_count(text) == 1 && begins_with(text, b"D") && has_five_elements(finding.group()) {
        return "D and the field are one element, as DN in (0,DN,18,35)";
    }
    let known = known_operation(text);
    if !known.is_empty() {
        return known;
    }
    if finding.is_whole_group() {
        return whole_group_advice(text);
    }
    if has(text, b'=') {
        return EQUAL;
    }
    if begins_with(text, b"D") && letter_count(text) > 2 {
        return "a definition is (cd,Df,cd,cd), and the field f is one letter or digit";
    }
    if begins_with(text, b"P") && letter_count(text) == 2 {
        return known_operation(b"PRINT");
    }
    missing_comma_advice(text)
}

/// Whether a group with these columns has five elements.
fn has_five_elements(columns: &[u8]) -> bool {
    nth_element(columns, 4).is_some() && nth_element(columns, 5).is_none()
}

/// Advice on the spelling of a test.
pub(crate) fn test_spelling_advice(text: &[u8]) -> &'static str {
    let known = known_test(text);
    if !known.is_empty() {
        return known;
    }
    if has(text, b'<') || has(text, b'>') || has(text, b'=') || has(text, b'.') {
        return comparison_advice(text);
    }
    let advice = missing_comma_advice(text);
    if advice.is_empty() {
        return "a test is (c,E,cd), or has N, G, L, O or Z in place of E";
    }
    advice
}

/// Advice on a spelling that has a number, or another sign than a comma.
fn missing_comma_advice(text: &[u8]) -> &'static str {
    if has_digits_alone(text) {
        return "the operation stands second: (A,E,5)";
    }
    match without_letter(text) {
        Some(b'0'..=b'9' | b'.' | b';' | b':' | b' ') => COMMAS,
        _ => "",
    }
}

/// The second character of a text, if the first one is a letter.
fn without_letter(text: &[u8]) -> Option<u8> {
    match text {
        [first, second, ..] if first.is_ascii_alphabetic() => Some(*second),
        _ => None,
    }
}

/// Advice on the spelling of an operation that other languages have.
pub(crate) fn known_operation(text: &[u8]) -> &'static str {
    let characters: Option<Spelling<'_, MAX_ADVISED>> = spelled(text);
    match characters {
        None => "",
        Some(characters) => operation_advice(characters.as_slice()),
    }
}

/// Advice on the spelling of a test that other languages have.
fn known_test(text: &[u8]) -> &'static str {
    let characters: Option<Spelling<'_, MAX_ADVISED>> = spelled(text);
    match characters {
        None => "",
        Some(characters) => {
            let known = test_advice(characters.as_slice());
            if known.is_empty() {
                return pointed_advice(characters.as_slice());
            }
            known
        }
    }
}

/// Advice on a group of one element that is no operation.
fn whole_group_advice(text: &[u8]) -> &'static str {
    if begins_with(change_of(text), b"++") || begins_with(change_of(text), b"+=") {
        return "(A,A,1) adds 1 to A";
    }
    if begins_with(change_of(text), b"--") || begins_with(change_of(text), b"-=") {
        return "(A,S,1) subtracts 1 from A";
    }
    if has(text, b'=') {
        return EQUAL;
    }
    if has(text, b'.') || has(text, b';') || has(text, b':') || has_blank_inside(text) {
        return COMMAS;
    }
    if label_of(text).is_some() {
        return "an exit is the label alone, without parentheses; (L,DO) calls the statement L";
    }
    ""
}

/// A text without the letters and digits that it begins with.
fn change_of(text: &[u8]) -> &[u8] {
    let mut count: usize = 0;
    for byte in text {
        if !byte.is_ascii_alphanumeric() && *byte != b' ' {
            return &text[count.min(text.len())..];
        }
        count = count.saturating_add(1);
    }
    b""
}

/// Whether the first of several elements is the word of an operation in other languages, and the second is not.
pub(crate) fn begins_with_slip(columns: &[u8]) -> bool {
    match (nth_element(columns, 0), nth_element(columns, 1)) {
        (Some(first), Some(second)) => {
            letter_count(first.text) != 1
                && !known_operation(first.text).is_empty()
                && known_operation(second.text).is_empty()
        }
        _ => false,
    }
}

/// Whether the first of two elements seems to be two, with another sign than a comma between them.
pub(crate) fn lacks_first_comma(columns: &[u8]) -> bool {
    match nth_element(columns, 0) {
        Some(first) if nth_element(columns, 2).is_none() => {
            let has_sign = has(first.text, b'.') || has(first.text, b';') || has(first.text, b':');
            letter_count(first.text) > 1 && (has_sign || has_blank_inside(first.text))
        }
        _ => false,
    }
}
