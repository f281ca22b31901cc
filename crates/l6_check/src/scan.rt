//! Scans of columns: blanks, and words.

ghost use Rattle.std.specs.Prelude.{◌≡◌, ◌+◌, ◌≤◌, drop, length};
ghost use Rattle.l6_check.specs.Warnings.{begin_blank, blanks_before};

use l6_group::is_blank;

/// Columns from one of them on.
pub(crate) fn columns_from(columns: &[u8], start: usize) -> &[u8]
    ensures value { result.now ≡ drop start columns.now }
    ensures few { length result.now ≤ length columns.now }
{
    if start <= columns.len() {
        &columns[start..]
    } else {
        &[]
    }
}

/// Whether columns begin with a blank.
pub(crate) fn begin_blank(columns: &[u8]) -> bool
    ensures { result ≡ begin_blank columns.now }
{
    match columns.first() {
        None => false,
        Some(column) => is_blank(*column),
    }
}

/// Columns without the blanks that they begin with.
pub(crate) fn without_blanks(columns: &[u8]) -> &[u8]
    ensures { length result.now + blanks_before columns.now ≡ length columns.now }
{
    let mut rest = columns;
    while let Some((first, following)) = rest.split_first() {
        if !is_blank(*first) {
            return rest;
        }
        rest = following;
    }
    rest
}

/// Columns without the blanks that they end with.
pub(crate) fn without_last_blanks(columns: &[u8]) -> &[u8] {
    let mut rest = columns;
    while let Some((last, front)) = rest.split_last() {
        if !is_blank(*last) {
            return rest;
        }
        rest = front;
    }
    rest
}

/// Whether a text begins with a word, small letters read as capitals and blanks left out.
pub(crate) fn begins_with(text: &[u8], word: &[u8]) -> bool {
    let mut left = word;
    for byte in text {
        let Some((first, following)) = left.split_first() else {
            return true;
        };
        if !is_blank(*byte) {
            if byte.to_ascii_uppercase() != *first {
                return false;
            }
            left = following;
        }
    }
    left.is_empty()
}

/// A text without a word that it begins with, small letters read as capitals and blanks left out.
pub(crate) fn without_word<'a>(text: &'a [u8], word: &[u8]) -> &'a [u8] {
    let mut left = word;
    let mut rest = text;
    while let Some((byte, following)) = rest.split_first() {
        let Some((first, others)) = left.split_first() else {
            return rest;
        };
        if !is_blank(*byte) {
            if byte.to_ascii_uppercase() != *first {
                return text;
            }
            left = others;
        }
        rest = following;
    }
    text
}

/// Whether a text has a word, small letters read as capitals and blanks left out.
pub(crate) fn has_word(text: &[u8], word: &[u8]) -> bool {
    let mut rest = text;
    while let Some((_, following)) = rest.split_first() {
        if begins_with(rest, word) {
            return true;
        }
        rest = following;
    }
    false
}

/// The first of the words that blanks part.
pub(crate) fn first_word(text: &[u8]) -> &[u8] {
    let mut count: usize = 0;
    for byte in text {
        if is_blank(*byte) {
            return &text[..count.min(text.len())];
        }
        count = count.saturating_add(1);
    }
    text
}

/// The last of the words that blanks part.
pub(crate) fn last_word(text: &[u8]) -> &[u8] {
    after_last(text, b' ')
}

/// Whether a text has a byte.
pub(crate) fn has(text: &[u8], byte: u8) -> bool {
    text.iter().any(|one| *one == byte)
}

/// Whether a text has a blank between other characters.
pub(crate) fn has_blank_inside(text: &[u8]) -> bool {
    let mut is_begun = false;
    let mut is_parted = false;
    for byte in text {
        if is_blank(*byte) {
            is_parted = is_begun;
        } else {
            if is_parted {
                return true;
            }
            is_begun = true;
        }
    }
    false
}

/// How many letters and digits a text has.
pub(crate) fn letter_count(text: &[u8]) -> usize {
    text.iter()
        .filter(|byte| byte.is_ascii_alphanumeric())
        .count()
}

/// How many digits a text has.
pub(crate) fn digit_count(text: &[u8]) -> usize {
    text.iter().filter(|byte| byte.is_ascii_digit()).count()
}

/// Whether a text has nothing but digits and blanks, and is not empty.
pub(crate) fn has_digits_alone(text: &[u8]) -> bool {
    !text.is_empty()
        && text
            .iter()
            .all(|byte| byte.is_ascii_digit() || is_blank(*byte))
}

/// Whether a text begins with a digit.
pub(crate) fn begins_with_digit(text: &[u8]) -> bool {
    match text.first() {
        None => false,
        Some(byte) => byte.is_ascii_digit(),
    }
}

/// What follows the last place of a byte in a text, or all of the text.
pub(crate) fn after_last(text: &[u8], byte: u8) -> &[u8] {
    let mut start: usize = 0;
    for (at, one) in text.iter().enumerate() {
        if *one == byte {
            start = at.saturating_add(1);
        }
    }
    &text[start.min(text.len())..]
}
