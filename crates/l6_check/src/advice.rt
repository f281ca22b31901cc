//! Advice on what stands outside of groups, in column 1 and as a word: what to write in its place.

use crate::conditions::gives_condition;
use crate::scan::{
    begins_with, begins_with_digit, digit_count, first_word, has, has_blank_inside,
    has_digits_alone, has_word, last_word, letter_count, without_blanks, without_word,
};
use crate::slips::{
    MAX_ADVISED, condition_word_advice, exit_word_advice, operation_advice, statement_word_advice,
};
use l6_group::{MAX_LABEL_CHARACTERS, Spelling, condition_from, exit_from, spelled};

/// Advice on a THEN without a condition.
const THEN_ALONE: &str = "a condition and its tests come before THEN: IF (A,E,5) THEN (A,PD)";

/// Advice on a THEN after a condition that is in column 1.
const CONDITION_IN_COLUMN_1: &str =
    "the condition in column 1 is read as a label: put a blank before it";

/// Advice on bytes that are no ASCII.
pub(crate) const NO_ASCII: &str =
    "only ASCII is read here: no curly quotes, long dashes or letters with accents";

/// Advice on a sign that separates nothing.
const STRAY_SIGN: &str =
    "remove the sign: nothing stands between groups, or between a label and its groups";

/// Advice on a comment that is not alone.
const COMMENT: &str = "a comment has a card of its own, with * in column 1";

/// Advice on ELSE.
const NO_ELSE: &str = "there is no ELSE: the next statement follows where a test does not hold";

/// Advice on an exit before a group.
pub(crate) const LAST_EXIT: &str = "an exit stands after the groups: (A,PD) DONE";

/// Advice on an exit to a number.
const NO_LINE_NUMBERS: &str =
    "an exit is a label, which begins with a letter: there are no line numbers";

/// Advice on a statement that begins with a number.
const NO_NUMBERS_BEFORE: &str =
    "there are no line numbers: what is named has a label, which begins with a letter in column 1";

/// Advice on what cannot be in column 1 of this line.
pub(crate) fn column_advice(text: &[u8], line: &[u8]) -> &'static str {
    match text {
        b"(" => "put a blank before it: column 1 is blank or begins a label",
        b"[" | b"{" => "a group has parentheses, and a blank is before it in column 1: (A,E,5)",
        b"#" | b"/" | b";" | b"!" | b"-" | b"'" => "a comment has * in column 1",
        b"$" => dollar_advice(line),
        _ if begins_with_number(line) =>
            "there are no line numbers: what is named has a label, and an exit names it: LOOP (PL) LOOP",
        _ => "column 1 is blank, or has the first letter of a label, + or *",
    }
}

/// Whether a line begins with a number, and has a blank after it.
fn begins_with_number(line: &[u8]) -> bool {
    has_digits_alone(first_word(line)) && has_blank_inside(line)
}

/// Advice on a line that begins with a dollar sign.
fn dollar_advice(line: &[u8]) -> &'static str {
    if has_word(line, b"$COMMANDS") {
        return "$COMMANDS and the lines after it are for l6 debug: they are no part of a deck";
    }
    match line {
        [_, b' ' | b'\t', ..] => "remove the blank: a line such as $INPUT has none",
        _ if begins_with(line, b"$INPUT") =>
            "remove what follows $INPUT: the line has nothing else",
        _ => "$ begins the lines $INPUT and $COMMANDS, and no others",
    }
}

/// Advice on the word of these columns, which this follows and which is no condition.
pub(crate) fn condition_advice(word: &[u8], following: &[u8]) -> &'static str {
    let known = word_before_group_advice(word, following);
    if known.is_empty() {
        return "a label begins in column 1; a condition is IF, NOT, IFALL, IFANY, IFNONE or IFNALL";
    }
    known
}

/// Advice on an exit that a group follows, which begins so.
pub(crate) fn followed_exit_advice(exit: &[u8], following: &[u8]) -> &'static str {
    if is_condition(exit) {
        return "a condition begins a statement: it stands on a card of its own, before its tests";
    }
    let known = word_before_group_advice(exit, following);
    if known.is_empty() {
        return "an exit stands after the groups of its statement, and a label in column 1";
    }
    known
}

/// Advice on a word that other languages have before what is a group here.
fn word_before_group_advice(word: &[u8], following: &[u8]) -> &'static str {
    for part in [word, first_word(word), last_word(word)] {
        let known = condition_slip(part);
        if !known.is_empty() {
            return known;
        }
    }
    if has(word, b'=') {
        return "a value is set by a group, as (A,E,5)";
    }
    if has_digits_alone(first_word(word)) {
        return NO_NUMBERS_BEFORE;
    }
    let known = operation_slip(first_word(word));
    if !known.is_empty() {
        return known;
    }
    if begins_with(following, b"()") {
        return "(L,DO) calls the statement L";
    }
    match word.first() {
        Some(b'_' | b'-' | b'.') => "a label has letters and digits alone",
        _ => "",
    }
}

/// Advice on a word that is known in place of a condition.
fn condition_slip(word: &[u8]) -> &'static str {
    let characters: Option<Spelling<'_, MAX_ADVISED>> = spelled(word);
    match characters {
        None => "",
        Some(characters) => condition_word_advice(characters.as_slice()),
    }
}

/// Advice on a word that is known as an operation of other languages, of two letters at least.
fn operation_slip(word: &[u8]) -> &'static str {
    if letter_count(word) < 2 {
        return "";
    }
    let characters: Option<Spelling<'_, MAX_ADVISED>> = spelled(word);
    match characters {
        None => "",
        Some(characters) => operation_advice(characters.as_slice()),
    }
}

/// Advice on a word that is known in place of an exit.
fn exit_slip(word: &[u8]) -> &'static str {
    let characters: Option<Spelling<'_, MAX_ADVISED>> = spelled(word);
    match characters {
        None => "",
        Some(characters) => exit_word_advice(characters.as_slice()),
    }
}

/// Advice on a statement of another language that begins with this word.
fn statement_slip(word: &[u8]) -> &'static str {
    let characters: Option<Spelling<'_, MAX_ADVISED>> = spelled(word);
    match characters {
        None => "",
        Some(characters) => statement_word_advice(characters.as_slice()),
    }
}

/// Whether a text is a condition.
fn is_condition(text: &[u8]) -> bool {
    let characters: Option<Spelling<'_, MAX_LABEL_CHARACTERS>> = spelled(text);
    match characters {
        None => false,
        Some(characters) => condition_from(characters.as_slice()).is_some(),
    }
}

/// Whether a text is an exit.
fn is_exit(text: &[u8]) -> bool {
    let characters: Option<Spelling<'_, MAX_LABEL_CHARACTERS>> = spelled(text);
    match characters {
        None => false,
        Some(characters) => exit_from(characters.as_slice()).is_some(),
    }
}

/// Advice on a statement of another language that is read as the label of an exit: two words, or one that
/// no label is called.
fn statement_advice(text: &[u8]) -> &'static str {
    if has_blank_inside(text) {
        let known = statement_slip(first_word(text));
        if !known.is_empty() {
            return known;
        }
    }
    if has_blank_inside(text) || letter_count(text) > 2 {
        return operation_slip(first_word(text));
    }
    ""
}

/// Whether a text that is read as the label of an exit is a statement of another language.
pub(crate) fn is_statement(text: &[u8]) -> bool {
    exit_slip(text).is_empty() && !begins_with(text, b"THEN") && !statement_advice(text).is_empty()
}

/// Advice on a label that this line names, and no card gives.
pub(crate) fn label_advice(text: &[u8], line: &[u8]) -> &'static str {
    let known = exit_slip(text);
    if !known.is_empty() {
        return known;
    }
    if begins_with(text, b"THEN") {
        return if gives_condition(line) {
            CONDITION_IN_COLUMN_1
        } else {
            THEN_ALONE
        };
    }
    statement_advice(text)
}

/// Advice on a word that stands where THEN must stand.
pub(crate) fn then_advice(text: &[u8]) -> &'static str {
    if begins_with(text, b"OR") || begins_with(text, b"AND") || has(text, b'&') || has(text, b'|') {
        return "IFANY and IFALL have several tests, one after the other";
    }
    if begins_with(text, b"GOTO") {
        return "there is no GOTO: THEN stands before the label, as in IF (A,E,5) THEN LAST";
    }
    "THEN follows the tests of a condition: IF (A,E,5) THEN DONE"
}

/// Advice on a group that nothing closes, of which these are the columns up to the end of its card.
pub(crate) fn unclosed_advice(text: &[u8]) -> &'static str {
    if has_word(text, b",PH)") {
        return "a text has no parentheses, and a group ends before the next (";
    }
    if has_word(text, b"))") {
        return "no group stands in another: each operation or test has a ( and a ) of its own";
    }
    "a group ends on its card, before the next ("
}

/// Advice on a word that is no exit.
pub(crate) fn exit_advice(text: &[u8]) -> &'static str {
    let after = without_blanks(without_word(text, b"THEN"));
    if begins_with(text, b"THEN") && is_exit(after) {
        return THEN_ALONE;
    }
    if begins_with(after, b"IF") || begins_with(after, b"NOT") {
        return comparison_advice(after);
    }
    if has_digits_alone(after) {
        return NO_LINE_NUMBERS;
    }
    let advice = sign_advice(after);
    if !advice.is_empty() {
        return advice;
    }
    word_advice(after)
}

/// Advice on a condition whose test is no group.
pub(crate) fn comparison_advice(text: &[u8]) -> &'static str {
    let is_greater = has(text, b'>') || has_word(text, b".G");
    let is_less = has(text, b'<') || has_word(text, b".L");
    let is_equal = has(text, b'=') || has_word(text, b"E.") || has_word(text, b".EQ.");
    if has(text, b'!') || has(text, b'/') || has_word(text, b".NE.") || (is_greater && is_less) {
        return "write (A,N,5) to ask whether A is not 5";
    }
    match (is_greater, is_less, is_equal) {
        (true, _, false) => "write (A,G,5) to ask whether A is greater than 5",
        (true, _, true) => "write NOT (A,L,5) to ask whether A is not less than 5",
        (_, true, false) => "write (A,L,5) to ask whether A is less than 5",
        (_, true, true) => "write NOT (A,G,5) to ask whether A is not greater than 5",
        (_, _, true) => "write (A,E,5) to ask whether A is 5",
        _ => "a test is a group: IF (A,G,0) THEN L",
    }
}

/// Advice on signs that no word has.
fn sign_advice(text: &[u8]) -> &'static str {
    if !text.is_ascii() {
        return NO_ASCII;
    }
    match text.split_first() {
        Some((b'[' | b'{', _)) => "a group has parentheses: (A,E,5)",
        Some((b'}', _)) => STRAY_SIGN,
        Some((b'#' | b'/' | b'!' | b'\'' | b'*', _)) => COMMENT,
        Some((b';' | b',' | b':' | b'.', following)) => {
            if has_blank_inside(following) {
                return COMMENT;
            }
            STRAY_SIGN
        }
        _ => last_sign_advice(text),
    }
}

/// Advice on a sign at the end of a word.
fn last_sign_advice(text: &[u8]) -> &'static str {
    match text.last() {
        Some(b';' | b',' | b':' | b'.') => "remove the sign after the exit",
        _ => "",
    }
}

/// Advice on a word of other languages, or one that is too long.
fn word_advice(text: &[u8]) -> &'static str {
    if has_word(text, b"ELSE") {
        return NO_ELSE;
    }
    let known = statement_slip(first_word(text));
    if !known.is_empty() {
        return known;
    }
    if has(text, b'=') {
        return "a value is set by a group, as (A,E,5)";
    }
    let known = operation_slip(first_word(text));
    if !known.is_empty() {
        return known;
    }
    if has(text, b'+') || has(text, b'-') {
        return "a value is changed by a group: (A,A,1) adds 1 to A, and (A,S,1) subtracts 1";
    }
    if has(text, b',') {
        return "a group has parentheses: (A,E,5)";
    }
    if begins_with(text, b"GOTO") {
        return "there is no GOTO: an exit is the label alone";
    }
    if begins_with(text, b"THEN") {
        return THEN_ALONE;
    }
    label_form_advice(text)
}

/// Advice on a word that is no label, and of which no more is known.
fn label_form_advice(text: &[u8]) -> &'static str {
    if begins_with_digit(text) && digit_count(text) < letter_count(text) {
        return "a label begins with a letter";
    }
    if letter_count(text) == text.len() {
        return "a label is a letter and up to 5 letters or digits";
    }
    "a label has at most 6 letters and digits; a comment has a card of its own, with * in column 1"
}
