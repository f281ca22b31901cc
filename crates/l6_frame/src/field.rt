//! The fields of a head.

ghost use Rattle.std.specs.Prelude.{◌≡◌, ◌≤◌, length};
ghost use Rattle.l6_frame.specs.Frame as spec;
ghost use Rattle.l6_frame.specs.Read.{IsField};

use crate::frame::MAX_BODY;
use l6_word::{split_once, without_return};

/// What a line of a head is.
#[derive(Clone, Copy, Debug, PartialEq, Eq)]
pub(crate) enum Field {
    /// The field with the length of the body.
    Length(usize),
    /// Another field.
    Other,
    /// None.
    Malformed,
}

/// What a line of a head is.
pub(crate) fn field_of(line: &[u8]) -> Field
    ensures { IsField line.now result }
{
    let Some((name, value)) = split_once(without_return(line), b':') else {
        return Field::Malformed;
    };
    if !name.eq_ignore_ascii_case(b"Content-Length") {
        return Field::Other;
    }
    match length_of(without_blanks(value)) {
        None => Field::Malformed,
        Some(length) => Field::Length(length),
    }
}

/// The bytes without the spaces and tabs that they begin with.
fn without_blanks(bytes: &[u8]) -> &[u8]
    ensures { result.now ≡ spec.after_blanks bytes.now }
{
    let mut rest = bytes;
    while let Some((first, following)) = rest.split_first() {
        if *first != b' ' && *first != b'\t' {
            return rest;
        }
        rest = following;
    }
    rest
}

/// The length that digits write, if a body may have it.
#[tactic(auto, using(crate::proofs::Fields::number_after_grows))]
fn length_of(digits: &[u8]) -> Option<usize>
    ensures { result ≡ spec.length_of digits.now }
{
    if digits.is_empty() {
        return None;
    }
    let mut length: usize = 0;
    for digit in digits {
        if !digit.is_ascii_digit() {
            return None;
        }
        length = length * 10 + usize::from(*digit - b'0');
        if length > MAX_BODY {
            return None;
        }
    }
    Some(length)
}
