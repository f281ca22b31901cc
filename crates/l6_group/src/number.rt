//! Numbers: decimal, octal, and those that texts stand for.

ghost use Rattle.std.specs.Prelude.{◌≡◌, ◌<◌, ◌≤◌, MatchOption};
ghost use Rattle.l6_word.specs.Numerals.{code_count};
ghost use Rattle.l6_prog.specs.Numerals.{digit_count};
ghost use Rattle.l6_group.specs.Number as spec;
ghost use Rattle.l6_group.specs.inner.Long.{IsReadUpTo};

use arrayvec::ArrayVec;
use l6_prog::{DIGITS, MAX_CHARACTERS, PrintText};
use l6_word::{CODE_COUNT, Word, code_of, is_blank};

/// How many digits an octal number has to choose from.
const OCTAL_DIGITS: u8 = 8;
/// How many characters stand for a number.
const MAX_TEXT_CHARACTERS: usize = 6;

/// The decimal number that an element writes, below 2^36.
pub fn decimal_of(element: &[u8]) -> Option<Word>
    ensures { result ≡ spec.decimal_of element.now }
{
    number_of(DIGITS, element)
}

/// The octal number that an element writes, below 2^36.
pub(crate) fn octal_of(element: &[u8]) -> Option<Word>
    ensures { result ≡ spec.octal_of element.now }
{
    number_of(OCTAL_DIGITS, element)
}

/// The number that an element writes to a base of at most ten, below 2^36, its blanks left out.
fn number_of(base: u8, element: &[u8]) -> Option<Word>
    requires some { 0 < base }
    requires few { base ≤ digit_count }
    ensures { result ≡ spec.number_of base element.now }
{
    let mut value: u64 = 0;
    let mut has_digit = false;
    for byte in element {
        if !is_blank(*byte) {
            let digit = digit_of(base, *byte)?;
            if value >= 1 << Word::BITS {
                return None;
            }
            value = value * u64::from(base) + u64::from(digit);
            has_digit = true;
        }
    }
    if !has_digit {
        return None;
    }
    Word::new(value)
}

/// The digit that a byte is, below the base.
fn digit_of(base: u8, byte: u8) -> Option<u8>
    requires { base ≤ digit_count }
    ensures { result ≡ spec.digit_of base byte }
{
    if byte >= b'0' && byte < b'0' + base {
        Some(byte - b'0')
    } else {
        None
    }
}

/// The number that a text of 1 to 6 characters stands for. Its blanks count.
pub(crate) fn text_of(element: &[u8]) -> Option<Word>
    ensures { result ≡ spec.text_of element.now }
{
    let codes: ArrayVec<u8, MAX_TEXT_CHARACTERS> = codes_of(element)?;
    number_from(codes.as_slice())
}

/// The text of 1 to 60 characters that an element is. Its blanks count.
pub(crate) fn print_text_of(element: &[u8]) -> Option<PrintText>
    ensures { result ≡ spec.print_text_of element.now }
{
    let codes: ArrayVec<u8, MAX_CHARACTERS> = codes_of(element)?;
    PrintText::new(codes.as_slice())
}

/// The number that codes write to the base 64, below 2^36.
fn number_from(codes: &[u8]) -> Option<Word>
    ensures { result ≡ spec.number_from code_count codes.now }
{
    if codes.is_empty() {
        return None;
    }
    let mut value: u64 = 0;
    for code in codes {
        if value >= 1 << Word::BITS {
            return None;
        }
        value = value * CODE_COUNT + u64::from(*code);
    }
    Word::new(value)
}

/// The codes of an element's characters; `None` where one has no code, or where they are more than
/// there is room for.
fn codes_of<const ROOM: usize>(element: &[u8]) -> Option<ArrayVec<u8, ROOM>>
    ensures { let codes = spec.codes_of element.now in
        MatchOption result (IsReadUpTo ROOM codes) (λ given. codes ≡ Some given.items) }
{
    let mut codes = ArrayVec::new();
    for byte in element {
        let code = code_of(*byte)?;
        if codes.is_full() {
            return None;
        }
        codes.push(code);
    }
    Some(codes)
}
