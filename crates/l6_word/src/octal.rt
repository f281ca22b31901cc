//! Words as octal digits.

ghost use Rattle.std.specs.Prelude.{◌≡◌, ◌+◌, ◌*◌, ◌/◌, ◌%◌, ◌^◌, ◌<◌, ◌↔◌, IsSome, IfSome, IsTrue};
ghost use Rattle.std.specs.Str.{byte};
ghost use Rattle.std.specs.Str.Parse.{digits_value};
ghost use Rattle.l6_word.specs.Octal as spec;

use crate::word::Word;

/// How many octal digits a word is written with.
pub const OCTALS: usize = 12;

/// How many numbers are written with four octal digits.
const FOUR_DIGITS: u64 = 1 << 12;
/// Four zeros as characters, in one number.
const FOUR_ZEROS: u32 = 0x3030_3030;
/// Eight zeros as characters, in one number.
const EIGHT_ZEROS: u64 = 0x3030_3030_3030_3030;

/// The word as octal digits, the highest first, also those that are 0.
pub fn octal12(word: Word) -> [u8; 12]
    ensures value { result ≡ spec.octal12 word }
    ensures number { digits_value 8 result ≡ word }
{
    let number = word.get();
    let mut text = [0; 12];
    text[..8].copy_from_slice(&octal8(number / FOUR_DIGITS));
    text[8..].copy_from_slice(&octal4(number % FOUR_DIGITS));
    text
}

/// The eight octal digits of a number, the highest first.
fn octal8(number: u64) -> [u8; 8]
    requires { number < 8 ^ 8 }
    ensures { result ≡ spec.octal_digits 8 number }
{
    let digits = parted(number / FOUR_DIGITS) * (1 << 32) + parted(number % FOUR_DIGITS);
    (EIGHT_ZEROS + digits).to_be_bytes()
}

/// The four octal digits of a number, the highest first.
fn octal4(number: u64) -> [u8; 4]
    requires { number < 8 ^ 4 }
    ensures { result ≡ spec.octal_digits 4 number }
{
    (FOUR_ZEROS + parted(number) as u32).to_be_bytes()
}

/// The four octal digits of a number, each in a byte of its own.
// All are parted at once, since a word takes most of the time that its line takes: two digits from
// two, and then in both halves one from one.
fn parted(number: u64) -> u64
    requires { number < 8 ^ 4 }
    ensures { result ≡ (number / 512 * 256 + number / 64 % 8) * 2 ^ 16
        + number / 8 % 8 * 256 + number % 8 }
{
    let pairs = number + number / 64 * ((1 << 16) - 64);
    pairs + (pairs / 8 & 0x7_0007) * ((1 << 8) - 8)
}

/// The word that is written so, or `None` where this is not twelve octal digits.
pub fn read_octal12(text: &[u8]) -> Option<Word>
    ensures digits { IsSome result ↔ IsTrue (spec.is_octal12 text.now) }
    ensures value { IfSome result (λ word. text.now ≡ spec.octal12 word) }
    ensures number { IfSome result (λ word. word ≡ digits_value 8 text.now) }
{
    if text.len() != OCTALS {
        return None;
    }
    let mut value = 0;
    for given in text {
        value = value * 8 + u64::from(octal_digit(*given)?);
    }
    Some(Word::from_value(value))
}

/// The value of an octal digit, below 8, or `None` where the byte is none.
fn octal_digit(given: u8) -> Option<u8>
    ensures digit { IsSome result ↔ IsTrue (spec.is_octal_digit given) }
    ensures value { IfSome result (λ value. given ≡ byte "0" + value) }
    ensures range { IfSome result (λ value. value < 8) }
{
    match given {
        b'0'..=b'7' => Some(given - b'0'),
        _ => None,
    }
}
