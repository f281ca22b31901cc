//! The codes of characters.

ghost use Rattle.std.specs.Prelude.{◌≡◌, ◌<◌};
ghost use Rattle.l6_word.specs.Numerals.{code_count};
ghost use Rattle.l6_word.specs.Code as spec;

/// How many codes of characters there are; as digits of a number, codes have this base.
pub const CODE_COUNT: u64 = 64;

/// Whether a byte is read as a blank: it is one, or a tab.
pub fn is_blank(byte: u8) -> bool
    ensures { result ≡ spec.is_blank byte }
{
    byte == b' ' || byte == b'\t'
}

/// The character that a byte is read as: a tab as a blank, a small letter as its capital, any other
/// byte as itself.
pub fn character_of(byte: u8) -> u8
    ensures { result ≡ spec.character_of byte }
{
    match byte {
        b'\t' => b' ',
        b'a'..=b'z' => byte - b'a' + b'A',
        _ => byte,
    }
}

/// The code of the character that a byte is read as, below 64: its ASCII code less 32. A small
/// letter is read as its capital, and a tab as a blank. `None` for any other byte, which has no
/// code.
pub fn code_of(byte: u8) -> Option<u8>
    ensures { result ≡ spec.code_of byte }
{
    match character_of(byte) {
        character @ b' '..=b'_' => Some(character - b' '),
        _ => None,
    }
}

/// The code that a byte of an input is read as, below 64: that of `?` where it has none.
pub fn input_code(byte: u8) -> u8
    ensures value { result ≡ spec.input_code byte }
    ensures range { result < code_count }
{
    code_of(byte).unwrap_or(b'?' - b' ')
}

/// The character that has a code. The caller owes a code below 64.
pub fn char_of(code: u8) -> u8
    requires { code < code_count }
    ensures { result ≡ spec.char_of code }
{
    code + b' '
}
