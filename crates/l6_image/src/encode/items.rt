//! Names and codes, six in a word.

ghost use Rattle.std.specs.Prelude.{◌≡◌, ◌++◌, [], ◌∷◌, OnOk, slice_index_or};
ghost use Rattle.l6_image.specs.Bits.{bits, packed, six};
ghost use Rattle.l6_image.specs.Numerals.{no_name};
ghost use Rattle.l6_image.specs.Row.{sixes};

use l6_prog::{Chain, Name};
use std::alloc::AllocError;

/// How many names or codes one word holds.
pub(crate) const ITEMS_PER_WORD: usize = 6;

/// Takes the place of a name where there is none.
pub(crate) const NO_NAME: u8 = 63;

/// The word of a chain's names.
pub(crate) fn names_word(chain: &Chain) -> u64
    ensures { result ≡ six no_name chain.now }
{
    let names = chain.names();
    six_items(
        name_at(names, 0),
        name_at(names, 1),
        name_at(names, 2),
        name_at(names, 3),
        name_at(names, 4),
        name_at(names, 5),
    )
}

/// The number of the name at a place, or the one that stands for none.
fn name_at(names: &[Name], place: usize) -> u8
    ensures { result ≡ slice_index_or names.now place no_name }
{
    match names.get(place) {
        None => NO_NAME,
        Some(name) => name.number(),
    }
}

/// The word of the first six codes. Where there are fewer, zeros follow.
fn codes_word(codes: &[u8]) -> u64
    ensures { result ≡ six 0 codes.now }
{
    six_items(
        code_at(codes, 0),
        code_at(codes, 1),
        code_at(codes, 2),
        code_at(codes, 3),
        code_at(codes, 4),
        code_at(codes, 5),
    )
}

/// The code at a place, or 0 after the last.
fn code_at(codes: &[u8], place: usize) -> u8
    ensures { result ≡ slice_index_or codes.now place 0 }
{
    match codes.get(place) {
        None => 0,
        Some(code) => *code,
    }
}

/// The word of six items.
fn six_items(a: u8, b: u8, c: u8, d: u8, e: u8, f: u8) -> u64
    ensures { result ≡ packed (bits 6 a ∷ bits 6 b ∷ bits 6 c ∷ bits 6 d ∷ bits 6 e ∷ bits 6 f ∷ []) }
{
    u64::from(a) * (1 << 30)
        + u64::from(b) * (1 << 24)
        + u64::from(c) * (1 << 18)
        + u64::from(d) * (1 << 12)
        + u64::from(e) * (1 << 6)
        + u64::from(f)
}

/// Writes the codes after the words, six in each word.
pub(crate) fn push_codes(words: &mut Vec<u64>, codes: &[u8]) -> Result<(), AllocError>
    ensures { OnOk result (words.new.items ≡ words.old.items ++ sixes codes.now) }
{
    let mut rest = codes;
    while !rest.is_empty() {
        words.push(codes_word(rest))?;
        let (_, following) = rest.split_at(ITEMS_PER_WORD.min(rest.len()));
        rest = following;
    }
    Ok(())
}
