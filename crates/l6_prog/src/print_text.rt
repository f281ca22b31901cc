//! Texts that are printed.

ghost use Rattle.std.specs.Prelude.{⊤, ◌≡◌, ◌↔◌, true, IsTrue, IsSome, IfSome};
ghost use Rattle.std.specs.List.{list_all};
ghost use Rattle.l6_prog.specs.PrintText.{is_print_text, may_print};

use l6_word::CODE_COUNT;
use std::alloc::AllocError;
use std::marker::Model;

/// How many characters a printed text may have.
pub const MAX_CHARACTERS: usize = 60;

/// The text of an operation that prints it: 1 to 60 characters as their codes, none of them a comma
/// or a parenthesis, since a card could not spell those.
// The longest operand of an operation, so it has no byte more than it needs.
#[derive(Debug, Drop)]
pub struct PrintText {
    /// The codes, and places that are not used.
    codes: [u8; MAX_CHARACTERS],
    /// How many codes there are.
    count: u8,
}

impl Model for PrintText {
    ghost use Rattle.std.specs.Prelude.{◌≡◌, ◌≤◌, ℕ, List, length, take, true};
    ghost use Rattle.l6_prog.specs.Numerals.{most_characters};
    ghost use Rattle.l6_prog.specs.PrintText.{is_print_text};

    ghost Value = { List ℕ };

    ghost view = { λ text. take text.count text.codes };

    ghost invariant = { λ text. (text.count ≤ most_characters)
        × (length text.codes ≡ most_characters)
        × (is_print_text (take text.count text.codes) ≡ true) };
}

impl PrintText {
    /// The text of these codes, or `None` where they are none: where there is no code or more than
    /// 60, or where one is 64 or more, or that of a comma or a parenthesis.
    pub fn new(codes: &[u8]) -> Option<Self>
        ensures valid { IsSome result ↔ IsTrue (is_print_text codes.now) }
        ensures value { IfSome result (λ text. text ≡ codes.now) }
    {
        if codes.is_empty() || codes.len() > MAX_CHARACTERS || !each_may_print(codes) {
            return None;
        }
        let mut kept = [0; MAX_CHARACTERS];
        kept[..codes.len()].copy_from_slice(codes);
        Some(PrintText {
            codes: kept,
            count: codes.len() as u8,
        })
    }

    /// The codes of the characters, in order.
    pub fn codes(&self) -> &[u8]
        ensures value { result.now ≡ self.now }
        ensures text { IsTrue (is_print_text result.now) }
    {
        &self.codes[..usize::from(self.count)]
    }

    /// Does nothing. Its clause gives the prover what is true of every text.
    #[inline(always)]
    pub(crate) fn reveal(&self)
        ensures { is_print_text self.now ≡ true }
    {
        // a look at the field, for which the invariant is opened
        let _ = &self.codes;
    }
}

/// Whether a text may have each of these codes.
fn each_may_print(codes: &[u8]) -> bool
    ensures { result ≡ list_all may_print codes.now }
{
    codes.iter().all(|code| may_print(*code))
}

/// Whether a text may have this code.
fn may_print(code: u8) -> bool
    ensures { result ≡ may_print code }
{
    u64::from(code) < CODE_COUNT
        && code != b',' - b' '
        && code != b'(' - b' '
        && code != b')' - b' '
}

/// A clone is the same text. It takes no memory.
impl Clone for PrintText {
    ghost is_clone = { λ text copy. copy ≡ text };

    ghost is_infallible = { λ _. ⊤ };

    fn clone(&self) -> Result<Self, AllocError> {
        Ok(PrintText {
            codes: self.codes,
            count: self.count,
        })
    }
}
