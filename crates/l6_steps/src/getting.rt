//! The level of the block that an operation asks for.

ghost use Rattle.std.specs.Prelude.{◌≡◌, ◌≤◌, IfOk};
ghost use Rattle.l6_word.specs.Numerals.{largest_level};
ghost use Rattle.l6_steps.specs.Getting as spec;

use crate::trap::Trap;
use l6_store::Level;
use l6_word::{UNIT_SIZE, Word};

/// The level of the least block of at least so many words.
///
/// # Errors
///
/// `BadSize` exactly for no word, and for more than the largest block has.
#[inline(always)]
pub fn level_for(words: Word) -> Result<Level, Trap>
    ensures value { result ≡ spec.level_for words }
    ensures small { IfOk result (λ level. level ≤ largest_level) }
{
    let words = words.get();
    if words == 0 || u64::from(UNIT_SIZE) < words {
        return Err(Trap::BadSize);
    }
    Ok((u64::BITS - (words - 1).leading_zeros()) as Level)
}
