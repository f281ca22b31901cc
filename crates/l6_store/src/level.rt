//! How many words a block of a level has, and the level of one that has room for so many.

ghost use Rattle.std.specs.Prelude.{◌≡◌, ℕ, ◌^◌, ◌<◌, ◌≤◌, IfNone, IfSome};
ghost use Rattle.l6_word.specs.Numerals.{largest_level};

use crate::places::Level;
use l6_word::LARGEST_LEVEL;

/// How many words a block of a level has.
pub(crate) fn size_of(level: Level) -> usize
    requires { level ≤ largest_level }
    ensures { result ≡ 2 ^ level }
{
    1 << level
}

/// The level of the least block that has at least so many words, or `None` where the largest block has
/// fewer: the level to ask `Places::get` for.
pub fn level_for(words: u32) -> Option<Level>
    ensures small { IfSome result (λ level. level ≤ largest_level) }
    ensures enough { IfSome result (λ level. words ≤ 2 ^ level) }
    ensures least { IfSome result (λ level. (lower : ℕ) → lower < level → 2 ^ lower < words) }
    ensures none { IfNone result (2 ^ largest_level < words) }
{
    if 1 << LARGEST_LEVEL < words {
        return None;
    }
    // how many bits the index of the last of so many words has: one fewer than twice it and 1
    let last = words.saturating_sub(1);
    let bits = u32::BITS - (2 * last + 1).leading_zeros() - 1;
    Some(bits as Level)
}
