//! Words that are nearly the same.

ghost use Rattle.std.specs.Prelude.{◌≡◌};
ghost use Rattle.l6_session.specs.Near as spec;

/// Whether words differ in one character, in one more or less, or in two that are exchanged.
pub(crate) fn is_one_off(one: &[u8], other: &[u8]) -> bool
    ensures { result ≡ spec.is_one_off one.now other.now }
{
    let mut one = one;
    let mut other = other;
    while let (Some((a, after)), Some((b, following))) = (one.split_first(), other.split_first()) {
        if *a != *b {
            return is_one_off_here(one, other);
        }
        one = after;
        other = following;
    }
    is_one_off_here(one, other)
}

/// Whether words differ so that differ in their first characters.
fn is_one_off_here(one: &[u8], other: &[u8]) -> bool
    ensures { result ≡ spec.is_one_off_here one.now other.now }
{
    match (one.split_first(), other.split_first()) {
        (Some((_, after)), Some((_, following))) => {
            after == following || after == other || one == following || is_exchanged(one, other)
        }
        (Some((_, after)), None) => after.is_empty(),
        (None, Some((_, following))) => following.is_empty(),
        (None, None) => false,
    }
}

/// Whether one word is the other with its first two characters exchanged.
fn is_exchanged(one: &[u8], other: &[u8]) -> bool
    ensures { result ≡ spec.is_exchanged one.now other.now }
{
    match (one, other) {
        ([a, b, one @ ..], [c, d, other @ ..]) => *a == *d && *b == *c && one == other,
        _ => false,
    }
}
