//! Words that a sign parts in two.

ghost use Rattle.std.specs.Prelude.{◌≡◌};
ghost use Rattle.std.specs.Option.{option_map};
ghost use Rattle.l6_session.specs.Parted as spec;

/// What is before the first sign of this kind in a word, and what is after it, if the word has one.
pub(crate) fn parted(word: &[u8], sign: u8) -> Option<(&[u8], &[u8])>
    ensures { option_map (λ parts. (parts.0.now, parts.1.now)) result ≡ spec.parted sign word.now }
{
    let after = after_sign(word, sign)?;
    let before = word.len().saturating_sub(after.len() + 1);
    Some((&word[..before], after))
}

/// What is after the first sign of this kind in a word, if it has one.
fn after_sign(word: &[u8], sign: u8) -> Option<&[u8]>
    ensures { option_map (λ rest. rest.now) result ≡ spec.after_sign sign word.now }
{
    let mut rest = word;
    while let Some((first, following)) = rest.split_first() {
        if *first == sign {
            return Some(following);
        }
        rest = following;
    }
    None
}
