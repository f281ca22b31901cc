//! The elements of a group by their places. It is looked at for an error alone.

ghost use Rattle.std.specs.Prelude.{◌≡◌, ◌+◌, ◌≤◌, [], ◌∷◌, length, IfNone, MatchOption};
ghost use Rattle.l6_group.specs.Element.{elements_of};
ghost use Rattle.l6_group.specs.Objection as spec;

use l6_word::split_once;

/// An element of a group.
#[derive(Clone, Copy, Debug)]
pub(crate) struct Element<'a> {
    /// How many of the group's columns are before it.
    pub(crate) start: usize,
    /// Its columns.
    pub(crate) text: &'a [u8],
}

/// The first element of a group, and the columns after its comma, if it has one.
pub(crate) fn first_of(columns: &[u8]) -> (&[u8], Option<&[u8]>)
    ensures first { let elements = elements_of columns.now in
        MatchOption result.1 (elements ≡ result.0.now ∷ [])
        (λ others. elements ≡ result.0.now ∷ elements_of others.now) }
    ensures alone { IfNone result.1 (result.0.now ≡ columns.now) }
    ensures lengths { MatchOption result.1 (length result.0.now ≡ length columns.now)
        (λ others. length result.0.now + 1 + length others.now ≡ length columns.now) }
{
    match split_once(columns, b',') {
        None => (columns, None),
        Some((first, others)) => (first, Some(others)),
    }
}

/// The element that says what a group is: the second one, or the only one.
pub(crate) fn word_of(columns: &[u8]) -> Element<'_>
    ensures start { result.start ≡ spec.word_start (elements_of columns.now) }
    ensures text { result.text.now ≡ spec.word_of (elements_of columns.now) }
    ensures inside { result.start + length result.text.now ≤ length columns.now }
{
    let (first, others) = first_of(columns);
    match others {
        None => Element {
            start: 0,
            text: first,
        },
        Some(others) => {
            let (word, _) = first_of(others);
            Element {
                start: first.len() + 1,
                text: word,
            }
        }
    }
}

/// The last element of a group.
pub(crate) fn last_of(columns: &[u8]) -> &[u8]
    ensures { result.now ≡ spec.last_of (elements_of columns.now) }
{
    let mut rest = columns;
    while let (_, Some(others)) = first_of(rest) {
        rest = others;
    }
    rest
}

/// How many elements a group has.
pub(crate) fn element_count(columns: &[u8]) -> usize
    ensures { result ≡ length (elements_of columns.now) }
{
    let mut count: usize = 1;
    let mut rest = columns;
    while let (_, Some(others)) = first_of(rest) {
        count += 1;
        rest = others;
    }
    count
}
