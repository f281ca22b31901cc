//! The elements of a group.

use l6_word::split_once;

/// An element of a group.
#[derive(Clone, Copy, Debug)]
pub(crate) struct Element<'a> {
    /// How many columns of the group are before it.
    pub(crate) start: usize,
    /// Its columns.
    pub(crate) text: &'a [u8],
}

/// The element of this number, from 0 on, of a group with these columns between its parentheses.
pub(crate) fn nth_element(columns: &[u8], number: usize) -> Option<Element<'_>> {
    let mut start: usize = 0;
    let mut rest = columns;
    let mut left = number;
    while let Some((first, following)) = split_once(rest, b',') {
        if left == 0 {
            return Some(Element { start, text: first });
        }
        start = start.saturating_add(first.len()).saturating_add(1);
        rest = following;
        left -= 1;
    }
    if left == 0 {
        return Some(Element { start, text: rest });
    }
    None
}
