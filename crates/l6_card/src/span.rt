//! Where groups are in a deck.

/// The bytes of a group in its deck: from its `(` to its `)`, both included.
#[derive(Clone, Copy, Debug, PartialEq, Eq)]
pub struct Span {
    /// How many bytes of the deck are before the `(`.
    pub offset: u32,
    /// How many bytes the group has, its parentheses included.
    pub length: u32,
}
