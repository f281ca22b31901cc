//! What cards are to the statements of their deck.

ghost use Rattle.std.specs.Prelude.{◌≡◌, ℕ};
ghost use Rattle.l6_card.specs.Card.{card_of, columns_of};
ghost use Rattle.l6_card.specs.Role as spec;

use crate::card::{Kind, columns_of, kind_of};

/// What a card is to the statements of its deck.
#[derive(Clone, Copy, Debug, PartialEq, Eq)]
pub enum Role {
    /// A comment or a blank card: it belongs to no statement.
    Skipped,
    /// The first card of a statement.
    First,
    /// It continues the latest statement.
    Further,
    /// It has a column 1 that is not allowed. No deck that can be read has such a card.
    Unknown,
}

/// What the card of a line is to the statements of its deck, wherever it is there.
#[tactic(auto, unfolding(crate::specs::Numerals::card_width))]
pub fn role_of(line: &[u8]) -> Role
    ensures value { result ≡ spec.role_of line.now }
    ensures anywhere { (number offset : ℕ) →
        spec.role_in (card_of number offset (columns_of line.now)) ≡ result }
{
    match kind_of(1, 0, columns_of(line)) {
        Kind::Skipped => Role::Skipped,
        Kind::Plain(_) | Kind::Labelled(_) => Role::First,
        Kind::Continued(_) => Role::Further,
        Kind::Unknown => Role::Unknown,
    }
}
