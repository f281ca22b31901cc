//! The limits of a deck.

use l6_prog::MAX_STATEMENTS;

/// How many bytes a deck may have.
pub const MAX_DECK_BYTES: usize = 1_048_576;
/// How many columns of a card count.
pub const CARD_WIDTH: usize = 72;
/// How many statements a deck may write. The plain `DONE` that ends every program comes on top.
pub const MAX_DECK_STATEMENTS: usize = MAX_STATEMENTS - 1;
/// How many cards may continue a statement.
pub const MAX_CONTINUATIONS: usize = 15;
