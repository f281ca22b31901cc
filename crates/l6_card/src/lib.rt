//! Decks of cards: reading the statements that a deck of cards says.
#![tactic(auto)]

mod builder;
mod card;
mod cards;
mod deck;
mod fault;
mod item;
mod laws;
mod limits;
mod objection;
mod part;
mod reader;
mod role;
mod solid;
mod span;
mod worked;

pub use card::{columns_of, split_label};
pub use cards::{Cards, DeckStatement, Parts, Placed, PlacedLabel};
pub use deck::read_deck;
pub use fault::CardFault;
pub use item::{Token, first_item};
pub use l6_group::Label;
pub use laws::{
    decks_have_their_limits, groups_have_their_spans, items_are_groups_and_words,
    parts_are_read_alone, prefixes_begin_statements, reading_is_settled,
    whole_items_denote_statements,
};
pub use limits::MAX_DECK_BYTES;
pub use objection::{Objection, ReadError, Reason};
pub use part::read_part;
pub use role::{Role, role_of};
pub use span::Span;
pub use worked::{half_is_refused, loop_is_read, pieces_are_refused};
