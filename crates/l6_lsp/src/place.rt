//! Where a request points in a deck.

use crate::document::Document;
use crate::ranges::columns_value;
use l6_card::columns_of;
use l6_place::{CardStarts, Spot, offset_of};
use l6_rpc::OutOfMemory;
use serde_json::Value;
use std::alloc::{AllocError, Global};

/// A column of a card of a deck.
#[derive(Drop)]
pub(crate) struct Place<'a> {
    /// The name of the document.
    pub(crate) uri: &'a str,
    /// The deck.
    pub(crate) deck: &'a [u8],
    /// The same, by its cards.
    pub(crate) starts: CardStarts<'a>,
    /// The card, numbered from 1.
    pub(crate) card: usize,
    /// The column, counted from 0.
    pub(crate) column: usize,
}

impl<'a> Place<'a> {
    /// The column of a document's deck that a client means.
    ///
    /// # Errors
    ///
    /// Memory ran out.
    pub(crate) fn of(
        alloc: Global,
        uri: &'a str,
        document: &'a Document,
        spot: Spot,
    ) -> Result<Self, OutOfMemory> {
        let deck = document.deck();
        let starts = CardStarts::of(alloc, deck)?;
        let (card, column) = starts.card_at(offset_of(deck, spot));
        Ok(Place {
            uri,
            deck,
            starts,
            card,
            column,
        })
    }

    /// The columns of its card that count.
    pub(crate) fn columns(&self) -> &'a [u8] {
        columns_of(self.starts.card(self.card))
    }

    /// The value of columns of a card.
    ///
    /// # Errors
    ///
    /// Memory ran out.
    pub(crate) fn range(
        &self,
        alloc: Global,
        card: usize,
        from: usize,
        to: usize,
    ) -> Result<Value, AllocError> {
        columns_value(alloc, &self.starts, card, from, to)
    }
}
