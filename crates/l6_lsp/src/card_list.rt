//! Cards that something stands on, in words.

use std::alloc::{AllocError, Global};

/// How many cards are named at most.
const MOST_CARDS: usize = 8;

/// Cards, each once, in their order.
#[derive(Drop)]
pub(crate) struct CardList {
    cards: Vec<usize>,
}

impl CardList {
    /// No card.
    pub(crate) fn new(alloc: Global) -> Self {
        CardList {
            cards: Vec::new(alloc),
        }
    }

    /// Adds a card, unless it is the last one that was added.
    pub(crate) fn add(&mut self, card: usize) -> Result<(), AllocError> {
        if self.cards.as_slice().last() != Some(&card) {
            self.cards.push(card)?;
        }
        Ok(())
    }

    /// What happens on these cards: the first of them, and how many more there are.
    pub(crate) fn text(&self, alloc: Global, what: &str) -> Result<String, AllocError> {
        let cards = self.cards.as_slice();
        let Some((first, others)) = cards.split_first() else {
            return format!(in alloc; "{what} nowhere.");
        };
        if others.is_empty() {
            return format!(in alloc; "{what} on card {first}.");
        }
        let mut text = format!(in alloc; "{what} on cards {first}")?;
        for card in others.iter().take(MOST_CARDS - 1) {
            text = format!(in alloc; "{text}, {card}")?;
        }
        match cards.len().checked_sub(MOST_CARDS) {
            None | Some(0) => format!(in alloc; "{text}."),
            Some(more) => format!(in alloc; "{text} and {more} more."),
        }
    }
}
