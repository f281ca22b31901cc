//! The numbers of statements, beside their cards.

use l6_place::{CardStarts, first_cards};
use l6_rpc::OutOfMemory;
use serde_json::{Value, json};
use std::alloc::{AllocError, Global};

/// The statement that a card begins or goes on with, numbered from 0.
///
/// # Errors
///
/// Memory ran out.
pub(crate) fn number_of_card(alloc: Global, deck: &[u8], card: usize) -> Result<usize, AllocError> {
    let cards = first_cards(alloc, deck)?;
    let begun = cards.as_slice().partition_point(|first| *first <= card);
    Ok(begun.saturating_sub(1))
}

/// The number of each statement, as a hint in front of its card: of those on lines from one to another.
///
/// # Errors
///
/// Memory ran out.
pub(crate) fn hints(
    alloc: Global,
    deck: &[u8],
    first: u64,
    last: u64,
) -> Result<Value, OutOfMemory> {
    let starts = CardStarts::of(alloc, deck)?;
    let mut list = Vec::new(alloc);
    for (number, card) in first_cards(alloc, deck)?.iter().enumerate() {
        let spot = starts.spot(*card, 0);
        if first <= spot.line && spot.line <= last {
            let (line, character) = (spot.line, spot.character);
            let label = Value::String(format!(in alloc; "{number}")?);
            list.push(
                json!(in alloc; {"position": {"line": line, "character": character},
                "label": label, "paddingRight": true})?,
            )?;
        }
    }
    Ok(Value::Array(list))
}
