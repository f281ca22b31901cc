//! The statements of a deck, by their cards.

ghost use Rattle.std.specs.Prelude.{◌≡◌, IfOk};
ghost use Rattle.l6_place.specs.Cards as spec;

use l6_card::{Role, role_of};
use l6_word::first_line;
use std::alloc::{AllocError, Global};

/// The cards of a deck that begin statements, numbered from 1, in order: the statement of a number, from 0 on,
/// begins on the card at that index.
///
/// # Errors
///
/// Memory ran out.
pub fn first_cards(alloc: Global, deck: &[u8]) -> Result<Vec<usize>, AllocError>
    ensures { IfOk result (λ cards. cards.items ≡ spec.first_cards deck.now) }
{
    let mut cards = Vec::new(alloc);
    let mut rest = deck;
    let mut card: usize = 0;
    while let Some((line, following)) = first_line(rest) {
        card += 1;
        if role_of(line) == Role::First {
            cards.push(card)?;
        }
        rest = following;
    }
    Ok(cards)
}
