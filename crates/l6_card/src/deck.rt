//! How a deck is read: its lines, one after another.

ghost use Rattle.std.specs.Prelude.{◌≡◌, ◌≤◌, length, IfOk, IfErr, IfSome};
ghost use Rattle.l6_card.specs.Numerals.{most_deck_bytes};
ghost use Rattle.l6_card.specs.DeckFault.{deck_fault};
ghost use Rattle.l6_card.specs.Fault.{fault_of};
ghost use Rattle.l6_card.specs.ReadsAs.{ReadsAs};
ghost use Rattle.l6_card.specs.Laws.{IsFirstFault, IsOnlyReading, AreWithinLimits};

use crate::card::columns_of;
use crate::cards::Cards;
use crate::fault::CardFault;
use crate::reader::Reader;
use l6_word::first_line;
use std::alloc::Global;

/// The statements that a deck of at most 1,048,576 bytes says, within the limits. Cards are lines,
/// and all lines count.
///
/// # Errors
///
/// The first objection to the deck, in the order of the cards and of the columns on each; or out of
/// memory.
pub fn read_deck(alloc: Global, deck: &[u8]) -> Result<Cards, CardFault>
    requires { length deck.now ≤ most_deck_bytes }
    // What is read is what the deck says, and it says nothing else.
    ensures reads { IfOk result (λ cards. ReadsAs deck.now cards) }
    ensures only { IfOk result (λ cards. IsOnlyReading deck.now cards) }
    ensures limits { IfOk result (λ cards. AreWithinLimits cards) }
    // No piece of a deck that is read objects.
    ensures sound { IfOk result (λ _. fault_of deck.now ≡ None) }
    // A fault other than out of memory is the first objection, and the deck says nothing.
    ensures fault { IfErr result (λ fault. IfSome (deck_fault fault) (IsFirstFault deck.now)) }
{
    let mut reader = Reader::new(alloc);
    let mut rest = deck;
    let mut card: u32 = 0;
    let mut offset = 0;
    while let Some((line, following)) = first_line(rest) {
        card += 1;
        reader.take_card(card, offset, columns_of(line))?;
        // A line feed ends each line, but perhaps the last.
        offset += line.len() + 1;
        rest = following;
    }
    reader.end()?;
    Ok(Cards::new(reader.into_statements()))
}
