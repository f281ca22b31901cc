//! The warnings of a deck's cards, in the order of the cards.

ghost use Rattle.std.specs.Prelude.{◌≡◌, ℕ, ◌+◌, ◌≤◌, ◌<◌, ◌^◌, ◌++◌, List, Some, length, IfOk, OnOk};
ghost use Rattle.l6_card.specs.Numerals.{most_deck_bytes};
ghost use Rattle.l6_check.specs.Kept.{Say};
ghost use Rattle.l6_check.specs.JobText as job;
ghost use Rattle.l6_check.specs.Warnings as spec;

use crate::columns::{has_past, past_on};
use crate::finding::Finding;
use crate::findings::Findings;
use crate::job::image_text;
use l6_word::first_line;
use std::alloc::{AllocError, Global};

/// The warnings of cards, whether or not the deck spells a program.
#[derive(Drop)]
pub struct CardWarnings<'a> {
    /// Those of what is past the columns that count.
    pub columns: Findings<'a>,
    /// The one of a deck that begins as the text of an image does.
    pub image: Findings<'a>,
}

/// The warnings of a deck's cards.
///
/// # Errors
///
/// Memory ran out.
pub fn card_warnings<'a>(alloc: Global, deck: &'a [u8]) -> Result<CardWarnings<'a>, AllocError>
    requires { length deck.now ≤ most_deck_bytes }
    ensures columns { IfOk result (λ found.
        Say spec.past_card (spec.past_cards deck.now) found.columns) }
    ensures image { IfOk result (λ found.
        Say job.image_card (job.image_cards deck.now) found.image) }
{
    let image = image_text(alloc, deck)?;
    let mut columns = Findings::new(alloc);
    let mut rest = deck;
    let mut card: u32 = 0;
    while let Some((line, following)) = first_line(rest) {
        card += 1;
        add_if_past(&mut columns, card, line)?;
        rest = following;
    }
    Ok(CardWarnings { columns, image })
}

/// Adds a warning if the card of a line has something past the columns that count.
#[inline(always)]
fn add_if_past<'a>(found: &mut Findings<'a>, card: u32, line: &'a [u8]) -> Result<(), AllocError>
    requires { found.old.count + 1 < 2 ^ 32 }
    ensures said { let more = spec.card_if (spec.has_past line.now) card in
        OnOk result ((cards : List ℕ) → Say spec.past_card cards found.old →
        Say spec.past_card (cards ++ more) found.new) }
    ensures count { OnOk result (found.new.count ≤ found.old.count + 1) }
{
    if has_past(line) {
        return found.add(past_on(card, line));
    }
    Ok(())
}
