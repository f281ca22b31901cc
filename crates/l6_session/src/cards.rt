//! The cards near a statement.

ghost use Rattle.std.specs.Prelude.{◌≡◌, ◌++◌, OnOk};
ghost use Rattle.l6_session.specs.Reports as spec;

use l6_card::role_of;
use l6_marks::{begun_with, push_card};
use l6_word::first_line;
use std::alloc::AllocError;

/// How many statements are listed before and after the one that is asked for.
const NEAR: u64 = 4;

/// Adds the cards of a deck that are of a statement, or of one near it.
pub(crate) fn push_near(text: &mut Vec<u8>, deck: &[u8], statement: u64) -> Result<(), AllocError>
    ensures { OnOk result (text.new.items ≡ text.old.items ++ spec.near_text deck.now statement) }
{
    let mut rest = deck;
    let mut card: usize = 0;
    let mut begun: usize = 0;
    while let Some((line, following)) = first_line(rest) {
        card += 1;
        begun = begun_with(role_of(line), begun);
        if is_near(statement, begun as u64) {
            push_card(text, card, line)?;
        }
        rest = following;
    }
    Ok(())
}

/// Whether the last of so many statements is near this one.
pub(crate) fn is_near(statement: u64, begun: u64) -> bool
    ensures { result ≡ spec.is_near statement begun }
{
    if begun == 0 {
        return false;
    }
    let last = begun - 1;
    last.saturating_sub(NEAR) <= statement && statement <= last.saturating_add(NEAR)
}
