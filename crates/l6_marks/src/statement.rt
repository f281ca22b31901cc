//! The cards of a statement.

ghost use Rattle.std.specs.Prelude.{◌≡◌, ◌++◌, IfOk, OnOk};
ghost use Rattle.l6_card.specs.Card.{columns_of};
ghost use Rattle.l6_marks.specs.Marks as spec;
ghost use Rattle.l6_word.specs.Lines.{lines_of};

use crate::ahead::Ahead;
use crate::card::{begun_with, is_of, push_card};
use crate::marks::push_marks;
use l6_card::role_of;
use l6_word::first_line;
use std::alloc::AllocError;

/// Adds the cards of a statement, and what is marked on them.
pub(crate) fn push_statement(
    text: &mut Vec<u8>,
    deck: &[u8],
    statement: u64,
    ahead: Ahead,
) -> Result<(), AllocError>
    ensures { OnOk result (text.new.items
        ≡ text.old.items ++ spec.marked_from statement ahead 0 0 (lines_of deck.now)) }
{
    let mut next = ahead;
    let mut rest = deck;
    let mut card: usize = 0;
    let mut begun: usize = 0;
    while let Some((line, following)) = first_line(rest) {
        card += 1;
        let role = role_of(line);
        begun = begun_with(role, begun);
        if is_of(statement, role, begun) {
            next = push_marked(text, next, card, line)?;
        }
        rest = following;
    }
    Ok(())
}

/// Adds a card, and what is marked on it. Answers what is ahead after it.
fn push_marked(
    text: &mut Vec<u8>,
    ahead: Ahead,
    card: usize,
    line: &[u8],
) -> Result<Ahead, AllocError>
    ensures card { OnOk result (text.new.items
        ≡ text.old.items ++ spec.marked_card ahead card line.now) }
    ensures ahead { IfOk result
        (λ next. next ≡ spec.past_all ahead (spec.body_of (columns_of line.now))) }
{
    push_card(text, card, line)?;
    push_marks(text, ahead, line)
}
