//! Labels that stand in another column than 1, where no card gives them: the error of their own card is
//! enough, so that no statement is blamed that names one.

ghost use Rattle.std.specs.Prelude.{◌≡◌, ◌+◌, ◌≤◌, length, Some, IfOk, OnOk};
ghost use Rattle.l6_word.specs.Lines.{lines_of};
ghost use Rattle.l6_card.specs.Numerals.{most_deck_bytes};
ghost use Rattle.l6_card.specs.Card.{columns_of};
ghost use Rattle.l6_check.specs.Indented as spec;
ghost use Rattle.l6_check.specs.Labels.{with_label};
ghost use Rattle.l6_check.specs.Statements.{parts_of};
ghost use Rattle.l6_check.specs.inner.Parts.{lines_in};

use crate::fault::OutOfMemory;
use crate::labels::Labels;
use crate::parts::{Part, Parts};
use crate::scan::begin_blank;
use l6_card::{Objection, Reason, columns_of};
use l6_group::{Label, label_of};
use l6_word::first_line;
use std::alloc::{AllocError, Global};

/// Adds to the labels that cards of a deck give those that statements mean to give.
///
/// # Errors
///
/// Memory ran out.
pub(crate) fn add_indented(
    alloc: Global,
    given: &mut Labels,
    deck: &[u8],
) -> Result<(), OutOfMemory>
    requires { length deck.now ≤ most_deck_bytes }
    ensures { let parts = parts_of (lines_of deck.now) in
        OnOk result (given.new.entries ≡ spec.with_indented given.old.entries 1 parts) }
{
    let mut parts = Parts::of(deck);
    while let Some(part) = parts.next() {
        if let Some(label) = indented_label(alloc, part)? {
            add_label(given, label, part.before + 1)?;
        }
    }
    Ok(())
}

/// Adds a label that this card gives, if it is new.
fn add_label(given: &mut Labels, label: Label, card: u32) -> Result<(), AllocError>
    ensures { let entries = with_label given.old.entries card (Some label) in
        OnOk result (given.new.entries ≡ entries) }
{
    if given.get(&label).is_none() {
        given.insert(label, card)?;
    }
    Ok(())
}

/// The label that a part means to give.
fn indented_label(alloc: Global, part: Part<'_>) -> Result<Option<Label>, OutOfMemory>
    requires { part.before + length part.text.now ≤ most_deck_bytes }
    ensures { let meant = spec.indented_label (part.entry.before + 1) (lines_in part.entry) in
        IfOk result (λ label. label ≡ meant) }
{
    match part.objection(alloc)? {
        None => Ok(None),
        Some(objection) => Ok(label_before(objection, part)),
    }
}

/// The label that a part means to give to which there is this objection: a first word that is no condition,
/// where a group follows it.
fn label_before(objection: Objection, part: Part<'_>) -> Option<Label>
    requires { part.before + length part.text.now ≤ most_deck_bytes }
    ensures { result ≡ spec.label_before objection (part.entry.before + 1) (lines_in part.entry) }
{
    match objection.reason {
        Reason::NoCondition => first_word(objection, part),
        _ => None,
    }
}

/// The label before the columns that object, on their card.
fn first_word(objection: Objection, part: Part<'_>) -> Option<Label>
    requires { part.before + length part.text.now ≤ most_deck_bytes }
    ensures { result ≡ spec.label_on_card objection (part.entry.before + 1) (lines_in part.entry) }
{
    let mut rest = part.text;
    let mut card = part.before;
    let mut left = part.count;
    while left > 0 {
        let (line, following) = first_line(rest)?;
        card += 1;
        if card == objection.card {
            return label_in_front(columns_of(line), objection.from);
        }
        rest = following;
        left -= 1;
    }
    None
}

/// The label that so many columns spell, if the first one is blank.
fn label_in_front(columns: &[u8], count: usize) -> Option<Label>
    ensures { result ≡ spec.label_in_front columns.now count }
{
    if !begin_blank(columns) {
        return None;
    }
    label_of(&columns[..count.min(columns.len())])
}
