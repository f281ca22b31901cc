//! The labels that cards give, and those that are given twice.

ghost use Rattle.std.specs.Prelude.{◌≡◌, ℕ, ◌+◌, ◌≤◌, ◌<◌, ◌^◌, ◌++◌, List, Some, MatchOption, length, IfOk, OnOk};
ghost use Rattle.l6_card.specs.Numerals.{most_deck_bytes};
ghost use Rattle.l6_check.specs.Kept.{Say};
ghost use Rattle.l6_check.specs.OnCard.{AreOnTheirCards, IsOnItsCard, StayOnTheirCards};
ghost use Rattle.l6_check.specs.Labels as spec;

use crate::finding::{Finding, Span};
use crate::findings::Findings;
use crate::reason::Reason;
use indexmap::IndexMap;
use l6_card::{columns_of, split_label};
use l6_group::{Label, is_letter, label_of};
use l6_word::{first_line, without_return};
use std::alloc::{AllocError, Global};

/// The labels that cards give, each with the card that gives it first.
pub type Labels = IndexMap<Label, u32>;

/// The labels of a deck.
#[derive(Drop)]
pub struct LabelsFound<'a> {
    /// Those that its cards give.
    pub given: Labels,
    /// The errors of cards whose label an earlier card gives.
    pub twice: Findings<'a>,
}

/// The labels that the cards of a deck give, also those of statements that have an error.
///
/// # Errors
///
/// Memory ran out.
pub fn labels_of<'a>(alloc: Global, deck: &'a [u8]) -> Result<LabelsFound<'a>, AllocError>
    requires { length deck.now ≤ most_deck_bytes }
    ensures given { IfOk result (λ found. found.given.entries ≡ spec.labels_given deck.now) }
    ensures twice { IfOk result (λ found.
        Say spec.twice_said (spec.twice_labelled deck.now) found.twice) }
    ensures places { IfOk result (λ found. AreOnTheirCards found.twice) }
{
    let mut given = IndexMap::new(alloc);
    let mut twice = Findings::new(alloc);
    let mut rest = deck;
    let mut card: u32 = 0;
    while let Some((line, following)) = first_line(rest) {
        card += 1;
        take_line(&mut given, &mut twice, card, line)?;
        rest = following;
    }
    Ok(LabelsFound { given, twice })
}

/// Takes the label of a line, if it gives one.
fn take_line<'a>(
    given: &mut Labels,
    twice: &mut Findings<'a>,
    card: u32,
    line: &'a [u8],
) -> Result<(), AllocError>
    requires { twice.old.count + 1 < 2 ^ 32 }
    ensures given { let label = spec.label_on_line line.now in
        OnOk result (given.new.entries ≡ spec.with_label given.old.entries card label) }
    ensures said { let more = spec.twice_on given.old.entries card (spec.label_on_line line.now) in
        OnOk result ((things : List (ℕ × ℕ)) → Say spec.twice_said things twice.old →
        Say spec.twice_said (things ++ more) twice.new) }
    ensures count { OnOk result (twice.new.count ≤ twice.old.count + 1) }
    ensures places { OnOk result (StayOnTheirCards twice.old twice.new) }
{
    let Some(label) = label_on(line) else {
        return Ok(());
    };
    match given.get(&label).copied() {
        Some(first) => twice.add(twice_on(card, first, line)),
        None => {
            given.insert(label, card)?;
            Ok(())
        }
    }
}

/// The label that the card of a line gives.
#[tactic(auto, unfolding(l6_card::specs::Numerals::card_width))]
pub(crate) fn label_on(line: &[u8]) -> Option<Label>
    ensures { result ≡ spec.label_on_line line.now }
{
    let columns = columns_of(line);
    match columns.first() {
        None => None,
        Some(column) => {
            if is_letter(*column) {
                label_of(split_label(columns).0)
            } else {
                None
            }
        }
    }
}

/// The error of a card that gives a label which an earlier card gives.
fn twice_on(card: u32, first: u32, line: &[u8]) -> Finding<'_>
    ensures said { spec.twice_said result ≡ Some (card, first) }
    ensures place { IsOnItsCard result }
{
    label_finding(card, line, Reason::TwiceLabelled(first))
}

/// A finding about the label that the card of a line gives.
pub(crate) fn label_finding(card: u32, line: &[u8], reason: Reason) -> Finding<'_>
    ensures number { result.card ≡ card }
    ensures why { result.reason ≡ reason }
    ensures place { IsOnItsCard result }
{
    let (label, _) = split_label(columns_of(line));
    Finding {
        card,
        span: Span::on_card(0, label.len()),
        text: label,
        line: without_return(line),
        reason,
    }
}
