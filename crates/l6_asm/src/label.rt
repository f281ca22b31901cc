//! The labels of a deck's statements.

ghost use Rattle.std.specs.Prelude.{◌≡◌, ◌≤◌, length};
ghost use Rattle.l6_card.specs.Numerals.{most_deck_statements};
ghost use Rattle.l6_asm.specs.Labels as spec;
ghost use Rattle.l6_asm.specs.inner.MakesOrFails.{MakesOrFails};

use crate::assembly::Labels;
use crate::fault::AsmFault;
use indexmap::IndexMap;
use l6_card::{DeckStatement, PlacedLabel};
use l6_group::Label;
use std::alloc::Global;

/// The labels of statements, in order, each with the number of its statement.
pub(crate) fn labels_of(alloc: Global, statements: &[DeckStatement]) -> Result<Labels, AsmFault>
    requires { length statements.now ≤ most_deck_statements }
    ensures { MakesOrFails result (λ labels. labels.entries) (spec.labels_of statements.now) }
{
    let mut labels = IndexMap::new(alloc);
    let mut number: u16 = 0;
    for written in statements {
        add_label(&mut labels, number, written.label())?;
        number += 1;
    }
    Ok(labels)
}

/// Adds the label of the statement of this number, if it has one.
fn add_label(labels: &mut Labels, number: u16, given: &Option<PlacedLabel>) -> Result<(), AsmFault>
    ensures { let added = spec.with_label labels.old.entries number given.now in
        MakesOrFails result (λ _. labels.new.entries) added }
{
    match given {
        None => Ok(()),
        Some(given) => match labels.insert(given.label.clone()?, number) {
            Ok(None) => Ok(()),
            Ok(Some(_)) => Err(AsmFault::TwiceLabelled(given.card)),
            Err(_) => Err(AsmFault::NoMemory),
        },
    }
}

/// The number of the statement that a label names.
pub(crate) fn number_of(labels: &Labels, label: &Label) -> Option<u16>
    ensures { result ≡ spec.number_of labels.now.entries label.now }
{
    labels.get(label).copied()
}
