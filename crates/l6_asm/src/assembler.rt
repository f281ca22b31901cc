//! From a deck to the program that it spells.

ghost use Rattle.std.specs.Prelude.{◌≤◌, length, IfOk, IfErr, IfSome};
ghost use Rattle.l6_card.specs.Numerals.{most_deck_bytes};
ghost use Rattle.l6_card.specs.Laws.{AreWithinLimits};
ghost use Rattle.l6_asm.specs.AssemblyFault.{assembly_fault};
ghost use Rattle.l6_asm.specs.Spells.{SpellsJust, IsUnspelled, assembled};
ghost use Rattle.l6_asm.specs.inner.MakesOrFails.{MakesOrFails};

use crate::assembly::Assembly;
use crate::fault::AsmFault;
use crate::label::labels_of;
use crate::resolution::statements_of;
use l6_card::{Cards, read_deck};
use l6_prog::Program;
use std::alloc::Global;

/// The program that a deck of at most 1,048,576 bytes spells, with its labels.
///
/// # Errors
///
/// The deck's fault: the first objection in the order of its cards; else the first card with a
/// label that an earlier card has; else the first card that names a label that no card has. Or
/// out of memory.
pub fn assemble(alloc: Global, deck: &[u8]) -> Result<Assembly, AsmFault>
    requires { length deck.now ≤ most_deck_bytes }
    ensures spells { IfOk result (SpellsJust deck.now) }
    ensures refuses { IfErr result (λ fault. IfSome (assembly_fault fault) (IsUnspelled deck.now)) }
{
    let cards = read_deck(alloc, deck)?;
    assembly_of(alloc, cards)
}

/// The assembly of what cards say.
fn assembly_of(alloc: Global, cards: Cards) -> Result<Assembly, AsmFault>
    requires { AreWithinLimits cards }
    ensures { MakesOrFails result (λ assembly. assembly) (assembled cards) }
{
    let labels = labels_of(alloc, cards.statements())?;
    let statements = statements_of(alloc, &labels, cards.into_statements())?;
    Ok(Assembly::new(Program::from_known(statements), labels))
}
