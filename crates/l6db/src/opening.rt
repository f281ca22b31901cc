//! How a session begins.

ghost use Rattle.std.specs.Prelude.{◌≡◌, ◌≤◌, length, IfOk};
ghost use Rattle.l6_asm.specs.Spells.{SpellsJust};
ghost use Rattle.l6_card.specs.Numerals.{most_deck_bytes};
ghost use Rattle.l6_steps.specs.Numerals.{most_input};
ghost use Rattle.l6db.specs.Opening.{BeginsWith};

use crate::fault::DbFault;
use l6_asm::{AsmFault, Assembly, assemble};
use l6_machine::{Options, machine_under};
use l6_session::{DeckSession, Names};
use l6_store::Buddy;
use std::alloc::Global;

/// A session at the start of the run of the program that a deck spells, with an input. The caller owes
/// a deck and an input that are not too long.
///
/// # Errors
///
/// What is wrong with the deck, or memory ran out.
pub(crate) fn session_of(
    alloc: Global,
    deck: Vec<u8>,
    input: &[u8],
    options: Options,
) -> Result<DeckSession<Buddy>, DbFault>
    requires deck { length deck.items ≤ most_deck_bytes }
    requires input { length input.now ≤ most_input }
    ensures { IfOk result (BeginsWith options deck.items input.now) }
{
    let (program, labels) = assembly_of(alloc, deck.as_slice())?.into_parts();
    let names = Names::new(labels, deck, program.statements().len());
    let machine = machine_under(alloc, program, input, options)?;
    Ok(DeckSession::new(alloc, machine, names)?)
}

/// The program that a deck spells, with its labels.
fn assembly_of(alloc: Global, deck: &[u8]) -> Result<Assembly, DbFault>
    requires { length deck.now ≤ most_deck_bytes }
    ensures { IfOk result (SpellsJust deck.now) }
{
    match assemble(alloc, deck) {
        Ok(assembly) => Ok(assembly),
        Err(AsmFault::NoMemory) => Err(DbFault::NoMemory),
        Err(_) => Err(DbFault::of_deck(alloc, deck)?),
    }
}
