//! Decks that spell the same program.

ghost use Rattle.std.specs.Prelude.{◌≡◌, true, IfOk, IfSome};
ghost use Rattle.l6_asm.specs.Labels as asm;
ghost use Rattle.l6_asm.specs.Spells.{SpellsJust};
ghost use Rattle.l6_lsp.specs.Renaming as spec;

use l6_asm::{AsmFault, Assembly, Labels, assemble};
use l6_card::MAX_DECK_BYTES;
use l6_group::Label;
use l6_image::words_of;
use l6_rpc::OutOfMemory;
use std::alloc::{AllocError, Global};

/// Whether another deck spells the same program, in which a label has this name. No deck of more than 1,048,576
/// bytes does.
///
/// # Errors
///
/// Memory ran out.
pub(crate) fn is_renamed(
    alloc: Global,
    deck: &[u8],
    other: &[u8],
    label: &Label,
    name: &Label,
) -> Result<bool, OutOfMemory>
    ensures { IfOk result (λ it. it ≡ true
        → spec.IsRenamed deck.now other.now label.now name.now) }
{
    let Some(before) = assembly_in(alloc, deck)? else {
        return Ok(false);
    };
    let Some(after) = assembly_in(alloc, other)? else {
        return Ok(false);
    };
    if !is_relabelled(before.labels(), after.labels(), label, name) {
        return Ok(false);
    }
    let is_same = have_one_program(alloc, &before, &after)?;
    Ok(is_same)
}

/// What a deck spells: nothing where it spells no program, or is too long to be read.
fn assembly_in(alloc: Global, deck: &[u8]) -> Result<Option<Assembly>, OutOfMemory>
    ensures { IfOk result (λ it. IfSome it (SpellsJust deck.now)) }
{
    if deck.len() > MAX_DECK_BYTES {
        return Ok(None);
    }
    match assemble(alloc, deck) {
        Ok(assembly) => Ok(Some(assembly)),
        Err(AsmFault::NoMemory) => Err(OutOfMemory),
        Err(_) => Ok(None),
    }
}

/// Whether a name stands for the statement for which a label stood before, and the label for none.
fn is_relabelled(before: &Labels, after: &Labels, label: &Label, name: &Label) -> bool
    ensures { result ≡ true
        → spec.IsRelabelled before.now.entries after.now.entries label.now name.now }
{
    match (
        number_of(before, label),
        number_of(after, name),
        number_of(after, label),
    ) {
        (Some(number), Some(other), None) => number == other,
        _ => false,
    }
}

/// The number of the statement for which a label stands.
fn number_of(labels: &Labels, label: &Label) -> Option<u16>
    ensures { result ≡ asm.number_of labels.now.entries label.now }
{
    labels.get(label).copied()
}

/// Whether two decks spell one program: their images have the same words then.
fn have_one_program(alloc: Global, one: &Assembly, other: &Assembly) -> Result<bool, AllocError>
    ensures { IfOk result (λ it. it ≡ true → other.now.program ≡ one.now.program) }
{
    let before = words_of(alloc, one.program())?;
    let after = words_of(alloc, other.program())?;
    Ok(before.as_slice() == after.as_slice())
}
