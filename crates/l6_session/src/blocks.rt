//! Blocks and links, in words.

ghost use Rattle.std.specs.Prelude.{◌≡◌, ◌++◌, OnOk, Some};
ghost use Rattle.std.specs.List.{enumerate_from, flat_map};
ghost use Rattle.l6_prog.specs.Numerals.{first_letter};
ghost use Rattle.l6_store.specs.Blocks.{block_at};
ghost use Rattle.l6_draw.specs.Reach as reach;
ghost use Rattle.l6_session.specs.Blocks as spec;

use crate::text::push_name;
use crate::values::push_chain_value;
use l6_debug::{Command as Batch, push_answer};
use l6_draw::reachable;
use l6_machine::{Machine, push_decimal};
use l6_prog::{DIGITS, Operand};
use l6_store::{Place, Places};
use l6_word::{UNIT_SIZE, Window, Word};
use std::alloc::{AllocError, Global};

/// Adds the words of the block to which an operand leads, and what its fields show.
pub(crate) fn push_block<S: Places>(
    alloc: Global,
    text: &mut Vec<u8>,
    machine: &Machine<S>,
    operand: &Operand,
) -> Result<(), AllocError>
    ensures { OnOk result (text.new.items ≡ text.old.items
        ++ spec.operand_block_text machine.now.configuration.state.memory operand.now) }
{
    match operand {
        Operand::Number(word) => push_block_at(alloc, text, machine, *word),
        Operand::Chain(chain) => match machine.value(chain) {
            Ok(word) => push_block_at(alloc, text, machine, word),
            Err(_) => push_chain_value(text, machine, chain),
        },
    }
}

/// Adds the words of the block at a place, and what its fields show.
fn push_block_at<S: Places>(
    alloc: Global,
    text: &mut Vec<u8>,
    machine: &Machine<S>,
    place: Word,
) -> Result<(), AllocError>
    ensures { OnOk result (text.new.items ≡ text.old.items
        ++ spec.block_text machine.now.configuration.state.memory place) }
{
    push_answer(alloc, text, machine, Batch::Block(place.get()))?;
    push_fields(text, machine, place)
}

/// Adds what the fields that are defined show of the block at a place.
fn push_fields<S: Places>(
    text: &mut Vec<u8>,
    machine: &Machine<S>,
    place: Word,
) -> Result<(), AllocError>
    ensures { OnOk result (text.new.items ≡ text.old.items
        ++ spec.fields_text machine.now.configuration.state.memory place) }
{
    let mut name: u8 = 0;
    let mut rest = machine.definitions();
    while let Some((definition, following)) = rest.split_first() {
        if let Some(shown) = held_by(machine, place, *definition) {
            push_shown(text, machine, name, shown)?;
        }
        name += 1;
        rest = following;
    }
    Ok(())
}

/// What a field holds in the block at a place, if it is defined and the block has its word.
fn held_by<S: Places>(machine: &Machine<S>, place: Word, definition: Option<Window>) -> Option<Word>
    ensures { result ≡ reach.held_by (block_at machine.now.configuration.state.memory.blocks place) definition }
{
    let window = definition?;
    let word = machine.store().word(place, window.word())?;
    Some(window.take(word))
}

/// Adds what a field of a block shows.
fn push_shown<S: Places>(
    text: &mut Vec<u8>,
    machine: &Machine<S>,
    name: u8,
    shown: Word,
) -> Result<(), AllocError>
    ensures { OnOk result (text.new.items ≡ text.old.items
        ++ spec.shown_line machine.now.configuration.state.memory.blocks name (Some shown)) }
{
    text.extend_from_slice(b"  ")?;
    push_name(text, name)?;
    text.extend_from_slice(b" = ")?;
    push_decimal(text, shown.get())?;
    push_arrow(text, machine, shown)?;
    text.extend_from_slice(b"\n")
}

/// Adds that a number leads to a block, if it does.
fn push_arrow<S: Places>(
    text: &mut Vec<u8>,
    machine: &Machine<S>,
    shown: Word,
) -> Result<(), AllocError>
    ensures { OnOk result (text.new.items ≡ text.old.items
        ++ spec.link_text machine.now.configuration.state.memory.blocks shown) }
{
    if machine.store().live(shown).is_some() {
        return text.extend_from_slice(b" -> BLOCK");
    }
    Ok(())
}

/// Adds the drawing of what is reached, and the links that lead to no block: numbers that bugs and
/// fields hold which are places of the store, but of no block.
pub(crate) fn push_drawing<S: Places>(
    alloc: Global,
    text: &mut Vec<u8>,
    machine: &Machine<S>,
) -> Result<(), AllocError>
    ensures { OnOk result (text.new.items ≡ text.old.items ++ spec.draw_text
        machine.now.context.parameters.units machine.now.configuration.state.memory) }
{
    push_answer(alloc, text, machine, Batch::Draw)?;
    push_bugs(text, machine)?;
    let places = reachable(alloc, machine)?;
    push_places(text, machine, places.as_slice())
}

/// Adds the lines of the bugs that lead to no block.
fn push_bugs<S: Places>(text: &mut Vec<u8>, machine: &Machine<S>) -> Result<(), AllocError>
    ensures { OnOk result (text.new.items ≡ text.old.items ++ flat_map
        (spec.bug_line machine.now.context.parameters.units
        machine.now.configuration.state.memory.blocks)
        (enumerate_from first_letter machine.now.configuration.state.memory.bugs)) }
{
    let mut name: u8 = DIGITS;
    let mut rest = machine.bugs();
    while let Some((word, following)) = rest.split_first() {
        if is_dangling(machine, *word) {
            push_name(text, name)?;
            push_no_block(text, *word)?;
        }
        name += 1;
        rest = following;
    }
    Ok(())
}

/// Adds the lines of the fields that lead to no block, of the blocks at these places.
fn push_places<S: Places>(
    text: &mut Vec<u8>,
    machine: &Machine<S>,
    places: &[Place],
) -> Result<(), AllocError>
    ensures { OnOk result (text.new.items ≡ text.old.items ++ flat_map (spec.dangling_lines
        machine.now.context.parameters.units machine.now.configuration.state.memory) places.now) }
{
    let mut rest = places;
    while let Some((place, following)) = rest.split_first() {
        push_links(text, machine, Word::from(*place))?;
        rest = following;
    }
    Ok(())
}

/// Adds the lines of the fields that lead to no block, of the block at a place.
fn push_links<S: Places>(
    text: &mut Vec<u8>,
    machine: &Machine<S>,
    place: Word,
) -> Result<(), AllocError>
    ensures { OnOk result (text.new.items ≡ text.old.items ++ spec.dangling_lines
        machine.now.context.parameters.units machine.now.configuration.state.memory place) }
{
    let mut name: u8 = 0;
    let mut rest = machine.definitions();
    while let Some((definition, following)) = rest.split_first() {
        if let Some(shown) = held_by(machine, place, *definition) {
            push_link(text, machine, place, name, shown)?;
        }
        name += 1;
        rest = following;
    }
    Ok(())
}

/// Adds the line of a field of the block at a place, if it leads to no block.
fn push_link<S: Places>(
    text: &mut Vec<u8>,
    machine: &Machine<S>,
    place: Word,
    name: u8,
    shown: Word,
) -> Result<(), AllocError>
    ensures { OnOk result (text.new.items ≡ text.old.items ++ spec.held_line
        machine.now.context.parameters.units machine.now.configuration.state.memory.blocks
        place name (Some shown)) }
{
    if !is_dangling(machine, shown) {
        return Ok(());
    }
    push_decimal(text, place.get())?;
    text.extend_from_slice(b" ")?;
    push_name(text, name)?;
    push_no_block(text, shown)
}

/// Whether a number is a place of the store at which no block begins.
fn is_dangling<S: Places>(machine: &Machine<S>, word: Word) -> bool
    ensures { result ≡ spec.is_dangling machine.now.context.parameters.units
        machine.now.configuration.state.memory.blocks word }
{
    let store = machine.store();
    let end = (u64::from(store.units()) + 1) * u64::from(UNIT_SIZE);
    u64::from(UNIT_SIZE) <= word.get() && word.get() < end && store.live(word).is_none()
}

/// Adds that a link leads to no block.
fn push_no_block(text: &mut Vec<u8>, word: Word) -> Result<(), AllocError>
    ensures { OnOk result (text.new.items ≡ text.old.items ++ spec.no_block_line word) }
{
    text.extend_from_slice(b" -> ")?;
    push_decimal(text, word.get())?;
    text.extend_from_slice(b" NO BLOCK\n")
}
