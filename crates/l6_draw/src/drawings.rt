//! The drawing of what is reached.

ghost use Rattle.std.specs.Prelude.{◌≡◌, ◌<◌, ◌^◌, ◌++◌, IfOk, OnOk};
ghost use Rattle.std.specs.List.{All, enumerate_from, flat_map};
ghost use Rattle.l6_word.specs.Numerals.{word_bits};
ghost use Rattle.l6_prog.specs.Numerals.{name_count};
ghost use Rattle.l6_draw.specs.Drawing as spec;
ghost use Rattle.l6_draw.specs.Reach.{letters};

use crate::blocks::{bug, held_by, words_at};
use crate::line::character_of;
use crate::reach::reachable;
use l6_machine::{Machine, push_decimal};
use l6_prog::{DIGITS, NAMES};
use l6_store::{Place, Places};
use l6_word::Word;
use std::alloc::{AllocError, Global};

/// A drawing of the blocks that the machine's program can still reach: a line for each bug that
/// holds the place of a block; each of those blocks, places rising, with its size and a line for
/// each field in it that holds the place of a block; and how many blocks these are.
///
/// # Errors
///
/// Memory ran out.
#[tactic(auto, unfolding(crate::specs::Drawing::drawing))]
pub fn drawing<S: Places>(alloc: Global, machine: &Machine<S>) -> Result<Vec<u8>, AllocError>
    ensures { IfOk result (λ text. text.items ≡ spec.drawing machine.now.configuration.state.memory) }
{
    let places = reachable(alloc, machine)?;
    let mut text = Vec::new(alloc);
    push_bugs(&mut text, machine)?;
    push_blocks(&mut text, machine, &places)?;
    push_decimal(&mut text, places.len())?;
    text.extend_from_slice(b" BLOCKS\n")?;
    Ok(text)
}

/// Adds the lines of the bugs.
fn push_bugs<S: Places>(text: &mut Vec<u8>, machine: &Machine<S>) -> Result<(), AllocError>
    ensures { OnOk result (text.new.items ≡ text.old.items
        ++ flat_map (spec.bug_line machine.now.configuration.state.memory) letters) }
{
    for letter in DIGITS..NAMES {
        push_arrow(text, machine, b"", letter, bug(machine, letter))?;
    }
    Ok(())
}

/// Adds the lines of blocks.
fn push_blocks<S: Places>(
    text: &mut Vec<u8>,
    machine: &Machine<S>,
    places: &[Place],
) -> Result<(), AllocError>
    ensures { OnOk result (text.new.items ≡ text.old.items
        ++ flat_map (spec.block_lines machine.now.configuration.state.memory) places.now) }
{
    for place in places {
        push_block(text, machine, *place)?;
    }
    Ok(())
}

/// Adds the lines of the block at a place.
fn push_block<S: Places>(
    text: &mut Vec<u8>,
    machine: &Machine<S>,
    place: Place,
) -> Result<(), AllocError>
    ensures { OnOk result (text.new.items
        ≡ text.old.items ++ spec.block_lines machine.now.configuration.state.memory place) }
{
    let words = words_at(machine.store(), place);
    text.extend_from_slice(b"BLOCK ")?;
    push_decimal(text, place)?;
    text.extend_from_slice(b" SIZE ")?;
    push_decimal(text, words.len())?;
    text.extend_from_slice(b"\n")?;
    push_fields(text, machine, words)
}

/// Adds the lines of the fields in a block of these words.
fn push_fields<S: Places>(
    text: &mut Vec<u8>,
    machine: &Machine<S>,
    words: &[u64],
) -> Result<(), AllocError>
    requires { All (λ word. word < 2 ^ word_bits) words.now }
    ensures { let memory = machine.now.configuration.state.memory in
        OnOk result (text.new.items ≡ text.old.items
        ++ flat_map (spec.field_line memory words.now) (enumerate_from 0 memory.definitions)) }
{
    for (name, field) in machine.definitions().iter().enumerate() {
        if let Some(number) = held_by(words, *field) {
            push_arrow(text, machine, b"  ", name as u8, number)?;
        }
    }
    Ok(())
}

/// Adds the line of an arrow from the name of this number to a number, after some blanks, if a block
/// begins there.
fn push_arrow<S: Places>(
    text: &mut Vec<u8>,
    machine: &Machine<S>,
    margin: &[u8],
    name: u8,
    number: Word,
) -> Result<(), AllocError>
    requires { name < name_count }
    ensures { OnOk result (text.new.items ≡ text.old.items
        ++ spec.arrow machine.now.configuration.state.memory margin.now name number) }
{
    if machine.store().live(number).is_some() {
        text.extend_from_slice(margin)?;
        text.push(character_of(name))?;
        text.extend_from_slice(b" -> ")?;
        push_decimal(text, number.get())?;
        text.extend_from_slice(b"\n")?;
    }
    Ok(())
}
