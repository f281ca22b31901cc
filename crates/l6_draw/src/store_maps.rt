//! The map of the store.

ghost use Rattle.std.specs.Prelude.{◌≡◌, ℕ, ◌+◌, ◌≤◌, ◌++◌, false, codes, decimal, length, slice_index_or, IfOk, OnOk};
ghost use Rattle.std.specs.List.{flat_map, sum_by};
ghost use Rattle.std.specs.FinMap as map;
ghost use Rattle.l6_word.specs.Numerals.{unit_size};
ghost use Rattle.l6_store.specs.Blocks as blocks;
ghost use Rattle.l6_draw.specs.Reach.{is_reached};
ghost use Rattle.l6_draw.specs.StoreMap as spec;

use crate::blocks::{places, words_at};
use crate::walk::{is_visited, visited};
use l6_machine::{Machine, push_decimal};
use l6_store::{Place, Places, end_of};
use l6_word::UNIT_SIZE;
use std::alloc::{AllocError, Global};

/// A map of the machine's store: in the order of places a line for each block, with ` LOST` after
/// it if the program can no longer reach it, and a line for each longest run of words that are in
/// no block; and how many words are in blocks and how many are not.
///
/// # Errors
///
/// Memory ran out.
#[tactic(auto, unfolding(crate::specs::StoreMap::store_map))]
pub fn store_map<S: Places>(alloc: Global, machine: &Machine<S>) -> Result<Vec<u8>, AllocError>
    ensures { IfOk result (λ text. text.items
        ≡ spec.store_map machine.now.context.parameters.units machine.now.configuration.state.memory) }
{
    let store = machine.store();
    let places = places(alloc, store)?;
    let visited = visited(alloc, machine, places.len())?;
    let mut text = Vec::new(alloc);
    push_stretches(&mut text, machine, &places, &visited)?;
    let used = used_in(store, &places);
    push_sums(
        &mut text,
        used,
        end_of(store.units()) - Place::from(UNIT_SIZE) - used,
    )?;
    Ok(text)
}

/// Adds the lines of the blocks and of the free words between them. The caller owes the places of all
/// blocks, and for each place whether it is reached.
fn push_stretches<S: Places>(
    text: &mut Vec<u8>,
    machine: &Machine<S>,
    places: &[Place],
    visited: &[bool],
) -> Result<(), AllocError>
    requires places { places.now ≡ map.keys machine.now.configuration.state.memory.blocks }
    requires visited { (place : ℕ) → slice_index_or visited.now place false
        ≡ is_reached machine.now.configuration.state.memory place }
    ensures { let units = machine.now.context.parameters.units in
        let memory = machine.now.configuration.state.memory in
        OnOk result (text.new.items ≡ text.old.items
        ++ flat_map (spec.line_of memory)
        (spec.stretches_from memory unit_size (blocks.end_of units) places.now)) }
{
    let store = machine.store();
    let end = end_of(store.units());
    let mut from = Place::from(UNIT_SIZE);
    for place in places {
        push_free(text, from, place.saturating_sub(from))?;
        let size = words_at(store, *place).len() as Place;
        push_block(text, *place, size, is_visited(visited, *place))?;
        from = *place + size;
    }
    push_free(text, from, end.saturating_sub(from))
}

/// How many words lie in the blocks of a store. The caller owes the places of all of them.
fn used_in<S: Places>(store: &S, places: &[Place]) -> Place
    requires { places.now ≡ map.keys (S.store store.now).blocks }
    ensures value { result ≡ sum_by (λ place. length (blocks.block_at (S.store store.now).blocks place))
        places.now }
    ensures within { result + unit_size ≤ blocks.end_of (S.store store.now).units }
{
    // a look at the store, by which its blocks are known to fit
    let _units = store.units();
    let mut used = 0;
    for place in places {
        used += words_at(store, *place).len() as Place;
    }
    used
}

/// Adds the line of so many free words from a place on, if there are any.
fn push_free(text: &mut Vec<u8>, from: Place, size: Place) -> Result<(), AllocError>
    ensures { OnOk result (text.new.items ≡ text.old.items ++ spec.free_line from size) }
{
    if 0 < size {
        push_decimal(text, from)?;
        text.extend_from_slice(b" FREE ")?;
        push_decimal(text, size)?;
        text.extend_from_slice(b"\n")?;
    }
    Ok(())
}

/// Adds the line of a block of so many words.
fn push_block(
    text: &mut Vec<u8>,
    place: Place,
    size: Place,
    reached: bool,
) -> Result<(), AllocError>
    ensures { OnOk result (text.new.items ≡ text.old.items ++ spec.block_line place size reached) }
{
    push_decimal(text, place)?;
    text.extend_from_slice(b" BLOCK ")?;
    push_decimal(text, size)?;
    if !reached {
        text.extend_from_slice(b" LOST")?;
    }
    text.extend_from_slice(b"\n")
}

/// Adds the last line: how many words lie in blocks, and how many are free.
fn push_sums(text: &mut Vec<u8>, used: Place, free: Place) -> Result<(), AllocError>
    ensures { OnOk result (text.new.items ≡ text.old.items ++ decimal used ++ codes " WORDS USED "
        ++ decimal free ++ codes " FREE\n") }
{
    push_decimal(text, used)?;
    text.extend_from_slice(b" WORDS USED ")?;
    push_decimal(text, free)?;
    text.extend_from_slice(b" FREE\n")
}
