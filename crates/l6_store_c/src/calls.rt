//! What each call does with an open store. A place of 0 is no place.

ghost use Rattle.std.specs.Prelude.{ℕ, ◌≡◌, ◌+◌, length, slice_set, Some, ◌<◌, ◌≤◌, ◌^◌, Ok, Err, OnOk, OnErr, IfOk, None};
ghost use Rattle.std.specs.FinMap as map;
ghost use Rattle.l6_word.specs.Numerals.{largest_level, word_bits};
ghost use Rattle.l6_store.specs.Blocks.{block_at};
ghost use Rattle.l6_store.specs.Buddy.{IsLargestFree, buddy_rule, first_of, free_words, listed, next_in};
ghost use Rattle.l6_store.specs.Numerals.{most_units};
ghost use Rattle.l6_store.specs.Store.{after_free, after_get, fresh, picked, with_block};
ghost use Rattle.l6_store_c.specs.Answer.{place_or_0};
ghost use Rattle.l6_store_c.specs.Outcome.{at_level, copy_outcome, free_outcome, live_outcome, read_outcome, write_outcome};

use crate::fault::CallFault;
use l6_store::{Buddy, Level, Places};
use l6_word::{LARGEST_LEVEL, Word};

/// A level that was given as a number.
fn level_of(level: u32) -> Result<Level, CallFault>
    ensures level { result ≡ at_level level level }
    ensures small { OnOk result (level ≤ largest_level) }
{
    if level > u32::from(LARGEST_LEVEL) {
        return Err(CallFault::BadLevel);
    }
    Ok(level as Level)
}

/// Gets a block of a level.
pub(crate) fn get(store: &mut Buddy, level: u32) -> Result<u64, CallFault>
    ensures place { result ≡ at_level level (place_or_0 (picked buddy_rule store.old.store level)) }
    ensures after { OnOk result (store.new.store
        ≡ after_get buddy_rule store.old.store level (picked buddy_rule store.old.store level)) }
    ensures same { OnErr result (store.new ≡ store.old) }
    ensures range { IfOk result (λ place. place < 2 ^ 32) }
{
    if level > u32::from(LARGEST_LEVEL) {
        return Err(CallFault::BadLevel);
    }
    match store.get(level as Level) {
        Some(place) => Ok(u64::from(place)),
        None => Ok(0),
    }
}

/// The place that a get of a level would give.
pub(crate) fn peek(store: &Buddy, level: u32) -> Result<u64, CallFault>
    ensures range { IfOk result (λ place. place < 2 ^ 32) }
    ensures place { result ≡ at_level level (place_or_0 (picked buddy_rule store.now.store level)) }
{
    let level = level_of(level)?;
    match store.peek(level) {
        Some(place) => Ok(u64::from(place)),
        None => Ok(0),
    }
}

/// The level of the block that begins at a place.
pub(crate) fn live(store: &Buddy, place: u32) -> Result<u64, CallFault>
    ensures level { result ≡ live_outcome store.now.store.blocks place }
    ensures range { IfOk result (λ level. level ≤ largest_level) }
{
    match store.live(Word::from(place)) {
        Some(level) => Ok(u64::from(level)),
        None => Err(CallFault::NoBlock),
    }
}

/// Frees the block that begins at a place.
pub(crate) fn free(store: &mut Buddy, place: u32) -> Result<u64, CallFault>
    ensures outcome { result ≡ free_outcome (map.get store.old.store.blocks place) }
    ensures range { IfOk result (λ value. value ≡ 0) }
    ensures after { OnOk result (store.new.store ≡ after_free buddy_rule store.old.store place) }
    ensures same { OnErr result (store.new ≡ store.old) }
{
    if store.try_free(place) {
        Ok(0)
    } else {
        Err(CallFault::NoBlock)
    }
}

/// The word of an index in the block that begins at a place.
pub(crate) fn read(store: &Buddy, place: u32, index: u32) -> Result<u64, CallFault>
    ensures word { result ≡ read_outcome (map.get store.now.store.blocks place) index }
    ensures range { IfOk result (λ word. word < 2 ^ word_bits) }
{
    if store.live(Word::from(place)).is_none() {
        return Err(CallFault::NoBlock);
    }
    if index > u32::from(u16::MAX) {
        return Err(CallFault::NoWord);
    }
    match store.word(Word::from(place), index as u16) {
        Some(word) => Ok(word.get()),
        None => Err(CallFault::NoWord),
    }
}

/// Writes the word of an index in the block that begins at a place.
pub(crate) fn write(store: &mut Buddy, place: u32, index: u32, value: u64) -> Result<u64, CallFault>
    ensures outcome { result
        ≡ write_outcome (map.get store.old.store.blocks place) index value }
    ensures range { IfOk result (λ value. value ≡ 0) }
    ensures after { OnOk result (store.new.store ≡ with_block store.old.store place
        (slice_set (block_at store.old.store.blocks place) index value)) }
    ensures same { OnErr result (store.new ≡ store.old) }
{
    if store.live(Word::from(place)).is_none() {
        return Err(CallFault::NoBlock);
    }
    if index > u32::from(u16::MAX) {
        return Err(CallFault::NoWord);
    }
    if store.word(Word::from(place), index as u16).is_none() {
        return Err(CallFault::NoWord);
    }
    let Some(word) = Word::new(value) else {
        return Err(CallFault::BadWord);
    };
    store.write(place + index, word);
    Ok(0)
}

/// Copies the words of a block into another of its size.
pub(crate) fn copy(store: &mut Buddy, from: u32, to: u32) -> Result<u64, CallFault>
    ensures outcome { result ≡ copy_outcome from (map.get store.old.store.blocks from)
        to (map.get store.old.store.blocks to) }
    ensures range { IfOk result (λ value. value ≡ 0) }
    ensures after { OnOk result (store.new.store
        ≡ with_block store.old.store to (block_at store.old.store.blocks from)) }
    ensures same { OnErr result (store.new ≡ store.old) }
{
    let Some(level) = store.live(Word::from(from)) else {
        return Err(CallFault::NoBlock);
    };
    let Some(other) = store.live(Word::from(to)) else {
        return Err(CallFault::NoBlock);
    };
    if from == to || level != other {
        return Err(CallFault::NotAlike);
    }
    store.copy(from, to);
    Ok(0)
}

/// The first free piece in the list of a level, or 0.
pub(crate) fn first(store: &Buddy, level: u32) -> Result<u64, CallFault>
    ensures place { result
        ≡ at_level level (place_or_0 (first_of (listed store.now.store.order level))) }
    ensures range { IfOk result (λ place. place < 2 ^ 32) }
{
    match store.first_free(level_of(level)?) {
        Some(place) => Ok(u64::from(place)),
        None => Ok(0),
    }
}

/// The free piece after one in the list of a level, or 0 where that is the last, or not in the list.
pub(crate) fn next(store: &Buddy, level: u32, place: u32) -> Result<u64, CallFault>
    ensures place { result
        ≡ at_level level (place_or_0 (next_in place (listed store.now.store.order level))) }
    ensures range { IfOk result (λ place. place < 2 ^ 32) }
{
    match store.next_free(level_of(level)?, place) {
        Some(next) => Ok(u64::from(next)),
        None => Ok(0),
    }
}

/// How many free pieces a level has.
pub(crate) fn pieces(store: &Buddy, level: u32) -> Result<u64, CallFault>
    ensures count { result ≡ at_level level (length (listed store.now.store.order level)) }
    ensures range { IfOk result (λ count. count < 2 ^ 32) }
{
    Ok(u64::from(store.pieces(level_of(level)?)))
}

/// The largest level with a free piece.
pub(crate) fn largest(store: &Buddy) -> Result<u64, CallFault>
    ensures level { (level : ℕ) → IsLargestFree store.now.store.order (Some level)
        → result ≡ Ok level }
    ensures full { IsLargestFree store.now.store.order None → result ≡ Err CallFault.Full }
    ensures range { IfOk result (λ level. level ≤ largest_level) }
{
    match store.largest_free_level() {
        Some(level) => Ok(u64::from(level)),
        None => Err(CallFault::Full),
    }
}

/// How often the last get halved a piece, or the last free joined two.
pub(crate) fn moves(store: &Buddy) -> Result<u64, CallFault>
    ensures value { result ≡ Ok store.now.store.moves }
    ensures few { store.now.store.moves ≤ largest_level }
{
    Ok(u64::from(store.moves()))
}

/// Frees all blocks.
pub(crate) fn reset(store: &mut Buddy) -> Result<u64, CallFault>
    ensures done { result ≡ Ok 0 }
    ensures after { store.new.store ≡ fresh buddy_rule store.old.store.units }
{
    store.reset();
    Ok(0)
}

/// How many units there are.
pub(crate) fn units(store: &Buddy) -> Result<u64, CallFault>
    ensures value { result ≡ Ok store.now.store.units }
    ensures few { store.now.store.units ≤ most_units }
{
    Ok(u64::from(store.units()))
}

/// How many words are in no block.
pub(crate) fn free_words(store: &Buddy) -> Result<u64, CallFault>
    ensures words { result ≡ Ok (free_words store.now.store.order) }
    ensures range { IfOk result (λ words. words < 2 ^ 32) }
{
    Ok(u64::from(store.free_words()))
}
