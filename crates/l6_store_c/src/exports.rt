//! The calls for C.

ghost use Rattle.std.specs.Prelude.{ℕ, ◌≡◌, ◌<◌, ◌≤◌, ◌^◌, ◌⊎◌, length, pos, slice_set, IfErr, IfOk, IfSome, IsErrOf, None, Some, ◌↔◌};
ghost use Rattle.std.specs.FinMap as map;
ghost use Rattle.l6_word.specs.Numerals.{largest_level};
ghost use Rattle.l6_store.specs.Blocks.{block_at};
ghost use Rattle.l6_store.specs.Buddy.{IsLargestFree, buddy_rule, first_of, free_words, listed, next_in};
ghost use Rattle.l6_store.specs.Numerals.{most_units};
ghost use Rattle.l6_store.specs.Store.{after_free, after_get, fresh, picked, with_block};
ghost use Rattle.l6_store_c.specs.Answer.{answered, code_of, number_of, place_or_0, version, Holds, IsFault};
ghost use Rattle.l6_store_c.specs.Outcome.{IsLeastLevel, at_level, copy_outcome, free_outcome, live_outcome, read_outcome, write_outcome};

use crate::calls;
use crate::fault::CallFault;
use crate::store::L6Store;
use l6_store::{Buddy, StoreFault, level_for};
use std::alloc::Global;

/// The number that C sees: the value, or the number of the fault.
fn code(outcome: Result<u64, CallFault>) -> i64
    requires { IfOk outcome (λ value. value < 2 ^ 63) }
    ensures { result ≡ number_of outcome }
{
    match outcome {
        Ok(value) => value as i64,
        Err(fault) => fault.code(),
    }
}

/// The number of what a call answers of the store that is held, or that of `Closed`. The handle lends its store where
/// it is: nothing is taken out and put back.
macro_rules! on_open {
    ($store:ident, $call:ident($($number:expr),*)) => {{
        if !$store.is_open() {
            return CallFault::Closed.code();
        }
        let held = $store.handle.lend();
        code(calls::$call(held $(, $number)*))
    }};
}

/// Makes a store of so many units.
fn store_of(alloc: Global, units: u32) -> Result<Box<Buddy>, CallFault>
    ensures fresh { IfOk result (λ made. made.value.store ≡ fresh buddy_rule units) }
    ensures bad_units { IsErrOf result CallFault.BadUnits ↔ ((units < 1) ⊎ (most_units < units)) }
    ensures fault { IfErr result
        (λ fault. (fault ≡ CallFault.BadUnits) ⊎ (fault ≡ CallFault.NoMemory)) }
{
    match Buddy::new(alloc, units) {
        Ok(store) => Box::new(alloc, store).map_err(|_| CallFault::NoMemory),
        Err(StoreFault::BadUnits) => Err(CallFault::BadUnits),
        Err(StoreFault::NoMemory) => Err(CallFault::NoMemory),
    }
}

/// Opens a store of so many units.
#[unsafe(no_mangle)]
pub extern "C" fn l6_store_open(alloc: Global, store: &mut L6Store, units: u32) -> i64
    ensures open { IfSome store.old.handle.held (λ _. result ≡ code_of CallFault.Open) }
    ensures bad_units { store.old.handle.held ≡ None → (units < 1) ⊎ (most_units < units)
        → result ≡ code_of CallFault.BadUnits }
    ensures good_units { store.old.handle.held ≡ None → 1 ≤ units → units ≤ most_units
        → (result ≡ pos 0) ⊎ (result ≡ code_of CallFault.NoMemory) }
    ensures opened { store.old.handle.held ≡ None → result ≡ pos 0
        → Holds store.new.handle.held (fresh buddy_rule units) }
    ensures refused { IsFault result → store.new.handle.held ≡ store.old.handle.held }
{
    if store.is_open() {
        return CallFault::Open.code();
    }
    match store_of(alloc, units) {
        Ok(made) => {
            store.put(made);
            0
        }
        Err(fault) => fault.code(),
    }
}

/// Closes a store, and gives its memory back.
#[unsafe(no_mangle)]
pub extern "C" fn l6_store_close(alloc: Global, store: &mut L6Store) -> i64
    ensures closed { store.old.handle.held ≡ None → result ≡ code_of CallFault.Closed }
    ensures done { IfSome store.old.handle.held (λ _. result ≡ pos 0) }
    ensures after { store.new.handle.held ≡ None }
{
    if store.take(alloc).is_some() {
        0
    } else {
        CallFault::Closed.code()
    }
}

/// Gets a block of a level: its place, or 0 if none is open.
#[unsafe(no_mangle)]
pub extern "C" fn l6_store_get(store: &mut L6Store, level: u32) -> i64
    ensures place { result ≡ answered store.old.handle.held
        (λ old. at_level level (place_or_0 (picked buddy_rule old level))) }
    ensures refused { IsFault result → store.new.handle.held ≡ store.old.handle.held }
    ensures after { IfSome store.old.handle.held (λ old. level ≤ largest_level → Holds store.new.handle.held
        (after_get buddy_rule old.store level (picked buddy_rule old.store level))) }
{
    on_open!(store, get(level))
}

/// The place that a get of a level would give, or 0 if none is open.
#[unsafe(no_mangle)]
pub extern "C" fn l6_store_peek(store: &mut L6Store, level: u32) -> i64
    ensures place { result ≡ answered store.old.handle.held
        (λ old. at_level level (place_or_0 (picked buddy_rule old level))) }
    ensures still { store.new.handle.held ≡ store.old.handle.held }
{
    on_open!(store, peek(level))
}

/// Frees the block that begins at a place.
#[unsafe(no_mangle)]
pub extern "C" fn l6_store_free(store: &mut L6Store, place: u32) -> i64
    ensures outcome { result ≡ answered store.old.handle.held
        (λ old. free_outcome (map.get old.blocks place)) }
    ensures refused { IsFault result → store.new.handle.held ≡ store.old.handle.held }
    ensures freed { IfSome store.old.handle.held (λ old. result ≡ pos 0
        → Holds store.new.handle.held (after_free buddy_rule old.store place)) }
{
    on_open!(store, free(place))
}

/// The level of the block that begins at a place.
#[unsafe(no_mangle)]
pub extern "C" fn l6_store_live(store: &mut L6Store, place: u32) -> i64
    ensures level { result ≡ answered store.old.handle.held
        (λ old. live_outcome old.blocks place) }
    ensures still { store.new.handle.held ≡ store.old.handle.held }
{
    on_open!(store, live(place))
}

/// The word of an index in the block that begins at a place.
#[unsafe(no_mangle)]
pub extern "C" fn l6_store_read(store: &mut L6Store, place: u32, index: u32) -> i64
    ensures word { result ≡ answered store.old.handle.held
        (λ old. read_outcome (map.get old.blocks place) index) }
    ensures still { store.new.handle.held ≡ store.old.handle.held }
{
    on_open!(store, read(place, index))
}

/// Writes a word in the block that begins at a place.
#[unsafe(no_mangle)]
pub extern "C" fn l6_store_write(store: &mut L6Store, place: u32, index: u32, word: u64) -> i64
    ensures outcome { result ≡ answered store.old.handle.held
        (λ old. write_outcome (map.get old.blocks place) index word) }
    ensures refused { IsFault result → store.new.handle.held ≡ store.old.handle.held }
    ensures written { IfSome store.old.handle.held (λ old. result ≡ pos 0
        → Holds store.new.handle.held (with_block old.store place
        (slice_set (block_at old.store.blocks place) index word))) }
{
    on_open!(store, write(place, index, word))
}

/// Copies the words of a block into another of its size.
#[unsafe(no_mangle)]
pub extern "C" fn l6_store_copy(store: &mut L6Store, from: u32, to: u32) -> i64
    ensures outcome { result ≡ answered store.old.handle.held
        (λ old. copy_outcome from (map.get old.blocks from) to (map.get old.blocks to)) }
    ensures refused { IsFault result → store.new.handle.held ≡ store.old.handle.held }
    ensures copied { IfSome store.old.handle.held (λ old. result ≡ pos 0
        → Holds store.new.handle.held (with_block old.store to (block_at old.store.blocks from))) }
{
    on_open!(store, copy(from, to))
}

/// How often the last get halved a piece, or the last free joined two.
#[unsafe(no_mangle)]
pub extern "C" fn l6_store_moves(store: &mut L6Store) -> i64
    ensures moves { result ≡ answered store.old.handle.held (λ old. Ok old.moves) }
    ensures still { store.new.handle.held ≡ store.old.handle.held }
{
    on_open!(store, moves())
}

/// Frees all blocks.
#[unsafe(no_mangle)]
pub extern "C" fn l6_store_reset(store: &mut L6Store) -> i64
    ensures done { result ≡ answered store.old.handle.held (λ _. Ok 0) }
    ensures refused { IsFault result → store.new.handle.held ≡ store.old.handle.held }
    ensures after { IfSome store.old.handle.held
        (λ old. Holds store.new.handle.held (fresh buddy_rule old.store.units)) }
{
    on_open!(store, reset())
}

/// How many units the store has.
#[unsafe(no_mangle)]
pub extern "C" fn l6_store_units(store: &mut L6Store) -> i64
    ensures units { result ≡ answered store.old.handle.held (λ old. Ok old.units) }
    ensures still { store.new.handle.held ≡ store.old.handle.held }
{
    on_open!(store, units())
}

/// The first free piece in the list of a level, or 0.
#[unsafe(no_mangle)]
pub extern "C" fn l6_store_first(store: &mut L6Store, level: u32) -> i64
    ensures place { result ≡ answered store.old.handle.held
        (λ old. at_level level (place_or_0 (first_of (listed old.order level)))) }
    ensures still { store.new.handle.held ≡ store.old.handle.held }
{
    on_open!(store, first(level))
}

/// The free piece after one in the list of a level, or 0 where that is the last, or not in the list.
#[unsafe(no_mangle)]
pub extern "C" fn l6_store_next(store: &mut L6Store, level: u32, place: u32) -> i64
    ensures place { result ≡ answered store.old.handle.held
        (λ old. at_level level (place_or_0 (next_in place (listed old.order level)))) }
    ensures still { store.new.handle.held ≡ store.old.handle.held }
{
    on_open!(store, next(level, place))
}

/// The largest level with a free piece.
#[unsafe(no_mangle)]
pub extern "C" fn l6_store_largest(store: &mut L6Store) -> i64
    ensures closed { store.old.handle.held ≡ None → result ≡ code_of CallFault.Closed }
    ensures still { store.new.handle.held ≡ store.old.handle.held }
    ensures level { IfSome store.old.handle.held (λ old. (level : ℕ)
        → IsLargestFree old.store.order (Some level) → result ≡ pos level) }
    ensures full { IfSome store.old.handle.held (λ old. IsLargestFree old.store.order None
        → result ≡ code_of CallFault.Full) }
{
    on_open!(store, largest())
}

/// How many words are in no block.
#[unsafe(no_mangle)]
pub extern "C" fn l6_store_free_words(store: &mut L6Store) -> i64
    ensures words { result ≡ answered store.old.handle.held (λ old. Ok (free_words old.order)) }
    ensures still { store.new.handle.held ≡ store.old.handle.held }
{
    on_open!(store, free_words())
}

/// How many free pieces a level has.
#[unsafe(no_mangle)]
pub extern "C" fn l6_store_pieces(store: &mut L6Store, level: u32) -> i64
    ensures count { result ≡ answered store.old.handle.held
        (λ old. at_level level (length (listed old.order level))) }
    ensures still { store.new.handle.held ≡ store.old.handle.held }
{
    on_open!(store, pieces(level))
}

/// The version of the calls: 10,000 times the first number, 100 times the second, and the third.
#[unsafe(no_mangle)]
pub extern "C" fn l6_store_version() -> i64
    ensures { result ≡ pos version }
{
    10_100
}

/// The least level whose blocks have at least so many words.
#[unsafe(no_mangle)]
pub extern "C" fn l6_store_level_for(words: u32) -> i64
    ensures level { (level : ℕ) → IsLeastLevel words level → result ≡ pos level }
    ensures none { 2 ^ largest_level < words → result ≡ code_of CallFault.BadLevel }
{
    match level_for(words) {
        Some(level) => i64::from(level),
        None => CallFault::BadLevel.code(),
    }
}
