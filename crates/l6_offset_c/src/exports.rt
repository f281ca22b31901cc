//! The calls for C.

ghost use Rattle.std.specs.Prelude.{ℕ, ◌≡◌, ◌<◌, ◌≤◌, ◌^◌, ◌⊎◌, pos, IfErr, IfNone, IfOk, IfSome, IsErrOf, None, Some, Ok, ◌↔◌};
ghost use Rattle.l6_places.specs.Board.{emptied, fresh, released, taken};
ghost use Rattle.l6_places.specs.Numerals.{largest_top};
ghost use Rattle.l6_offset_c.specs.Answer.{code_of, number_of, version, IsAnswered, IsFault};
ghost use Rattle.l6_offset_c.specs.Outcome.{IsFound, IsFreePlaces, IsFreed, IsLargestLevel, IsLeastLevel, IsLevel, IsMost, IsNext, IsPiece, IsReserved};

use crate::calls;
use crate::fault::CallFault;
use crate::handle::Handle;
use crate::loose::Loose;
use crate::store::L6Offset;
use l6_places::{Board, BoardFault, Level, MAX_TOP};
use std::alloc::Global;

/// The number that C sees: the value, or the number of the fault.
fn code(outcome: Result<u64, CallFault>) -> i64
    requires { IfOk outcome (λ value. value < 2 ^ 63) }
    ensures { result ≡ number_of outcome }
{
    match outcome {
        Ok(value) => value as i64,
        Err(fault) => fault.code(),
    }
}

/// The number of what a call answers of the board that is held, or that of `Closed`. The handle alone is taken out and put
/// back: the struct is open all the time.
macro_rules! on_open {
    ($store:ident, $alloc:ident, $call:ident($($number:expr),*)) => {{
        if !$store.is_open() {
            return CallFault::Closed.code();
        }
        let handle = std::mem::replace(&mut $store.handle, Handle::none());
        let mut held = handle.into_loose($alloc).into_box();
        let outcome = calls::$call(&mut held $(, $number)*);
        $store.handle = Handle::of(Loose::of(held));
        code(outcome)
    }};
}

/// Makes a board.
fn board_of(alloc: Global, top: u32, first: u32, end: u32) -> Result<Box<Board>, CallFault>
    ensures fresh { IfOk result (λ made. made.value ≡ fresh top first end) }
    ensures bad { IsErrOf result CallFault.BadPlaces
        ↔ ((largest_top < top) ⊎ (end < first) ⊎ (2 ^ top < end)) }
    ensures fault { IfErr result
        (λ fault. (fault ≡ CallFault.BadPlaces) ⊎ (fault ≡ CallFault.NoMemory)) }
{
    if u32::from(MAX_TOP) < top {
        return Err(CallFault::BadPlaces);
    }
    match Board::new(alloc, top as u8, first, end) {
        Ok(board) => Box::new(alloc, board).map_err(|_| CallFault::NoMemory),
        Err(BoardFault::BadPlaces) => Err(CallFault::BadPlaces),
        Err(BoardFault::NoMemory) => Err(CallFault::NoMemory),
    }
}

/// Opens a store whose places from the first one up to the end are given out, with blocks of at most 2^top of them.
#[unsafe(no_mangle)]
pub extern "C" fn l6_offset_open(
    alloc: Global,
    store: &mut L6Offset,
    top: u32,
    first: u32,
    end: u32,
) -> i64
    ensures open { IfSome store.old.handle.held (λ _. result ≡ code_of CallFault.Open) }
    ensures bad { store.old.handle.held ≡ None
        → (largest_top < top) ⊎ (end < first) ⊎ (2 ^ top < end) → result ≡ code_of CallFault.BadPlaces }
    ensures good { store.old.handle.held ≡ None → top ≤ largest_top → first ≤ end → end ≤ 2 ^ top
        → (result ≡ pos 0) ⊎ (result ≡ code_of CallFault.NoMemory) }
    ensures opened { store.old.handle.held ≡ None → result ≡ pos 0
        → store.new.handle.held ≡ Some (fresh top first end) }
    ensures refused { IsFault result → store.new.handle.held ≡ store.old.handle.held }
{
    if store.is_open() {
        return CallFault::Open.code();
    }
    match board_of(alloc, top, first, end) {
        Ok(made) => {
            store.put(made);
            0
        }
        Err(fault) => fault.code(),
    }
}

/// Closes a store, and gives its memory back.
#[unsafe(no_mangle)]
pub extern "C" fn l6_offset_close(alloc: Global, store: &mut L6Offset) -> i64
    ensures closed { store.old.handle.held ≡ None → result ≡ code_of CallFault.Closed }
    ensures done { IfSome store.old.handle.held (λ _. result ≡ pos 0) }
    ensures after { store.new.handle.held ≡ None }
{
    if store.take(alloc).is_some() {
        0
    } else {
        CallFault::Closed.code()
    }
}

/// Gets a block of a level, at the lowest open place.
#[unsafe(no_mangle)]
pub extern "C" fn l6_offset_get(alloc: Global, store: &mut L6Offset, level: u32) -> i64
    ensures place { IsAnswered store.old.handle.held (λ old. λ outcome. IsFound old level outcome) result }
    ensures after { IfSome store.old.handle.held (λ old. (place : ℕ) → result ≡ pos place
        → store.new.handle.held ≡ Some (taken old level place)) }
    ensures refused { IsFault result → store.new.handle.held ≡ store.old.handle.held }
{
    on_open!(store, alloc, get(level))
}

/// The lowest open place of a level, which a get would give.
#[unsafe(no_mangle)]
pub extern "C" fn l6_offset_find(alloc: Global, store: &mut L6Offset, level: u32) -> i64
    ensures place { IsAnswered store.old.handle.held (λ old. λ outcome. IsFound old level outcome) result }
    ensures still { store.new.handle.held ≡ store.old.handle.held }
{
    on_open!(store, alloc, find(level))
}

/// Puts a block of a level at a place, if it is open.
#[unsafe(no_mangle)]
pub extern "C" fn l6_offset_reserve(
    alloc: Global,
    store: &mut L6Offset,
    level: u32,
    place: u32,
) -> i64
    ensures outcome { IsAnswered store.old.handle.held (λ old. λ outcome. IsReserved old level place outcome) result }
    ensures after { IfSome store.old.handle.held (λ old. result ≡ pos 0
        → store.new.handle.held ≡ Some (taken old level place)) }
    ensures refused { IsFault result → store.new.handle.held ≡ store.old.handle.held }
{
    on_open!(store, alloc, reserve(level, place))
}

/// Frees the block that begins at a place.
#[unsafe(no_mangle)]
pub extern "C" fn l6_offset_free(alloc: Global, store: &mut L6Offset, place: u32) -> i64
    ensures outcome { IsAnswered store.old.handle.held (IsFreed place) result }
    ensures after { IfSome store.old.handle.held (λ old. result ≡ pos 0
        → store.new.handle.held ≡ Some (released old place)) }
    ensures refused { IsFault result → store.new.handle.held ≡ store.old.handle.held }
{
    on_open!(store, alloc, free(place))
}

/// The level of the block that begins at a place.
#[unsafe(no_mangle)]
pub extern "C" fn l6_offset_level(alloc: Global, store: &mut L6Offset, place: u32) -> i64
    ensures level { IsAnswered store.old.handle.held (IsLevel place) result }
    ensures still { store.new.handle.held ≡ store.old.handle.held }
{
    on_open!(store, alloc, level(place))
}

/// The first place from one on at which a block begins.
#[unsafe(no_mangle)]
pub extern "C" fn l6_offset_next(alloc: Global, store: &mut L6Offset, from: u32) -> i64
    ensures place { IsAnswered store.old.handle.held (IsNext from) result }
    ensures still { store.new.handle.held ≡ store.old.handle.held }
{
    on_open!(store, alloc, next(from))
}

/// The level of the largest open piece.
#[unsafe(no_mangle)]
pub extern "C" fn l6_offset_largest(alloc: Global, store: &mut L6Offset) -> i64
    ensures level { IsAnswered store.old.handle.held IsLargestLevel result }
    ensures still { store.new.handle.held ≡ store.old.handle.held }
{
    on_open!(store, alloc, largest())
}

/// How many places lie in no block.
#[unsafe(no_mangle)]
pub extern "C" fn l6_offset_free_places(alloc: Global, store: &mut L6Offset) -> i64
    ensures places { IsAnswered store.old.handle.held IsFreePlaces result }
    ensures still { store.new.handle.held ≡ store.old.handle.held }
{
    on_open!(store, alloc, free_places())
}

/// The most places that blocks had at once, since the store was opened or reset.
#[unsafe(no_mangle)]
pub extern "C" fn l6_offset_most(alloc: Global, store: &mut L6Offset) -> i64
    ensures places { IsAnswered store.old.handle.held IsMost result }
    ensures still { store.new.handle.held ≡ store.old.handle.held }
{
    on_open!(store, alloc, most())
}

/// The level of the largest open piece that has a place.
#[unsafe(no_mangle)]
pub extern "C" fn l6_offset_piece(alloc: Global, store: &mut L6Offset, place: u32) -> i64
    ensures level { IsAnswered store.old.handle.held (IsPiece place) result }
    ensures still { store.new.handle.held ≡ store.old.handle.held }
{
    on_open!(store, alloc, piece(place))
}

/// Frees all blocks.
#[unsafe(no_mangle)]
pub extern "C" fn l6_offset_reset(alloc: Global, store: &mut L6Offset) -> i64
    ensures done { IsAnswered store.old.handle.held (λ _. λ outcome. outcome ≡ Ok 0) result }
    ensures after { IfSome store.old.handle.held (λ old. store.new.handle.held ≡ Some (emptied old)) }
{
    on_open!(store, alloc, reset())
}

/// The version of the calls: 10,000 times the first number, 100 times the second, and the third.
#[unsafe(no_mangle)]
pub extern "C" fn l6_offset_version() -> i64
    ensures { result ≡ pos version }
{
    10_100
}

/// The least level whose blocks have at least so many places.
#[unsafe(no_mangle)]
pub extern "C" fn l6_offset_level_for(places: u32) -> i64
    ensures level { (level : ℕ) → IsLeastLevel places level → result ≡ pos level }
    ensures none { 2 ^ largest_top < places → result ≡ code_of CallFault.BadLevel }
{
    match least_level(places) {
        Some(level) => i64::from(level),
        None => CallFault::BadLevel.code(),
    }
}

/// The least level whose blocks have at least so many places.
fn least_level(places: u32) -> Option<Level>
    ensures small { IfSome result (λ level. level ≤ largest_top) }
    ensures enough { IfSome result (λ level. places ≤ 2 ^ level) }
    ensures least { IfSome result (λ level. (lower : ℕ) → lower < level → 2 ^ lower < places) }
    ensures none { IfNone result (2 ^ largest_top < places) }
{
    for level in 0..=MAX_TOP {
        if places <= 1 << level {
            return Some(level);
        }
    }
    None
}
