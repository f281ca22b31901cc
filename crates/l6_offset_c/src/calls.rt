//! What each call does with an open store.

ghost use Rattle.std.specs.Prelude.{◌≡◌, Ok, ◌<◌, ◌≤◌, ◌^◌, IfOk, OnErr, OnOk};
ghost use Rattle.l6_places.specs.Board.{emptied, released, taken};
ghost use Rattle.l6_places.specs.Numerals.{largest_top};
ghost use Rattle.l6_offset_c.specs.Outcome.{IsFound, IsFreePlaces, IsFreed, IsLargestLevel, IsLevel, IsMost, IsNext, IsPiece, IsReserved};

use crate::fault::CallFault;
use l6_places::{Board, Level};

/// A level that was given as a number, if the board has it.
fn level_of(board: &Board, level: u32) -> Result<Level, CallFault>
    ensures good { IfOk result (λ given. (given ≡ level) × (level ≤ board.now.top)) }
    ensures bad { OnErr result (board.now.top < level) }
    ensures fault { OnErr result (result ≡ Err CallFault.BadLevel) }
{
    if level > u32::from(board.top()) {
        return Err(CallFault::BadLevel);
    }
    Ok(level as Level)
}

/// Gets a block of a level, at the lowest open place.
pub(crate) fn get(board: &mut Board, level: u32) -> Result<u64, CallFault>
    ensures found { IsFound board.old level result }
    ensures after { IfOk result (λ place. board.new ≡ taken board.old level place) }
    ensures same { OnErr result (board.new ≡ board.old) }
    ensures range { IfOk result (λ place. place < 2 ^ 32) }
{
    let level = level_of(board, level)?;
    match board.get(level) {
        Some(place) => Ok(u64::from(place)),
        None => Err(CallFault::Full),
    }
}

/// The lowest open place of a level.
pub(crate) fn find(board: &Board, level: u32) -> Result<u64, CallFault>
    ensures found { IsFound board.now level result }
    ensures range { IfOk result (λ place. place < 2 ^ 32) }
{
    match board.find(level_of(board, level)?) {
        Some(place) => Ok(u64::from(place)),
        None => Err(CallFault::Full),
    }
}

/// Puts a block of a level at a place, if it is open.
pub(crate) fn reserve(board: &mut Board, level: u32, place: u32) -> Result<u64, CallFault>
    ensures reserved { IsReserved board.old level place result }
    ensures after { OnOk result (board.new ≡ taken board.old level place) }
    ensures same { OnErr result (board.new ≡ board.old) }
    ensures range { IfOk result (λ value. value ≡ 0) }
{
    let level = level_of(board, level)?;
    if board.try_reserve(level, place) {
        Ok(0)
    } else {
        Err(CallFault::NotOpen)
    }
}

/// Frees the block that begins at a place.
pub(crate) fn free(board: &mut Board, place: u32) -> Result<u64, CallFault>
    ensures freed { IsFreed place board.old result }
    ensures after { OnOk result (board.new ≡ released board.old place) }
    ensures same { OnErr result (board.new ≡ board.old) }
    ensures range { IfOk result (λ value. value ≡ 0) }
{
    if board.try_free(place) {
        Ok(0)
    } else {
        Err(CallFault::NoBlock)
    }
}

/// The level of the block that begins at a place.
pub(crate) fn level(board: &Board, place: u32) -> Result<u64, CallFault>
    ensures level { IsLevel place board.now result }
    ensures range { IfOk result (λ level. level < 2 ^ 8) }
{
    match board.level_at(place) {
        Some(level) => Ok(u64::from(level)),
        None => Err(CallFault::NoBlock),
    }
}

/// The first place from one on at which a block begins.
pub(crate) fn next(board: &Board, from: u32) -> Result<u64, CallFault>
    ensures next { IsNext from board.now result }
    ensures range { IfOk result (λ place. place < 2 ^ 32) }
{
    match board.next_block(from) {
        Some(place) => Ok(u64::from(place)),
        None => Err(CallFault::NoBlock),
    }
}

/// The level of the largest open piece.
pub(crate) fn largest(board: &Board) -> Result<u64, CallFault>
    ensures largest { IsLargestLevel board.now result }
    ensures range { IfOk result (λ level. level < 2 ^ 8) }
{
    match board.largest_open() {
        Some(piece) => Ok(u64::from(piece.level)),
        None => Err(CallFault::Full),
    }
}

/// How many places lie in no block.
pub(crate) fn free_places(board: &Board) -> Result<u64, CallFault>
    ensures places { IsFreePlaces board.now result }
    ensures range { IfOk result (λ places. places < 2 ^ 32) }
{
    Ok(u64::from(board.free_places()))
}

/// The most places that blocks had at once.
pub(crate) fn most(board: &Board) -> Result<u64, CallFault>
    ensures most { IsMost board.now result }
    ensures range { IfOk result (λ places. places < 2 ^ 63) }
{
    Ok(board.most_used())
}

/// The level of the largest open piece that has a place.
pub(crate) fn piece(board: &Board, place: u32) -> Result<u64, CallFault>
    ensures piece { IsPiece place board.now result }
    ensures range { IfOk result (λ level. level < 2 ^ 8) }
{
    match board.open_level(board.top(), place) {
        Some(level) => Ok(u64::from(level)),
        None => Err(CallFault::NotOpen),
    }
}

/// Frees all blocks.
pub(crate) fn reset(board: &mut Board) -> Result<u64, CallFault>
    ensures done { result ≡ Ok 0 }
    ensures after { board.new ≡ emptied board.old }
{
    board.reset();
    Ok(0)
}
