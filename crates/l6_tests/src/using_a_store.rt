//! A program that uses the buddy store: it gets, writes, copies, reads and frees. `docs/allocator.md`
//! shows it.

use l6_store::{Buddy, Place, Places, level_for};
use l6_word::Word;
use std::alloc::Global;
use std::test::Fail;

/// Gets a block of at least so many words, and writes the first one.
fn block_with(store: &mut Buddy, words: u32, first: Word) -> Result<Place, Fail> {
    let level = level_for(words).ok_or("no block has so many words")?;
    let place = store.get(level).ok_or("no place is open")?;
    store.write(place, first);
    Ok(place)
}

/// Copies a block into another of its size.
fn copy_block(store: &mut Buddy, from: Place, to: Place) -> Result<(), Fail> {
    let size = store.live(Word::from(from)).ok_or("no block begins there")?;
    let other = store.live(Word::from(to)).ok_or("no block begins there")?;
    if from == to || size != other {
        return Err("a block is copied into another of its size")?;
    }
    store.copy(from, to);
    Ok(())
}

/// Frees the block that begins at a place.
fn free_block(store: &mut Buddy, place: Place) -> Result<(), Fail> {
    store
        .live(Word::from(place))
        .ok_or("no block begins there")?;
    store.free(place);
    Ok(())
}

/// Writes into a block, copies it, frees it, and reads the copy.
fn use_a_store(alloc: Global) -> Result<u64, Fail> {
    let mut store = Buddy::new(alloc, 1)?;
    let block = block_with(&mut store, 5, Word::from(1965))?;
    let copy = block_with(&mut store, 5, Word::from(0))?;
    copy_block(&mut store, block, copy)?;
    free_block(&mut store, block)?;
    let first = store.word(Word::from(copy), 0).ok_or("no such word")?;
    free_block(&mut store, copy)?;
    Ok(first.get())
}

#[test]
fn a_store_is_used(rt: HostRuntime) -> Result<(), Fail> {
    assert_eq!(rt; use_a_store(rt.alloc())?, 1965);
    Ok(())
}
