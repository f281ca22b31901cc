//! The largest stores are copied, and a copy goes its own way.

use l6_store::{Buddy, Level, MAX_UNITS, Places, ScanStore};
use l6_word::Word;
use std::alloc::Global;
use std::test::Fail;

/// The store has the first block alone, and the copy has both.
const OWN_WAYS: [Option<Level>; 4] = [Some(7), None, Some(7), Some(0)];

#[test]
fn the_largest_buddy_store_is_copied(rt: HostRuntime) -> Result<(), Fail> {
    let store = Buddy::new(rt.alloc(), MAX_UNITS)?;
    assert_eq!(rt; own_ways(rt.alloc(), store)?, OWN_WAYS);
    Ok(())
}

#[test]
fn the_largest_plain_store_is_copied(rt: HostRuntime) -> Result<(), Fail> {
    let store = ScanStore::new(rt.alloc(), MAX_UNITS)?;
    assert_eq!(rt; own_ways(rt.alloc(), store)?, OWN_WAYS);
    Ok(())
}

/// The levels of a block in the store and of one more in its copy: those that the store has of
/// both, and those that the copy has.
fn own_ways<S: Places>(alloc: Global, mut store: S) -> Result<[Option<Level>; 4], Fail>
where
    S: Drop,
{
    let first = store.get(7).ok_or("no place")?;
    let mut copy = store.duplicate(alloc)?;
    let second = copy.get(0).ok_or("no place")?;
    let first = Word::wrapping(u64::from(first));
    let second = Word::wrapping(u64::from(second));
    Ok([
        store.live(first),
        store.live(second),
        copy.live(first),
        copy.live(second),
    ])
}
