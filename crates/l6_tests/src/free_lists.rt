//! The free lists of a buddy store, as its calls show them.

use l6_store::{Buddy, Place, Places};
use std::test::Fail;

/// A store of one unit after the first six calls of the table in `docs/allocator.md`: four blocks of a word
/// are got, and two of them are freed.
fn six_calls(store: &mut Buddy) -> bool {
    for _ in 0..4 {
        if store.get(0).is_none() {
            return false;
        }
    }
    store.try_free(1024) && store.try_free(1026)
}

#[test]
fn free_lists_are_those_of_the_table(rt: HostRuntime) -> Result<(), Fail> {
    let mut store = Buddy::new(rt.alloc(), 1)?;
    assert!(rt; six_calls(&mut store));
    assert_eq!(rt;
        (store.first_free(0), store.next_free(0, 1026)),
        (Some(1026), Some(1024))
    );
    assert_eq!(rt;
        (store.next_free(0, 1024), store.first_free(1)),
        (None, None)
    );
    assert_eq!(rt;
        (store.first_free(2), store.next_free(2, 1028)),
        (Some(1028), None)
    );
    assert_eq!(rt;
        (store.pieces(0), store.pieces(1), store.pieces(2)),
        (2, 0, 1)
    );
    assert_eq!(rt;
        (store.free_words(), store.largest_free_level()),
        (1022, Some(9))
    );
    assert_eq!(rt; store.get(0), Some(1026));
    assert_eq!(rt; (store.try_free(1027), store.moves()), (true, 0));
    assert_eq!(rt; (store.try_free(1026), store.moves()), (true, 1));
    assert_eq!(rt; (store.try_free(1025), store.moves()), (true, 10));
    assert_eq!(rt; (store.first_free(10), store.pieces(10)), (Some(1024), 1));
    Ok(())
}

#[test]
fn any_place_may_be_asked_for(rt: HostRuntime) -> Result<(), Fail> {
    let mut store = Buddy::new(rt.alloc(), 2)?;
    for place in [0, 1, 1023, 1024, 1025, 3071, 3072, Place::MAX] {
        assert!(rt; !store.try_free(place), "{place}");
        assert_eq!(rt; store.next_free(0, place), None, "{place}");
        assert_eq!(rt; store.next_free(11, place), None, "{place}");
    }
    assert_eq!(rt;
        (store.next_free(10, 1024), store.next_free(10, 2048)),
        (Some(2048), None)
    );
    assert_eq!(rt; (store.get(10), store.get(10)), (Some(1024), Some(2048)));
    assert_eq!(rt; (store.free_words(), store.largest_free_level()), (0, None));
    assert!(rt; store.try_free(2048) && !store.try_free(2048));
    assert_eq!(rt; store.free_words(), 1024);
    Ok(())
}
