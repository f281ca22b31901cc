//! The calls on a small memory, and what they answer of bad numbers.

use crate::exports::{
    l6_offset_close, l6_offset_find, l6_offset_free, l6_offset_free_places, l6_offset_get,
    l6_offset_largest, l6_offset_level, l6_offset_level_for, l6_offset_most, l6_offset_next,
    l6_offset_open, l6_offset_piece, l6_offset_reserve, l6_offset_reset,
};
use crate::store::L6Offset;

#[test]
fn sixteen_places(rt: HostRuntime) {
    let heap = rt.alloc();
    let mut store = L6Offset::closed();
    assert_eq!(rt; l6_offset_get(heap, &mut store, 0), -1);
    assert_eq!(rt; l6_offset_open(heap, &mut store, 25, 0, 16), -3);
    assert_eq!(rt; l6_offset_open(heap, &mut store, 4, 0, 17), -3);
    assert_eq!(rt; l6_offset_open(heap, &mut store, 4, 3, 2), -3);
    assert_eq!(rt; l6_offset_open(heap, &mut store, 4, 0, 16), 0);
    assert_eq!(rt; l6_offset_open(heap, &mut store, 4, 0, 16), -2);
    assert_eq!(rt; l6_offset_largest(heap, &mut store), 4);
    assert_eq!(rt; l6_offset_get(heap, &mut store, 5), -5);
    assert_eq!(rt; l6_offset_get(heap, &mut store, 1), 0);
    assert_eq!(rt; l6_offset_reserve(heap, &mut store, 2, 8), 0);
    assert_eq!(rt; l6_offset_reserve(heap, &mut store, 0, 11), -7);
    assert_eq!(rt; l6_offset_reserve(heap, &mut store, 1, 13), -7);
    assert_eq!(rt; l6_offset_largest(heap, &mut store), 2);
    assert_eq!(rt; l6_offset_piece(heap, &mut store, 3), 1);
    assert_eq!(rt; l6_offset_piece(heap, &mut store, 15), 2);
    assert_eq!(rt; l6_offset_piece(heap, &mut store, 1), -7);
    assert_eq!(rt; l6_offset_piece(heap, &mut store, 16), -7);
    assert_eq!(rt; l6_offset_find(heap, &mut store, 2), 4);
    assert_eq!(rt; l6_offset_find(heap, &mut store, 3), -8);
    assert_eq!(rt; l6_offset_free_places(heap, &mut store), 10);
    assert_eq!(rt; l6_offset_next(heap, &mut store, 0), 0);
    assert_eq!(rt; l6_offset_next(heap, &mut store, 1), 8);
    assert_eq!(rt; l6_offset_next(heap, &mut store, 9), -6);
    assert_eq!(rt; l6_offset_level(heap, &mut store, 8), 2);
    assert_eq!(rt; l6_offset_level(heap, &mut store, 9), -6);
    assert_eq!(rt; l6_offset_free(heap, &mut store, 9), -6);
    assert_eq!(rt; l6_offset_free(heap, &mut store, 8), 0);
    assert_eq!(rt; l6_offset_free(heap, &mut store, 8), -6);
    assert_eq!(rt; l6_offset_find(heap, &mut store, 3), 8);
    assert_eq!(rt; l6_offset_most(heap, &mut store), 6);
    assert_eq!(rt; l6_offset_reset(heap, &mut store), 0);
    assert_eq!(rt; l6_offset_most(heap, &mut store), 0);
    assert_eq!(rt; l6_offset_free_places(heap, &mut store), 16);
    assert_eq!(rt; l6_offset_level_for(5), 3);
    assert_eq!(rt; l6_offset_level_for(16_777_217), -5);
    assert_eq!(rt; l6_offset_close(heap, &mut store), 0);
    assert_eq!(rt; l6_offset_close(heap, &mut store), -1);
}
