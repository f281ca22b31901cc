//! The calls, in the order of the table of `docs/allocator.md`, and what they answer of bad numbers.

use crate::exports::{
    l6_store_close, l6_store_copy, l6_store_first, l6_store_free, l6_store_free_words,
    l6_store_get, l6_store_largest, l6_store_level_for, l6_store_live, l6_store_moves,
    l6_store_open, l6_store_peek, l6_store_read, l6_store_reset, l6_store_units, l6_store_write,
};
use crate::store::L6Store;

#[test]
fn calls_of_the_table(rt: HostRuntime) {
    let heap = rt.alloc();
    let mut store = L6Store::closed();
    assert_eq!(rt; l6_store_get(&mut store, 0), -1);
    assert_eq!(rt; l6_store_open(heap, &mut store, 1), 0);
    assert_eq!(rt; l6_store_get(&mut store, 0), 1024);
    assert_eq!(rt; l6_store_moves(&mut store), 10);
    assert_eq!(rt; l6_store_get(&mut store, 0), 1025);
    assert_eq!(rt; l6_store_get(&mut store, 0), 1026);
    assert_eq!(rt; l6_store_moves(&mut store), 1);
    assert_eq!(rt; l6_store_get(&mut store, 0), 1027);
    assert_eq!(rt; l6_store_free(&mut store, 1024), 0);
    assert_eq!(rt; l6_store_free(&mut store, 1026), 0);
    assert_eq!(rt; l6_store_first(&mut store, 0), 1026);
    assert_eq!(rt; l6_store_first(&mut store, 1), 0);
    assert_eq!(rt; l6_store_first(&mut store, 2), 1028);
    assert_eq!(rt; l6_store_peek(&mut store, 0), 1026);
    assert_eq!(rt; l6_store_get(&mut store, 0), 1026);
    assert_eq!(rt; l6_store_free(&mut store, 1027), 0);
    assert_eq!(rt; l6_store_free_words(&mut store), 1022);
    assert_eq!(rt; l6_store_largest(&mut store), 9);
    assert_eq!(rt; l6_store_units(&mut store), 1);
    assert_eq!(rt; l6_store_reset(&mut store), 0);
    assert_eq!(rt; l6_store_free_words(&mut store), 1024);
    assert_eq!(rt; l6_store_close(heap, &mut store), 0);
    assert_eq!(rt; l6_store_close(heap, &mut store), -1);
}

#[test]
fn faults(rt: HostRuntime) {
    let heap = rt.alloc();
    let mut store = L6Store::closed();
    assert_eq!(rt; l6_store_open(heap, &mut store, 0), -3);
    assert_eq!(rt; l6_store_open(heap, &mut store, 256), -3);
    assert_eq!(rt; l6_store_open(heap, &mut store, 2), 0);
    assert_eq!(rt; l6_store_open(heap, &mut store, 2), -2);
    assert_eq!(rt; l6_store_get(&mut store, 11), -5);
    assert_eq!(rt; l6_store_get(&mut store, 2), 1024);
    assert_eq!(rt; l6_store_get(&mut store, 1), 1028);
    assert_eq!(rt; l6_store_free(&mut store, 1025), -6);
    assert_eq!(rt; l6_store_live(&mut store, 1024), 2);
    assert_eq!(rt; l6_store_live(&mut store, 0xffff_ffff), -6);
    assert_eq!(rt; l6_store_read(&mut store, 1024, 4), -7);
    assert_eq!(rt; l6_store_read(&mut store, 1024, 0x1_0000), -7);
    assert_eq!(rt; l6_store_write(&mut store, 1024, 3, 1 << 36), -8);
    assert_eq!(rt; l6_store_write(&mut store, 1024, 3, 1965), 0);
    assert_eq!(rt; l6_store_read(&mut store, 1024, 3), 1965);
    assert_eq!(rt; l6_store_copy(&mut store, 1024, 1024), -9);
    assert_eq!(rt; l6_store_copy(&mut store, 1024, 1028), -9);
    assert_eq!(rt; l6_store_get(&mut store, 2), 1032);
    assert_eq!(rt; l6_store_copy(&mut store, 1024, 1032), 0);
    assert_eq!(rt; l6_store_read(&mut store, 1032, 3), 1965);
    assert_eq!(rt; l6_store_level_for(1000), 10);
    assert_eq!(rt; l6_store_level_for(1025), -5);
    assert_eq!(rt; l6_store_close(heap, &mut store), 0);
}
