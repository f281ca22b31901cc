//! A region and its copy share no word.

use l6_raw::Region;
use std::test::Fail;

#[test]
#[tactic(auto, using(l6_raw::proofs::Pages::all_used))]
fn a_copy_keeps_its_words(rt: HostRuntime) -> Result<(), Fail> {
    let mut region = Region::new(rt.alloc(), 4)?;
    region.write(1, 7);
    let copy = region.duplicate(rt.alloc())?;
    region.write(1, 8);
    assert_eq!(rt; copy.read(1), 7);
    assert_eq!(rt; region.words(0, 4), [0, 8, 0, 0].as_slice());
    region.copy(0, 2, 2);
    assert_eq!(rt; region.words(0, 4), [0, 8, 0, 8].as_slice());
    region.fill(1, 2);
    assert_eq!(rt; region.words(0, 4), [0, 0, 0, 8].as_slice());
    assert_eq!(rt; copy.words(0, 4), [0, 7, 0, 0].as_slice());
    let used = [true; 256];
    region.take_from(&copy, &used, &used);
    region.write(0, 9);
    assert_eq!(rt; region.words(0, 4), [9, 7, 0, 0].as_slice());
    Ok(())
}

#[test]
fn a_region_has_as_many_words_as_the_largest_store(rt: HostRuntime) -> Result<(), Fail> {
    for count in [1, Region::MOST_WORDS] {
        let mut region = Region::new(rt.alloc(), count)?;
        region.write(count - 1, (1 << Region::WORD_BITS) - 1);
        assert_eq!(rt; region.read(count - 1), 68_719_476_735);
    }
    Ok(())
}
