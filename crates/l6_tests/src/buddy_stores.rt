//! A buddy store beside a plain model of its rule that the tests keep, over long runs of calls.

ghost use Rattle.std.specs.Prelude.{◌≡◌, IfSome};
ghost use Rattle.l6_store.specs.Blocks.{IsLive};

use l6_store::{Buddy, Level, MAX_UNITS, Place, Places, StoreFault};
use l6_word::{LARGEST_LEVEL, UNIT_SIZE, Word};
use std::alloc::{AllocError, Global};
use std::test::Fail;

/// What a buddy store should hold: for each level the free pieces in their order, the level of the
/// block that begins at each place, and how many pieces the last call halved or joined.
#[derive(Drop)]
struct Plain {
    free: Vec<Vec<usize>>,
    blocks: Vec<Option<Level>>,
    moves: u32,
}

impl Plain {
    fn new(alloc: Global, units: u32) -> Result<Self, AllocError> {
        let mut free = Vec::new(alloc);
        for _ in 0..LARGEST_LEVEL {
            free.push(Vec::new(alloc))?;
        }
        let mut whole = Vec::new(alloc);
        let mut blocks = Vec::new(alloc);
        for unit in 0..=units {
            if 0 < unit {
                whole.push((unit as usize).saturating_mul(usize::from(UNIT_SIZE)))?;
            }
            for _ in 0..UNIT_SIZE {
                blocks.push(None)?;
            }
        }
        free.push(whole)?;
        Ok(Plain {
            free,
            blocks,
            moves: 0,
        })
    }

    /// Puts a free piece in front of its level's list.
    fn put(&mut self, level: usize, place: usize) -> Result<(), AllocError> {
        if let Some(places) = self.free.get_mut(level) {
            places.insert(0, place)?;
        }
        Ok(())
    }

    /// The place that a get gives, if it gives one.
    fn get(&mut self, level: Level) -> Result<Option<usize>, AllocError> {
        let wanted = usize::from(level);
        self.moves = 0;
        let Some(found) = (wanted..self.free.len()).find(|found| self
            .free
            .get(*found)
            .is_some_and(|places| !places.is_empty())) else {
            return Ok(None);
        };
        let Some(places) = self.free.get_mut(found) else {
            return Ok(None);
        };
        if places.is_empty() {
            return Ok(None);
        }
        let place = places.remove(0);
        for half in (wanted..found).rev() {
            self.put(half, place.saturating_add(size_of(half)))?;
            self.moves = self.moves.saturating_add(1);
        }
        if let Some(block) = self.blocks.get_mut(place) {
            *block = Some(level);
        }
        Ok(Some(place))
    }

    /// Frees the block at a place.
    fn free(&mut self, place: usize) -> Result<(), AllocError> {
        let Some(Some(level)) = self.blocks.get(place).copied() else {
            return Ok(());
        };
        if let Some(block) = self.blocks.get_mut(place) {
            *block = None;
        }
        let mut piece = place;
        let mut level = usize::from(level);
        self.moves = 0;
        for _ in level..usize::from(LARGEST_LEVEL) {
            let buddy = piece ^ size_of(level);
            let Some(places) = self.free.get_mut(level) else {
                return Ok(());
            };
            let Some(index) = places.iter().position(|other| *other == buddy) else {
                break;
            };
            if index < places.len() {
                places.remove(index);
            }
            piece = piece.min(buddy);
            level = level.saturating_add(1);
            self.moves = self.moves.saturating_add(1);
        }
        self.put(level, piece)
    }

    /// The first place of the block of this number, places rising, if there is one.
    fn chosen(&self, number: usize) -> Option<usize> {
        let count = self.blocks.iter().filter(|block| block.is_some()).count();
        let wanted = number.checked_rem(count)?;
        (0..self.blocks.len())
            .filter(|place| matches!(self.blocks.get(*place), Some(Some(_))))
            .nth(wanted)
    }
}

/// How many words a piece of a level has.
fn size_of(level: usize) -> usize {
    1_usize
        .checked_shl(u32::try_from(level).unwrap_or(0))
        .unwrap_or(0)
}

/// Whether a store has the moves of the model, and a block just where that has one, of its level.
fn agrees(store: &Buddy, plain: &Plain) -> bool {
    let mut blocks = (0..).zip(plain.blocks.iter());
    store.moves() == plain.moves
        && blocks.all(|(place, level)| store.live(Word::wrapping(place)) == *level)
}

/// A fixed sequence of numbers below 32,768.
#[derive(Drop)]
struct Numbers {
    last: u64,
}

impl Numbers {
    fn next(&mut self) -> usize {
        self.last = self.last.wrapping_mul(1_103_515_245).wrapping_add(12_345) % (1 << 31);
        (self.last / 65_536) as usize
    }
}

/// Makes one call, which the number chooses, and says whether store and model agree on it.
fn call(store: &mut Buddy, plain: &mut Plain, number: usize) -> Result<bool, AllocError> {
    let level = (number % 16) as Level;
    if level <= LARGEST_LEVEL {
        let peeked = store.peek(level).map(|place| place as usize);
        let got = store.get(level).map(|place| place as usize);
        return Ok(plain.get(level)? == got && got == peeked);
    }
    if let Some(place) = plain.chosen(number / 16) {
        plain.free(place)?;
        return Ok(freed(store, place));
    }
    Ok(true)
}

/// The number of a place, as a word.
fn word_of(place: Place) -> Word
    ensures { result ≡ place }
{
    Word::wrapping(u64::from(place))
}

/// The place of the block that should begin at this one.
fn found(store: &Buddy, place: usize) -> Option<Place>
    ensures { IfSome result (IsLive store.now.store.blocks) }
{
    let place = Place::try_from(place).ok()?;
    if store.live(word_of(place)).is_none() {
        return None;
    }
    Some(place)
}

/// Frees the block at a place, and says whether there was one.
fn freed(store: &mut Buddy, place: usize) -> bool {
    let Some(place) = found(store, place) else {
        return false;
    };
    store.free(place);
    true
}

#[test]
fn a_buddy_store_agrees_with_the_model(rt: HostRuntime) -> Result<(), Fail> {
    for units in [1, 3] {
        let mut store = Buddy::new(rt.alloc(), units)?;
        let mut plain = Plain::new(rt.alloc(), units)?;
        let mut numbers = Numbers { last: 1 };
        for number in 0..10_000 {
            assert!(rt;
                call(&mut store, &mut plain, numbers.next())?,
                "call {number} of {units} units"
            );
            assert!(rt;
                agrees(&store, &plain),
                "after call {number} of {units} units"
            );
        }
        for _ in 0..plain.blocks.len() {
            if let Some(place) = plain.chosen(0) {
                plain.free(place)?;
                assert!(rt; freed(&mut store, place) && agrees(&store, &plain));
            }
        }
        assert!(rt; agrees(&store, &plain));
        for _ in 0..units {
            assert!(rt; store.get(LARGEST_LEVEL).is_some());
        }
        assert_eq!(rt; store.get(0), None);
    }
    Ok(())
}

#[test]
fn moves_are_those_of_the_last_get_or_free(rt: HostRuntime) -> Result<(), Fail> {
    let mut store = Buddy::new(rt.alloc(), 1)?;
    assert_eq!(rt; store.moves(), 0);
    assert_eq!(rt; (store.get(0), store.moves()), (Some(1024), 10));
    assert_eq!(rt; store.duplicate(rt.alloc())?.moves(), 10);
    assert_eq!(rt; (store.get(0), store.moves()), (Some(1025), 0));
    assert_eq!(rt; (freed(&mut store, 1025), store.moves()), (true, 0));
    assert_eq!(rt; (freed(&mut store, 1024), store.moves()), (true, 10));
    assert_eq!(rt; (store.get(LARGEST_LEVEL), store.moves()), (Some(1024), 0));
    assert_eq!(rt; (store.get(0), store.moves()), (None, 0));
    store.reset();
    assert_eq!(rt; (store.get(3), store.moves()), (Some(1024), 7));
    assert_eq!(rt; (store.get(LARGEST_LEVEL), store.moves()), (None, 0));
    assert_eq!(rt; (freed(&mut store, 1024), store.moves()), (true, 7));
    store.reset();
    assert_eq!(rt; store.moves(), 0);
    Ok(())
}

#[test]
fn a_buddy_store_has_1_to_255_units(rt: HostRuntime) -> Result<(), Fail> {
    for units in [0, MAX_UNITS + 1, u32::MAX] {
        assert_eq!(rt;
            Buddy::new(rt.alloc(), units).err(),
            Some(StoreFault::BadUnits)
        );
    }
    for units in [1, MAX_UNITS] {
        assert_eq!(rt; Buddy::new(rt.alloc(), units)?.units(), units);
    }
    Ok(())
}
