//! The plainest store: it looks for the lowest open place.

ghost use Rattle.std.specs.Prelude.{◌≡◌, ◌↔◌, ◌⊎◌, ◌<◌, ◌≤◌, ◌+◌, length, slice_index_or, IfOk, OnOk, IsErrOf};
ghost use Rattle.l6_store.specs.Numerals.{most_units};
ghost use Rattle.l6_store.specs.Scan.{scan_rule};
ghost use Rattle.l6_store.specs.Store.{fresh, IsSound};
ghost use Rattle.l6_store.specs.inner.PlaceTags.{IsCleared};

use crate::fault::StoreFault;
use crate::level::size_of;
use crate::places::{Level, Place, Places};
use crate::tag::{Tag, block_level, fill, level_at, lowest_open, place_tag, raised};
use crate::units::{MAX_UNITS, end_of};
use l6_word::{UNIT_SIZE, Word};
use std::alloc::{AllocError, Global};
use std::marker::Model;

/// A store that looks through its places for the lowest open one. Each other call but `reset` and
/// `duplicate` goes straight to its block.
#[derive(Debug, Drop)]
pub struct ScanStore {
    units: u32,
    // what is at each place
    tags: Vec<Tag>,
    // the word at each place, below 2^36
    words: Vec<u64>,
    // how many words the block has that begins at each place, 0 where none does: so one comparison
    // decides whether a block begins there and has a word of some index
    sizes: Vec<u16>,
    // no place below this one is free
    low: usize,
}

impl Model for ScanStore {
    ghost use Rattle.l6_store.specs.Store.{Store, store_code};

    ghost Value = { Store };

    ghost coded = { store_code };

    ghost use Rattle.l6_store.specs.inner.Tags.{store_of};
    ghost use Rattle.l6_store.specs.inner.PlaceTags.{IsHeld};

    ghost view = { λ s. store_of s.units s.tags.items s.words.items };

    ghost invariant = { λ s. IsHeld s.units s.tags.items s.words.items s.sizes.items s.low };
}

impl ScanStore {
    /// A store without blocks.
    ///
    /// # Errors
    ///
    /// `BadUnits` exactly for no unit or more than 255, before anything is allocated; or out of
    /// memory.
    pub fn new(alloc: Global, units: u32) -> Result<Self, StoreFault>
        ensures fresh { IfOk result (λ store. store ≡ fresh scan_rule units) }
        ensures bad_units { IsErrOf result StoreFault.BadUnits
            ↔ ((units < 1) ⊎ (most_units < units)) }
        ensures range { OnOk result (units ≤ most_units) }
        ensures sound { IfOk result (λ store. IsSound scan_rule store) }
    {
        if units < 1 || MAX_UNITS < units {
            return Err(StoreFault::BadUnits);
        }
        let places = end_of(units) as usize;
        Ok(ScanStore {
            units,
            tags: vec![in alloc; Tag::Free; places]?,
            words: vec![in alloc; 0; places]?,
            sizes: vec![in alloc; 0; places]?,
            low: usize::from(UNIT_SIZE),
        })
    }
}

impl Places for ScanStore {
    ghost rule = { scan_rule };

    ghost store = { λ store. store };

    fn units(&self) -> u32 {
        self.units
    }

    fn live(&self, word: Word) -> Option<Level> {
        level_at(&self.tags, word.get() as usize)
    }

    fn word(&self, start: Word, index: u16) -> Option<Word> {
        let start = start.get() as usize;
        if index < size_at(&self.sizes, start) {
            Some(Word::from_value(self.words[start + usize::from(index)]))
        } else {
            None
        }
    }

    fn peek(&self, level: Level) -> Option<Place> {
        lowest_open(&self.tags, self.low, level)
    }

    fn get(&mut self, level: Level) -> Option<Place> {
        let place = lowest_open(&self.tags, self.low, level)?;
        place_tag(&mut self.tags, place as usize, level);
        clear(&mut self.words, place as usize, size_of(level));
        self.sizes[place as usize] = 1 << level;
        self.low = raised(self.low, place as usize, level);
        Some(place)
    }

    fn free(&mut self, place: Place) {
        let level = block_level(&self.tags, place as usize);
        fill(&mut self.tags, place as usize, size_of(level), Tag::Free);
        self.sizes[place as usize] = 0;
        self.low = self.low.min(place as usize);
    }

    fn copy(&mut self, from: Place, to: Place) {
        let from = from as usize;
        let level = block_level(&self.tags, from);
        self.words
            .copy_within(from..from + size_of(level), to as usize);
    }

    fn read(&self, place: Place) -> Word {
        Word::from_value(self.words[place as usize])
    }

    fn write(&mut self, place: Place, word: Word) {
        self.words[place as usize] = word.get();
    }

    fn block(&self, place: Place) -> &[u64] {
        let place = place as usize;
        let level = block_level(&self.tags, place);
        &self.words[place..place + size_of(level)]
    }

    fn moves(&self) -> u32 {
        // a look at a field, by which it is known that no move was counted
        let _units = self.units;
        0
    }

    fn duplicate(&self, alloc: Global) -> Result<Self, AllocError> {
        Ok(ScanStore {
            units: self.units,
            tags: self.tags.to_vec(alloc)?,
            words: self.words.to_vec(alloc)?,
            sizes: self.sizes.to_vec(alloc)?,
            low: self.low,
        })
    }

    fn take_from(&mut self, _alloc: Global, other: &Self) -> Result<(), AllocError> {
        self.tags.copy_from_slice(&other.tags);
        self.words.copy_from_slice(&other.words);
        self.sizes.copy_from_slice(&other.sizes);
        self.low = other.low;
        Ok(())
    }

    fn reset(&mut self) {
        self.tags.fill(Tag::Free);
        self.sizes.fill(0);
        self.low = usize::from(UNIT_SIZE);
    }
}

/// How many words the block has that begins at a place, 0 where none does.
fn size_at(sizes: &[u16], place: usize) -> u16
    ensures { result ≡ slice_index_or sizes.now place 0 }
{
    sizes.get(place).copied().unwrap_or(0)
}

/// Clears so many words from a place on.
fn clear(words: &mut [u64], place: usize, size: usize)
    requires { place + size ≤ length words.old }
    ensures { IsCleared words.old words.new place size }
{
    words[place..place + size].fill(0);
}
