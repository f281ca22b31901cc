//! The arena: a region of words with the blocks and the lists of free pieces that are in it.

ghost use Rattle.std.specs.Prelude.{[], ℕ, ◌≡◌, ◌≢◌, ◌↔◌, ◌+◌, ◌%◌, ◌<◌, ◌≤◌, ◌^◌, length, replicate, slice_get, slice_set, option_map, IsSome, IfSome, IfOk};
ghost use Rattle.std.specs.List.{All};
ghost use Rattle.std.specs.FinMap as map;
ghost use Rattle.l6_word.specs.Numerals.{largest_level, unit_size, word_bits};
ghost use Rattle.l6_store.specs.Numerals.{most_units};
ghost use Rattle.l6_store.specs.Blocks.{IsLive, LiesIn, IsAlignedPlace, block_at, end_of, index_in, word_at};
ghost use Rattle.l6_store.specs.Buddy.{IsListed, first_of, first_or, has, in_front, first_order, level_at, level_found, listed, next_in, taken_out};
ghost use Rattle.l6_store.specs.inner.ArenaLayout.{IsSoundLayout};

use crate::level::size_of;
use crate::link::{link, link_alone, neighbors_at, pop, unlink};
use crate::place_tag::{PlaceTag, PlaceTags};
use crate::places::{Level, Place};
use crate::units::{UNIT_PLACES, UNITS, end_of};
use l6_raw::Region;
use l6_word::{LARGEST_LEVEL, UNIT_SIZE, Word};
use std::alloc::{AllocError, Global};
use std::marker::Model;

/// How many levels there are.
const LEVELS: usize = LARGEST_LEVEL as usize + 1;

/// A region of words, what is at each of its places, and the head of each list.
#[derive(Drop)]
pub(crate) struct Arena {
    units: u32,
    // the word at each place
    words: Region,
    // what is at each place
    place_tags: PlaceTags,
    // the first place of each level's list, 0 where it is empty
    heads: [Place; LEVELS],
    // whether each unit is used: of an unused one all words but the first are 0, no block begins in
    // it, and no piece after its first place
    used: [bool; UNITS],
}

impl Model for Arena {
    ghost use Rattle.l6_store.specs.inner.ArenaLayout.{ArenaLayout, layout_code};

    ghost Value = { ArenaLayout };

    ghost coded = { layout_code };

    ghost use Rattle.l6_store.specs.inner.ArenaLayout.{layout_of};
    ghost use Rattle.l6_store.specs.inner.Units.{IsKeptArena};

    ghost view = { λ a. layout_of a.units a.words a.place_tags a.heads };

    ghost invariant = { λ a. IsKeptArena a.units a.words a.place_tags a.heads a.used };
}

impl Arena {
    /// An arena of so many units, all of them free.
    pub(crate) fn new(alloc: Global, units: u32) -> Result<Self, AllocError>
        requires some { 1 ≤ units }
        requires most { units ≤ most_units }
        ensures units { IfOk result (λ arena. arena.units ≡ units) }
        ensures blocks { IfOk result (λ arena. arena.blocks ≡ map.empty) }
        ensures order { IfOk result (λ arena. arena.order ≡ first_order units) }
        ensures sound { IfOk result IsSoundLayout }
    {
        let places = end_of(units) as usize;
        let mut arena = Arena {
            units,
            words: Region::new(alloc, places)?,
            place_tags: PlaceTags::new(alloc, places)?,
            heads: [0; LEVELS],
            used: [false; UNITS],
        };
        arena.list_units();
        Ok(arena)
    }

    /// Lists each unit, the first in front.
    fn list_units(&mut self)
        requires blocks { self.old.blocks ≡ map.empty }
        requires order { self.old.order ≡ replicate (largest_level + 1) [] }
        ensures units { self.new.units ≡ self.old.units }
        ensures blocks { self.new.blocks ≡ map.empty }
        ensures order { self.new.order ≡ first_order self.old.units }
        ensures sound { IsSoundLayout self.new }
    {
        for unit in (1..=self.units).rev() {
            self.link_unit(unit * u32::from(UNIT_SIZE));
        }
    }

    /// Takes out all blocks, and lists each unit.
    pub(crate) fn reset(&mut self)
        ensures units { self.new.units ≡ self.old.units }
        ensures blocks { self.new.blocks ≡ map.empty }
        ensures order { self.new.order ≡ first_order self.old.units }
        ensures sound { IsSoundLayout self.new }
    {
        self.place_tags.clear();
        self.heads = [0; LEVELS];
        self.list_units();
    }

    /// How many units there are.
    pub(crate) fn units(&self) -> u32
        ensures { result ≡ self.now.units }
    {
        self.units
    }

    /// The first place of a level's list, if it has one.
    pub(crate) fn first(&self, level: Level) -> Option<Place>
        requires { level ≤ largest_level }
        ensures { result ≡ first_of (listed self.now.order level) }
    {
        let place = self.heads[usize::from(level)];
        if place == 0 { None } else { Some(place) }
    }

    /// The least level with a free piece that is at least the level asked for, as an index of the heads:
    /// so loops over levels have one counter.
    pub(crate) fn least_level(&self, level: Level) -> Option<usize>
        requires { level ≤ largest_level }
        ensures { result ≡ level_found self.now.order level }
    {
        for found in usize::from(level)..LEVELS {
            if self.heads[found] != 0 {
                return Some(found);
            }
        }
        None
    }

    /// The place after this one in a level's list, if it is in that list and not the last.
    pub(crate) fn next(&self, level: Level, place: Place) -> Option<Place>
        ensures { result ≡ next_in place (listed self.now.order level) }
    {
        if end_of(self.units) <= place || !self.is_listed(level, place) {
            return None;
        }
        let next = neighbors_at(&self.words, place).after;
        if next == 0 { None } else { Some(next) }
    }

    /// Whether a place is in a level's list.
    pub(crate) fn is_listed(&self, level: Level, place: Place) -> bool
        requires { place < end_of self.now.units }
        ensures { result ≡ has place (listed self.now.order level) }
    {
        self.place_tags.at(place) == PlaceTag::Listed(level)
    }

    /// Puts a free piece in front of its level's list. Its unit is used from then on.
    pub(crate) fn link(&mut self, level: Level, place: Place)
        requires level { level ≤ largest_level }
        requires some { 1 ≤ place }
        requires within { place < end_of self.old.units }
        requires fresh { (k : ℕ) → IsListed self.old.order k place → ⊥ }
        requires beside { LiesIn self.old.blocks place → ⊥ }
        ensures units { self.new.units ≡ self.old.units }
        ensures blocks { self.new.blocks ≡ self.old.blocks }
        ensures order { self.new.order ≡ in_front self.old.order level place }
        ensures sound { IsSoundLayout self.new }
    {
        let unit = place as usize / UNIT_PLACES;
        self.used[unit] = true;
        link(&mut self.words, &mut self.heads, level, place);
        self.place_tags.list(place, level);
    }

    /// Puts a free piece into its level's list, which is empty. Its unit is used from then on.
    pub(crate) fn link_alone(&mut self, level: usize, place: Place)
        requires level { level ≤ largest_level }
        requires some { 1 ≤ place }
        requires within { place < end_of self.old.units }
        requires alone { listed self.old.order level ≡ [] }
        requires fresh { (k : ℕ) → IsListed self.old.order k place → ⊥ }
        requires beside { LiesIn self.old.blocks place → ⊥ }
        ensures units { self.new.units ≡ self.old.units }
        ensures blocks { self.new.blocks ≡ self.old.blocks }
        ensures order { self.new.order ≡ in_front self.old.order level place }
        ensures sound { IsSoundLayout self.new }
    {
        let its_unit = place as usize / UNIT_PLACES;
        self.used[its_unit] = true;
        link_alone(&mut self.words, &mut self.heads, level, place);
        self.place_tags.list(place, level as Level);
    }

    /// Puts a whole unit in front of the list of the largest level. It stays as unused as it was.
    fn link_unit(&mut self, place: Place)
        requires some { 1 ≤ place }
        requires within { place < end_of self.old.units }
        requires whole { place % unit_size ≡ 0 }
        requires fresh { (k : ℕ) → IsListed self.old.order k place → ⊥ }
        requires beside { LiesIn self.old.blocks place → ⊥ }
        ensures units { self.new.units ≡ self.old.units }
        ensures blocks { self.new.blocks ≡ self.old.blocks }
        ensures order { self.new.order ≡ in_front self.old.order largest_level place }
        ensures sound { IsSoundLayout self.new }
    {
        link(&mut self.words, &mut self.heads, LARGEST_LEVEL, place);
        self.place_tags.list(place, LARGEST_LEVEL);
    }

    /// Takes a free piece out of its level's list.
    pub(crate) fn unlink(&mut self, level: Level, place: Place)
        requires level { level ≤ largest_level }
        requires there { IsListed self.old.order level place }
        ensures units { self.new.units ≡ self.old.units }
        ensures blocks { self.new.blocks ≡ self.old.blocks }
        ensures order { self.new.order ≡ taken_out self.old.order level place }
        ensures sound { IsSoundLayout self.new }
    {
        unlink(&mut self.words, &mut self.heads, level, place);
        self.place_tags.take_out(place);
    }

    /// Takes the first free piece out of a level's list.
    pub(crate) fn pop(&mut self, level: usize) -> Place
        requires level { level ≤ largest_level }
        requires there { IsListed self.old.order level (first_or (listed self.old.order level) 0) }
        ensures first { result ≡ first_or (listed self.old.order level) 0 }
        ensures units { self.new.units ≡ self.old.units }
        ensures blocks { self.new.blocks ≡ self.old.blocks }
        ensures order { self.new.order ≡ taken_out self.old.order level result }
        ensures sound { IsSoundLayout self.new }
    {
        let place = pop(&mut self.words, &mut self.heads, level);
        self.place_tags.take_out(place);
        place
    }

    /// The level of the block that begins at a place, if one does.
    pub(crate) fn level_at(&self, place: usize) -> Option<Level>
        ensures live { IsSome result ↔ IsLive self.now.blocks place }
        ensures size { option_map (λ level. 2 ^ level) result
            ≡ option_map length (map.get self.now.blocks place) }
        ensures level { IfSome result (λ level. level ≤ largest_level) }
    {
        self.place_tags.level(place)
    }

    /// The level of the block that begins at a place.
    pub(crate) fn block_level(&self, place: Place) -> Level
        requires { IsLive self.now.blocks place }
        ensures small { result ≤ largest_level }
        ensures size { 2 ^ result ≡ length (block_at self.now.blocks place) }
    {
        self.level_at(place as usize).unwrap()
    }

    /// The word of this index in the block that begins at a place, or `None` where none begins or the
    /// block has no such word.
    pub(crate) fn word(&self, start: usize, index: u16) -> Option<Word>
        ensures value { result ≡ slice_get (block_at self.now.blocks start) index }
        ensures near { IfSome result
            (λ _. (start < end_of most_units) × (index < unit_size)) }
    {
        if index < self.place_tags.size(start) {
            let word = self.words.read(start + usize::from(index));
            Some(Word::from_value(word))
        } else {
            None
        }
    }

    /// Makes a piece a block of zeros.
    pub(crate) fn open(&mut self, level: Level, place: Place)
        requires is_aligned { IsAlignedPlace self.old.units level place }
        requires beside { (at : ℕ) → place ≤ at → at < place + 2 ^ level
            → LiesIn self.old.blocks at → ⊥ }
        requires unlisted { (k at : ℕ) → place ≤ at → at < place + 2 ^ level
            → IsListed self.old.order k at → ⊥ }
        ensures units { self.new.units ≡ self.old.units }
        ensures blocks { self.new.blocks
            ≡ map.insert self.old.blocks place (replicate (2 ^ level) 0) }
        ensures order { self.new.order ≡ self.old.order }
        ensures sound { IsSoundLayout self.new }
    {
        self.used[place as usize / UNIT_PLACES] = true;
        self.place_tags.open(place, level);
        self.words.fill(place as usize, size_of(level));
    }

    /// Takes out a block, which leaves a detached piece.
    pub(crate) fn close(&mut self, place: Place)
        requires { IsLive self.old.blocks place }
        ensures units { self.new.units ≡ self.old.units }
        ensures blocks { self.new.blocks ≡ map.remove self.old.blocks place }
        ensures order { self.new.order ≡ self.old.order }
        ensures sound { IsSoundLayout self.new }
    {
        self.place_tags.close(place);
    }

    /// The word at a place.
    pub(crate) fn read(&self, place: Place) -> Word
        requires { LiesIn self.now.blocks place }
        ensures { (found : LiesIn self.now.blocks place) → result ≡ word_at place found }
    {
        Word::from_value(self.words.read(place as usize))
    }

    /// Writes a word at a place.
    pub(crate) fn write(&mut self, place: Place, word: Word)
        requires { LiesIn self.old.blocks place }
        ensures units { self.new.units ≡ self.old.units }
        ensures blocks { (found : LiesIn self.old.blocks place) → self.new.blocks
            ≡ map.insert self.old.blocks found.start
            (slice_set found.words (index_in place found) word) }
        ensures order { self.new.order ≡ self.old.order }
        ensures sound { IsSoundLayout self.new }
    {
        self.words.write(place as usize, word.get());
    }

    /// The words of the block that begins at a place.
    pub(crate) fn block(&self, place: Place) -> &[u64]
        requires { IsLive self.now.blocks place }
        ensures value { result.now ≡ block_at self.now.blocks place }
        ensures words { All (λ word. word < 2 ^ word_bits) result.now }
    {
        let level = self.block_level(place);
        self.words.words(place as usize, size_of(level))
    }

    /// Copies the words of a block into another of its size.
    pub(crate) fn copy(&mut self, from: Place, to: Place)
        requires from_live { IsLive self.old.blocks from }
        requires to_live { IsLive self.old.blocks to }
        requires different { from ≢ to }
        requires size { length (block_at self.old.blocks from)
            ≡ length (block_at self.old.blocks to) }
        ensures units { self.new.units ≡ self.old.units }
        ensures blocks { self.new.blocks
            ≡ map.insert self.old.blocks to (block_at self.old.blocks from) }
        ensures order { self.new.order ≡ self.old.order }
        ensures sound { IsSoundLayout self.new }
    {
        let level = self.block_level(from);
        self.words.copy(from as usize, to as usize, size_of(level));
    }

    /// Becomes the same as another arena, which has as many units. No memory is taken.
    pub(crate) fn take_from(&mut self, other: &Arena)
        requires { self.old.units ≡ other.now.units }
        ensures { self.new ≡ other.now }
    {
        let (used, other_used) = (&self.used, &other.used);
        self.words.take_from(&other.words, used, other_used);
        self.place_tags
            .take_from(&other.place_tags, used, other_used);
        self.heads.copy_from_slice(&other.heads);
        self.used.copy_from_slice(&other.used);
    }

    /// A copy of the arena, in memory of its own.
    pub(crate) fn duplicate(&self, alloc: Global) -> Result<Self, AllocError>
        ensures { IfOk result (λ copy. copy ≡ self.now) }
    {
        Ok(Arena {
            units: self.units,
            words: self.words.duplicate(alloc)?,
            place_tags: self.place_tags.duplicate(alloc)?,
            heads: self.heads,
            used: self.used,
        })
    }
}
