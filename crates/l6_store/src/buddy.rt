//! The buddy system: a store whose free pieces are listed by their level. `docs/allocator.md`
//! explains it to those who write allocators.

ghost use Rattle.std.specs.Prelude.{◌≡◌, ◌↔◌, ◌⊎◌, ◌<◌, ◌≤◌, ◌^◌, true, false, length, IfOk, OnOk, IsErrOf};
ghost use Rattle.l6_word.specs.Numerals.{largest_level};
ghost use Rattle.l6_store.specs.Numerals.{most_units};
ghost use Rattle.l6_store.specs.Blocks.{IsLive, block_at, end_of};
ghost use Rattle.l6_store.specs.Buddy.{IsLargestFree, buddy_rule, first_of, free_words, listed, next_in};
ghost use Rattle.l6_store.specs.Links.{AreAtTheirPlaces, Links};
ghost use Rattle.l6_store.specs.Store.{after_free, fresh, IsSound};
ghost use Rattle.l6_store.specs.Tiles.{Tiles};

use crate::arena::Arena;
use crate::fault::StoreFault;
use crate::piece::{count_free_words, count_pieces, join, largest_free_level, open_piece};
use crate::places::{Level, Place, Places};
use crate::units::MAX_UNITS;
use l6_word::Word;
use std::alloc::{AllocError, Global};
use std::marker::Model;

/// A store by the buddy system (K. C. Knowlton, A fast storage allocator, CACM 8(10), 1965). A get
/// takes the first free piece of the least level that is large enough, and halves it down to the
/// level asked for; a free joins the block with its buddy as long as that one is free. So a get and
/// a free take as many steps as there are levels, at most. The free lists are in the free words: a
/// store takes 8 bytes for each word, 4 bytes for each place, and the heads of the lists, all of it
/// when it is made.
#[derive(Drop)]
pub struct Buddy {
    arena: Arena,
    // how often the last get or free halved or joined pieces
    moves: u32,
}

impl Model for Buddy {
    ghost use Rattle.l6_store.specs.BuddyStore.{BuddyStore, buddy_code};

    ghost Value = { BuddyStore };

    ghost coded = { buddy_code };

    ghost use Rattle.std.specs.Prelude.{◌≤◌};
    ghost use Rattle.l6_word.specs.Numerals.{largest_level};
    ghost use Rattle.l6_store.specs.Tiles.{Tiles};
    ghost use Rattle.l6_store.specs.inner.ArenaLayout.{IsSoundLayout};

    ghost view = { λ b. record {
      store = record {
        units = b.arena.units;
        blocks = b.arena.blocks;
        order = b.arena.order;
        moves = b.moves;
      };
      words = b.arena.words;
      heads = b.arena.heads;
    } };

    ghost invariant = { λ b. IsSoundLayout b.arena
        × Tiles b.arena.units b.arena.blocks b.arena.order
        × (b.moves ≤ largest_level) };
}

impl Buddy {
    /// A store without blocks.
    ///
    /// # Errors
    ///
    /// `BadUnits` exactly for no unit or more than 255, before anything is allocated; or out of
    /// memory.
    pub fn new(alloc: Global, units: u32) -> Result<Self, StoreFault>
        ensures fresh { IfOk result (λ buddy. buddy.store ≡ fresh buddy_rule units) }
        ensures bad_units { IsErrOf result StoreFault.BadUnits
            ↔ ((units < 1) ⊎ (most_units < units)) }
        ensures range { OnOk result (units ≤ most_units) }
        ensures sound { IfOk result (λ buddy. IsSound buddy_rule buddy.store) }
    {
        if units < 1 || MAX_UNITS < units {
            return Err(StoreFault::BadUnits);
        }
        Ok(Self::with_units(alloc, units)?)
    }

    /// Like `new`, for a number of units that is known to be in range. The caller owes 1 to
    /// `MAX_UNITS` units.
    ///
    /// # Errors
    ///
    /// Memory ran out.
    pub fn with_units(alloc: Global, units: u32) -> Result<Self, AllocError>
        requires some { 1 ≤ units }
        requires most { units ≤ most_units }
        ensures fresh { IfOk result (λ buddy. buddy.store ≡ fresh buddy_rule units) }
        ensures sound { IfOk result (λ buddy. IsSound buddy_rule buddy.store) }
    {
        Ok(Buddy {
            arena: Arena::new(alloc, units)?,
            moves: 0,
        })
    }

    /// The first free piece of a level's list: the next one that a get takes from it.
    pub fn first_free(&self, level: Level) -> Option<Place>
        requires { level ≤ largest_level }
        ensures { result ≡ first_of (listed self.now.store.order level) }
    {
        self.arena.first(level)
    }

    /// The free piece after this one in a level's list, or `None` where the place is the last in that
    /// list or not in it.
    pub fn next_free(&self, level: Level, place: Place) -> Option<Place>
        ensures { result ≡ next_in place (listed self.now.store.order level) }
    {
        self.arena.next(level, place)
    }

    /// How many free pieces a level has. It goes through their list.
    pub fn pieces(&self, level: Level) -> u32
        requires { level ≤ largest_level }
        ensures { result ≡ length (listed self.now.store.order level) }
    {
        count_pieces(&self.arena, level)
    }

    /// How many words lie in free pieces, which is in no block. It goes through all lists.
    pub fn free_words(&self) -> u32
        ensures { result ≡ free_words self.now.store.order }
    {
        count_free_words(&self.arena)
    }

    /// The largest level with a free piece: that of the largest block that can be got.
    pub fn largest_free_level(&self) -> Option<Level>
        ensures { IsLargestFree self.now.store.order result }
    {
        largest_free_level(&self.arena)
    }

    /// Frees the block that begins at a place, if one does, and answers whether one did. If not,
    /// nothing changes.
    pub fn try_free(&mut self, place: Place) -> bool
        ensures live { result ≡ true ↔ IsLive self.old.store.blocks place }
        ensures after { result ≡ true
            → self.new.store ≡ after_free buddy_rule self.old.store place }
        ensures none { result ≡ false → self.new ≡ self.old }
        ensures sound { IsSound buddy_rule self.new.store }
    {
        let Some(level) = self.arena.level_at(place as usize) else {
            return false;
        };
        self.take_out(level, place);
        true
    }

    /// Frees the block of a level that begins at a place.
    fn take_out(&mut self, level: Level, place: Place)
        requires live { IsLive self.old.store.blocks place }
        requires small { level ≤ largest_level }
        requires level { 2 ^ level ≡ length (block_at self.old.store.blocks place) }
        ensures after { self.new.store ≡ after_free buddy_rule self.old.store place }
        ensures sound { IsSound buddy_rule self.new.store }
    {
        self.arena.close(place);
        join(&mut self.arena, &mut self.moves, level, place);
    }

    /// Of each buddy store, whatever calls made it what it is: its words and its heads hold its free
    /// lists, by the links in the first words of the free pieces. There is a word for each place, and the
    /// words of a block are those at its places.
    pub fn links_hold(&self)
        ensures links { Links self.now.words self.now.heads self.now.store.order }
        ensures count { length self.now.words ≡ end_of self.now.store.units }
        ensures blocks { AreAtTheirPlaces self.now.words self.now.store.blocks }
    {
        // a look at a field, by which the invariant is known
        let _arena = &self.arena;
    }

    /// And its blocks and its free pieces fill it: each word lies in a block or in just one free
    /// piece, and no two buddies are both free.
    pub fn tiles_hold(&self)
        ensures { Tiles self.now.store.units self.now.store.blocks self.now.store.order }
    {
        // a look at a field, by which the invariant is known
        let _arena = &self.arena;
    }
}

impl Places for Buddy {
    ghost use Rattle.l6_store.specs.Buddy.{buddy_rule};

    ghost rule = { buddy_rule };

    ghost store = { λ buddy. buddy.store };

    fn units(&self) -> u32 {
        self.arena.units()
    }

    fn live(&self, word: Word) -> Option<Level> {
        self.arena.level_at(word.get() as usize)
    }

    fn word(&self, start: Word, index: u16) -> Option<Word> {
        self.arena.word(start.get() as usize, index)
    }

    fn peek(&self, level: Level) -> Option<Place> {
        self.arena.first(self.arena.least_level(level)? as Level)
    }

    fn get(&mut self, level: Level) -> Option<Place> {
        self.moves = 0;
        let found = self.arena.least_level(level)?;
        let place = self.arena.pop(found);
        Some(open_piece(&mut self.arena, &mut self.moves, found, level, place))
    }

    fn free(&mut self, place: Place) {
        let level = self.arena.block_level(place);
        self.take_out(level, place);
    }

    fn copy(&mut self, from: Place, to: Place) {
        self.arena.copy(from, to);
    }

    fn read(&self, place: Place) -> Word {
        self.arena.read(place)
    }

    fn write(&mut self, place: Place, word: Word) {
        self.arena.write(place, word);
    }

    fn block(&self, place: Place) -> &[u64] {
        self.arena.block(place)
    }

    fn moves(&self) -> u32 {
        self.moves
    }

    fn duplicate(&self, alloc: Global) -> Result<Self, AllocError> {
        Ok(Buddy {
            arena: self.arena.duplicate(alloc)?,
            moves: self.moves,
        })
    }

    fn take_from(&mut self, _alloc: Global, other: &Self) -> Result<(), AllocError> {
        self.arena.take_from(&other.arena);
        self.moves = other.moves;
        Ok(())
    }

    fn reset(&mut self) {
        self.arena.reset();
        self.moves = 0;
    }
}
