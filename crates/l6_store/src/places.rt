//! What every store of blocks does.

ghost use Rattle.std.specs.Prelude.{◌≡◌, ◌≢◌, ◌<◌, ◌≤◌, ◌^◌, length, replicate, slice_get, slice_set, option_map, ◌↔◌, IsSome, IfSome, IfOk, OnErr, OnOk, Some};
ghost use Rattle.std.specs.List.{All};
ghost use Rattle.std.specs.FinMap as map;
ghost use Rattle.l6_word.specs.Numerals.{largest_level, unit_size, word_bits};
ghost use Rattle.l6_store.specs.Blocks.{IsLive, LiesIn, block_at, end_of, index_in, word_at};
ghost use Rattle.l6_store.specs.Numerals.{most_units};
ghost use Rattle.l6_store.specs.Open.{IsAnswer};
ghost use Rattle.l6_store.specs.Rule.{Rule};
ghost use Rattle.l6_store.specs.Store.{Store, IsSound, fresh, picked, with_block, after_get, after_free};

use crate::units::end_of;
use l6_word::Word;
use std::alloc::{AllocError, Global};

/// The place of a word in a store. The first unit begins at the place `UNIT_SIZE`, so place 0 is no
/// block.
pub type Place = u32;

/// The level of a block, 0 to `LARGEST_LEVEL`. A block of level k has `2^k` words.
pub type Level = u8;

/// A store of blocks. A block of `2^k` words begins at a multiple of `2^k`, and no two blocks share
/// a word.
///
/// The store's rule of choice decides which of the open places a get gives. It may keep an order of
/// places beside the blocks.
pub trait Places: Sized {
    // The rule of choice.
    ghost rule: { Rule };

    // The units, the blocks, the order of the rule, and the moves of the last get or free.
    ghost store: { Self → Store };

    /// How many units the store has.
    fn units(&self) -> u32
        ensures value { result ≡ (store self.now).units }
        ensures sound { IsSound rule (store self.now) };

    /// The level of the block that begins at the place of this number, or `None` where none does.
    fn live(&self, word: Word) -> Option<Level>
        ensures live { IsSome result ↔ IsLive (store self.now).blocks word }
        ensures size { option_map (λ level. 2 ^ level) result
            ≡ option_map length (map.get (store self.now).blocks word) }
        ensures level { IfSome result (λ level. level ≤ largest_level) };

    /// The word of this index in the block that begins at the place of this number, or `None` where
    /// none begins or the block has no such word.
    fn word(&self, start: Word, index: u16) -> Option<Word>
        ensures value { result ≡ slice_get (block_at (store self.now).blocks start) index }
        ensures near { IfSome result
            (λ _. (start < end_of most_units) × (index < unit_size)) }
    {
        // there is no block past the last unit
        let end = u64::from(end_of(self.units()));
        if end <= start.get() {
            return None;
        }
        self.live(start)?;
        let word = self.block(start.get() as Place).get(usize::from(index))?;
        Some(Word::from_value(*word))
    }

    /// The place that `get` would give.
    fn peek(&self, level: Level) -> Option<Place>
        requires { level ≤ largest_level }
        ensures pick { result ≡ picked rule (store self.now) level }
        ensures fits { IsAnswer (store self.now).units (store self.now).blocks (2 ^ level) result };

    /// Makes a block of zeros at the place that the rule picks, or answers `None` where no place is
    /// open. Then blocks and order are unchanged.
    fn get(&mut self, level: Level) -> Option<Place>
        requires { level ≤ largest_level }
        ensures pick { result ≡ picked rule (store self.old) level }
        ensures fits { IsAnswer (store self.old).units (store self.old).blocks (2 ^ level) result }
        ensures after { store self.new ≡ after_get rule (store self.old) level result }
        ensures block { IfSome result (λ place. map.get (store self.new).blocks place
            ≡ Some (replicate (2 ^ level) 0)) }
        ensures sound { IsSound rule (store self.new) };

    /// Takes out the block that begins at this place. The caller owes that one does.
    fn free(&mut self, place: Place)
        requires { IsLive (store self.old).blocks place }
        ensures after { store self.new ≡ after_free rule (store self.old) place }
        ensures sound { IsSound rule (store self.new) };

    /// Copies the words of a block into another. The caller owes two different blocks of one size.
    fn copy(&mut self, from: Place, to: Place)
        requires from_live { IsLive (store self.old).blocks from }
        requires to_live { IsLive (store self.old).blocks to }
        requires different { from ≢ to }
        requires size { length (block_at (store self.old).blocks from)
            ≡ length (block_at (store self.old).blocks to) }
        ensures after { store self.new
            ≡ with_block (store self.old) to (block_at (store self.old).blocks from) }
        ensures sound { IsSound rule (store self.new) };

    /// The word at a place. The caller owes that the place lies in a block.
    fn read(&self, place: Place) -> Word
        requires { LiesIn (store self.now).blocks place }
        ensures { (found : LiesIn (store self.now).blocks place) → result ≡ word_at place found };

    /// Writes a word at a place. The caller owes that the place lies in a block.
    fn write(&mut self, place: Place, word: Word)
        requires { LiesIn (store self.old).blocks place }
        ensures after { (found : LiesIn (store self.old).blocks place)
            → store self.new
            ≡ with_block (store self.old) found.start
            (slice_set found.words (index_in place found) word) }
        ensures sound { IsSound rule (store self.new) };

    /// The words of the block that begins at this place. The caller owes that one does.
    fn block(&self, place: Place) -> &[u64]
        requires { IsLive (store self.now).blocks place }
        ensures value { result.now ≡ block_at (store self.now).blocks place }
        ensures words { All (λ word. word < 2 ^ word_bits) result.now };

    /// How often the last get halved a piece of the store, or the last free joined two: 0 before any,
    /// after a refused get, and by a rule that does neither.
    fn moves(&self) -> u32
        ensures value { result ≡ (store self.now).moves }
        ensures few { result ≤ largest_level };

    /// A copy of the store, in memory of its own, with the same order and moves.
    fn duplicate(&self, alloc: Global) -> Result<Self, AllocError>
        ensures same { IfOk result (λ copy. store copy ≡ store self.now) }
        ensures sound { IfOk result (λ copy. IsSound rule (store copy)) };

    /// Becomes the same as another store, its order and moves included. The caller owes that it has as
    /// many units. Unless a store does better, it becomes a copy. The stores of this crate keep their
    /// memory, and take none.
    ///
    /// # Errors
    ///
    /// Memory ran out. Then nothing has changed.
    fn take_from(&mut self, alloc: Global, other: &Self) -> Result<(), AllocError>
    where
        Self: Drop,
        requires { (store self.old).units ≡ (store other.now).units }
        ensures ok { OnOk result (store self.new ≡ store other.now) }
        ensures err { OnErr result (store self.new ≡ store self.old) }
        ensures sound { OnOk result (IsSound rule (store self.new)) }
    {
        *self = other.duplicate(alloc)?;
        Ok(())
    }

    /// Takes out all blocks. The store is then as it was made.
    fn reset(&mut self)
        ensures after { store self.new ≡ fresh rule (store self.old).units }
        ensures sound { IsSound rule (store self.new) };
}
