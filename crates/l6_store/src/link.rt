//! The links of the free lists, which are in the words of a store.

ghost use Rattle.std.specs.Prelude.{◌≡◌, ℕ, ◌<◌, ◌≤◌, ◌^◌, true, false, List, ◌∷◌, length, slice_index, slice_set};
ghost use Rattle.l6_store.specs.Numerals.{place_bits};
ghost use Rattle.l6_store.specs.Buddy.{has, without};
ghost use Rattle.l6_store.specs.Links.{link_word};
ghost use Rattle.l6_store.specs.inner.Chains.{after_in, before_in, with_after, with_before, with_head, words_linked, words_unlinked};
ghost use Rattle.l6_store.specs.inner.FreeLists.{IsFreeList};

use crate::places::{Level, Place};
use l6_raw::Region;

/// How many bits of a word a place takes.
pub(crate) const PLACE_BITS: u32 = 18;

/// The places before and after a free piece in its list, 0 where there is none.
#[derive(Clone, Copy, Debug, PartialEq, Eq)]
pub(crate) struct Neighbors {
    pub(crate) before: Place,
    pub(crate) after: Place,
}

/// The link in the first word of a free piece.
pub(crate) fn neighbors_at(words: &Region, place: Place) -> Neighbors
    requires { place < length words.now }
    ensures before { result.before ≡ before_in (slice_index words.now place) }
    ensures after { result.after ≡ after_in (slice_index words.now place) }
    ensures before_small { result.before < 2 ^ place_bits }
    ensures after_small { result.after < 2 ^ place_bits }
{
    let word = words.read(place as usize);
    Neighbors {
        before: (word >> PLACE_BITS) as Place,
        after: (word % (1 << PLACE_BITS)) as Place,
    }
}

/// Puts a link into the first word of a free piece.
fn set_neighbors(words: &mut Region, place: Place, neighbors: Neighbors)
    requires place { place < length words.old }
    requires before { neighbors.before < 2 ^ place_bits }
    requires after { neighbors.after < 2 ^ place_bits }
    ensures { words.new
        ≡ slice_set words.old place (link_word neighbors.before neighbors.after) }
{
    let word = (u64::from(neighbors.before) << PLACE_BITS) + u64::from(neighbors.after);
    words.write(place as usize, word);
}

/// Makes `before` the place before this one in its list. Place 0 is the end of a list and has none.
fn set_before(words: &mut Region, place: Place, before: Place)
    requires place { place < length words.old }
    requires before { before < 2 ^ place_bits }
    ensures { words.new ≡ with_before words.old place before }
{
    if place != 0 {
        let after = neighbors_at(words, place).after;
        set_neighbors(words, place, Neighbors { before, after });
    }
}

/// Makes `after` the place after this one in the list of a level. Place 0 is its beginning, so the
/// head changes.
fn set_after(words: &mut Region, heads: &mut [Place], level: Level, place: Place, after: Place)
    requires level { level < length heads.old }
    requires place { place < length words.old }
    requires after { after < 2 ^ place_bits }
    ensures words { words.new ≡ with_after words.old place after }
    ensures heads { heads.new ≡ with_head heads.old level place after }
{
    if place == 0 {
        heads[usize::from(level)] = after;
    } else {
        let before = neighbors_at(words, place).before;
        set_neighbors(words, place, Neighbors { before, after });
    }
}

/// Puts a free piece in front of the list of its level: the list after it is the one before it, with
/// the piece as its first.
pub(crate) fn link(words: &mut Region, heads: &mut [Place], level: Level, place: Place)
    requires level { level < length heads.old }
    requires some { 1 ≤ place }
    requires place { place < length words.old }
    requires head { slice_index heads.old level < length words.old }
    requires small { length words.old ≤ 2 ^ place_bits }
    ensures list { (places : List ℕ) → IsFreeList words.old heads.old level places
        → has place places ≡ false → IsFreeList words.new heads.new level (place ∷ places) }
    // The words at the places of other lists stay the same.
    ensures words { words.new ≡ words_linked words.old place (slice_index heads.old level) }
    ensures heads { heads.new ≡ slice_set heads.old level place }
{
    let after = heads[usize::from(level)];
    set_neighbors(words, place, Neighbors { before: 0, after });
    set_before(words, after, place);
    heads[usize::from(level)] = place;
}

/// Puts a free piece into the list of its level, which is empty.
pub(crate) fn link_alone(words: &mut Region, heads: &mut [Place], level: usize, place: Place)
    requires level { level < length heads.old }
    requires place { place < length words.old }
    requires alone { slice_index heads.old level ≡ 0 }
    ensures words { words.new ≡ words_linked words.old place (slice_index heads.old level) }
    ensures heads { heads.new ≡ slice_set heads.old level place }
{
    words.write(place as usize, 0);
    heads[level] = place;
}

/// Takes a free piece out of the list of its level: the list after it is the one before it, without
/// the piece.
pub(crate) fn unlink(words: &mut Region, heads: &mut [Place], level: Level, place: Place)
    requires level { level < length heads.old }
    requires place { place < length words.old }
    requires before { before_in (slice_index words.old place) < length words.old }
    requires after { after_in (slice_index words.old place) < length words.old }
    requires small { length words.old ≤ 2 ^ place_bits }
    ensures list { (places : List ℕ) → IsFreeList words.old heads.old level places
        → has place places ≡ true → IsFreeList words.new heads.new level (without place places) }
    // The words at the places of other lists stay the same.
    ensures words { words.new ≡ words_unlinked words.old place }
    ensures heads { heads.new
        ≡ with_head heads.old level (before_in (slice_index words.old place))
        (after_in (slice_index words.old place)) }
{
    if words.read(place as usize) == 0 {
        // it is alone in its list, as most pieces are that are joined
        heads[usize::from(level)] = 0;
        return;
    }
    let neighbors = neighbors_at(words, place);
    set_after(words, heads, level, neighbors.before, neighbors.after);
    set_before(words, neighbors.after, neighbors.before);
}

/// Takes the first free piece out of the list of a level: the list after it is the rest of the one
/// before it.
pub(crate) fn pop(words: &mut Region, heads: &mut [Place], level: usize) -> Place
    requires level { level < length heads.old }
    requires place { slice_index heads.old level < length words.old }
    requires first { let place = slice_index heads.old level in
        before_in (slice_index words.old place) ≡ 0 }
    requires after { let place = slice_index heads.old level in
        after_in (slice_index words.old place) < length words.old }
    requires small { length words.old ≤ 2 ^ place_bits }
    ensures list { (first : ℕ) (rest : List ℕ) → IsFreeList words.old heads.old level (first ∷ rest)
        → (result ≡ first) × IsFreeList words.new heads.new level rest }
    ensures place { result ≡ slice_index heads.old level }
    ensures words { words.new ≡ words_unlinked words.old result }
    ensures heads { heads.new
        ≡ with_head heads.old level (before_in (slice_index words.old result))
        (after_in (slice_index words.old result)) }
{
    let place = heads[level];
    let next = neighbors_at(words, place).after;
    heads[level] = next;
    set_before(words, next, 0);
    place
}
