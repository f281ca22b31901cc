//! How a free piece is found, halved and joined with its buddy.

ghost use Rattle.std.specs.Prelude.{[], ℕ, ◌≡◌, ◌+◌, ◌-◌, ◌%◌, ◌^◌, ◌<◌, ◌≤◌, true, false, length, replicate};
ghost use Rattle.std.specs.FinMap as map;
ghost use Rattle.l6_word.specs.Numerals.{largest_level, unit_size};
ghost use Rattle.l6_store.specs.Numerals.{most_units, place_bits};
ghost use Rattle.l6_store.specs.Blocks.{IsAlignedPlace, end_of};
ghost use Rattle.l6_store.specs.Buddy.{IsLargestFree, IsListed, buddy_of, free_words, halved_often, has, listed, piece_freed, put_back, taken_out, whole_of};
ghost use Rattle.l6_store.specs.inner.Detached.{IsDetached};
ghost use Rattle.l6_store.specs.inner.ArenaLayout.{IsSoundLayout};

use crate::arena::Arena;
use crate::places::{Level, Place};
use l6_word::LARGEST_LEVEL;

/// The largest level with a free piece.
pub(crate) fn largest_free_level(arena: &Arena) -> Option<Level>
    requires sound { IsSoundLayout arena.now }
    ensures { IsLargestFree arena.now.order result }
{
    let mut level = LARGEST_LEVEL;
    while arena.first(level).is_none() {
        if level == 0 {
            return None;
        }
        level -= 1;
    }
    Some(level)
}

/// How many free pieces a level has.
pub(crate) fn count_pieces(arena: &Arena, level: Level) -> u32
    requires sound { IsSoundLayout arena.now }
    requires level { level ≤ largest_level }
    ensures count { result ≡ length (listed arena.now.order level) }
    ensures few { result ≤ 2 ^ place_bits }
{
    let mut count = 0;
    let mut place = arena.first(level);
    while let Some(piece) = place {
        count += 1;
        place = arena.next(level, piece);
    }
    count
}

/// How many words all free pieces have.
pub(crate) fn count_free_words(arena: &Arena) -> u32
    requires sound { IsSoundLayout arena.now }
    ensures { result ≡ free_words arena.now.order }
{
    let mut words = 0;
    let mut level = 0;
    while level <= LARGEST_LEVEL {
        words += count_pieces(arena, level) << level;
        level += 1;
    }
    words
}

/// Halves a detached piece until it has the level asked for, and answers how often. Each upper half
/// goes into its list, and the lower one is kept. The caller owes that no piece is free of the levels
/// from the one asked for on and below that of the piece, so the lists are empty.
pub(crate) fn halve(arena: &mut Arena, from: usize, level: Level, place: Place) -> u32
    requires sound { IsSoundLayout arena.old }
    requires enough { level ≤ from }
    requires least { (k : ℕ) → level ≤ k → k < from → listed arena.old.order k ≡ [] }
    requires held { IsDetached arena.old.units arena.old.blocks
        (record { order = arena.old.order; level = from; place = place }) }
    ensures order { arena.new.order
        ≡ (halved_often (from - level)
        (record { order = arena.old.order; level = from; place = place })).order }
    ensures held { IsDetached arena.old.units arena.old.blocks
        (record { order = arena.new.order; level = level; place = place }) }
    ensures moves { result + level ≡ from }
    ensures units { arena.new.units ≡ arena.old.units }
    ensures blocks { arena.new.blocks ≡ arena.old.blocks }
    ensures sound { IsSoundLayout arena.new }
{
    let level = level as usize;
    let mut now = from;
    let mut size: Place = 1 << from;
    while level < now {
        now -= 1;
        size /= 2;
        arena.link_alone(now, place + size);
    }
    (from - level) as u32
}

/// Makes the lower end of a detached piece a block of zeros of the level asked for, and answers its
/// place. `moves`, which is 0 before, is how often the piece was halved for that.
pub(crate) fn open_piece(
    arena: &mut Arena,
    moves: &mut u32,
    from: usize,
    level: Level,
    place: Place,
) -> Place
    requires sound { IsSoundLayout arena.old }
    requires enough { level ≤ from }
    requires least { (k : ℕ) → level ≤ k → k < from → listed arena.old.order k ≡ [] }
    requires held { IsDetached arena.old.units arena.old.blocks
        (record { order = arena.old.order; level = from; place = place }) }
    requires none { moves.old ≡ 0 }
    ensures place { result ≡ place }
    ensures order { arena.new.order
        ≡ (halved_often (from - level)
        (record { order = arena.old.order; level = from; place = place })).order }
    ensures moves { moves.new + level ≡ from }
    ensures units { arena.new.units ≡ arena.old.units }
    ensures blocks { arena.new.blocks
        ≡ map.insert arena.old.blocks place (replicate (2 ^ level) 0) }
    ensures sound { IsSoundLayout arena.new }
{
    if (level as usize) < from {
        return open_part(arena, moves, from, level, place);
    }
    arena.open(level, place);
    place
}

/// The same of a piece that is larger. It answers the place, so that nothing is left to do after it, and
/// a get that halves no piece saves no registers for its sake.
#[inline(never)]
fn open_part(arena: &mut Arena, moves: &mut u32, from: usize, level: Level, place: Place) -> Place
    requires sound { IsSoundLayout arena.old }
    requires enough { level ≤ from }
    requires least { (k : ℕ) → level ≤ k → k < from → listed arena.old.order k ≡ [] }
    requires held { IsDetached arena.old.units arena.old.blocks
        (record { order = arena.old.order; level = from; place = place }) }
    ensures place { result ≡ place }
    ensures order { arena.new.order
        ≡ (halved_often (from - level)
        (record { order = arena.old.order; level = from; place = place })).order }
    ensures moves { moves.new + level ≡ from }
    ensures units { arena.new.units ≡ arena.old.units }
    ensures blocks { arena.new.blocks
        ≡ map.insert arena.old.blocks place (replicate (2 ^ level) 0) }
    ensures sound { IsSoundLayout arena.new }
{
    *moves = halve(arena, from, level, place);
    arena.open(level, place);
    place
}

/// The other half of the piece of which a piece of a level is one half: their places differ in the bit
/// of the level.
fn buddy_of(level: Level, place: Place) -> Place
    requires level { level < largest_level }
    requires aligned { place % 2 ^ level ≡ 0 }
    ensures { result ≡ buddy_of level place }
{
    place ^ (1 << level)
}

/// Whether a piece has a buddy that is free and whole.
fn may_join(arena: &Arena, level: Level, place: Place) -> bool
    requires { IsAlignedPlace arena.now.units level place }
    ensures free { result ≡ true
        → (level < largest_level) × IsListed arena.now.order level (buddy_of level place) }
    ensures alone { result ≡ false → level < largest_level
        → has (buddy_of level place) (listed arena.now.order level) ≡ false }
{
    level < LARGEST_LEVEL && arena.is_listed(level, buddy_of(level, place))
}

/// Joins a detached piece with its buddy as long as that one is free, and puts the result in front of
/// its list. `moves` is how often it was joined.
pub(crate) fn join(arena: &mut Arena, moves: &mut u32, level: Level, place: Place)
    requires sound { IsSoundLayout arena.old }
    requires held { IsDetached arena.old.units arena.old.blocks
        (record { order = arena.old.order; level = level; place = place }) }
    ensures order { arena.new.order ≡ put_back (piece_freed arena.old.order level place) }
    ensures moves { moves.new + level ≡ (piece_freed arena.old.order level place).level }
    ensures units { arena.new.units ≡ arena.old.units }
    ensures blocks { arena.new.blocks ≡ arena.old.blocks }
    ensures sound { IsSoundLayout arena.new }
{
    if may_join(arena, level, place) {
        join_often(arena, moves, level, place);
    } else {
        arena.link(level, place);
        *moves = 0;
    }
}

/// Takes the buddy of a detached piece out of its list, and answers where the two begin, which are one
/// piece from then on.
fn join_buddy(arena: &mut Arena, level: Level, place: Place) -> Place
    requires level { level < largest_level }
    requires aligned { place % 2 ^ level ≡ 0 }
    requires free { IsListed arena.old.order level (buddy_of level place) }
    ensures place { result ≡ whole_of level place }
    ensures order { arena.new.order ≡ taken_out arena.old.order level (buddy_of level place) }
    ensures units { arena.new.units ≡ arena.old.units }
    ensures blocks { arena.new.blocks ≡ arena.old.blocks }
    ensures sound { IsSoundLayout arena.new }
{
    let buddy = buddy_of(level, place);
    arena.unlink(level, buddy);
    place.min(buddy)
}

/// The same of a piece whose buddy is free. It is a function of its own so that a free that joins nothing
/// saves no registers for its sake.
#[inline(never)]
fn join_often(arena: &mut Arena, moves: &mut u32, level: Level, mut place: Place)
    requires sound { IsSoundLayout arena.old }
    requires free { (level < largest_level) × IsListed arena.old.order level (buddy_of level place) }
    requires held { IsDetached arena.old.units arena.old.blocks
        (record { order = arena.old.order; level = level; place = place }) }
    ensures order { arena.new.order ≡ put_back (piece_freed arena.old.order level place) }
    ensures moves { moves.new + level ≡ (piece_freed arena.old.order level place).level }
    ensures units { arena.new.units ≡ arena.old.units }
    ensures blocks { arena.new.blocks ≡ arena.old.blocks }
    ensures sound { IsSoundLayout arena.new }
{
    place = join_buddy(arena, level, place);
    let mut now = level + 1;
    while may_join(arena, now, place) {
        place = join_buddy(arena, now, place);
        now += 1;
    }
    arena.link(now, place);
    *moves = u32::from(now - level);
}
