//! The tags of a plain store: what is at each of its places.

ghost use Rattle.std.specs.Prelude.{◌≡◌, ℕ, ◌+◌, ◌<◌, ◌≤◌, ◌^◌, ◌↔◌, length, IsSome, IsTrue};
ghost use Rattle.l6_word.specs.Numerals.{largest_level};
ghost use Rattle.l6_store.specs.Numerals.{most_units};
ghost use Rattle.l6_store.specs.Blocks.{end_of};
ghost use Rattle.l6_store.specs.inner.Tags.{tag_at, level_of};
ghost use Rattle.l6_store.specs.inner.PlaceTags.{IsLowest, IsFull, IsRaised, IsTagged, IsFilled};

use crate::level::size_of;
use crate::places::{Level, Place};

/// What is at a place.
#[derive(Clone, Copy, Debug, PartialEq, Eq)]
pub(crate) enum Tag {
    /// No block.
    Free,
    /// The first word of a block of a level.
    First(Level),
    /// A later word of a block.
    Inside,
}

/// The level of the block that begins at a place, if one does.
pub(crate) fn level_at(tags: &[Tag], place: usize) -> Option<Level>
    ensures { result ≡ level_of (tag_at tags.now place) }
{
    match tags.get(place) {
        Some(Tag::First(level)) => Some(*level),
        Some(Tag::Free | Tag::Inside) | None => None,
    }
}

/// The level of the block that begins at a place. The caller owes that one does.
pub(crate) fn block_level(tags: &[Tag], place: usize) -> Level
    requires { IsSome (level_of (tag_at tags.now place)) }
    ensures { tag_at tags.now place ≡ Tag.First result }
{
    level_at(tags, place).unwrap()
}

/// Whether none of these places is in a block.
fn are_free(tags: &[Tag]) -> bool
    ensures { IsTrue result ↔ ((k : ℕ) → k < length tags.now → tag_at tags.now k ≡ Tag.Free) }
{
    tags.iter().all(|tag| *tag == Tag::Free)
}

/// The lowest place where a block of a level may be, where no place below `low` is free.
pub(crate) fn lowest_open(tags: &[Tag], low: usize, level: Level) -> Option<Place>
    requires small { level ≤ largest_level }
    requires count { length tags.now ≤ end_of most_units }
    requires full { IsFull tags.now low }
    ensures { IsLowest tags.now (2 ^ level) result }
{
    let size = size_of(level);
    for number in low / size..tags.len() / size {
        let place = number * size;
        if are_free(&tags[place..place + size]) {
            return Some(place as Place);
        }
    }
    None
}

/// The place below which none is free after a block is got, where none was free below `low`.
pub(crate) fn raised(low: usize, place: usize, level: Level) -> usize
    requires small { level ≤ largest_level }
    requires within { place ≤ end_of most_units }
    ensures { IsRaised low place level result }
{
    if level == 0 || place == low {
        place + size_of(level)
    } else {
        low
    }
}

/// Tags the places of a new block.
pub(crate) fn place_tag(tags: &mut [Tag], place: usize, level: Level)
    requires small { level ≤ largest_level }
    requires within { place + 2 ^ level ≤ length tags.old }
    ensures { IsTagged tags.old tags.new place level }
{
    fill(tags, place, size_of(level), Tag::Inside);
    tags[place] = Tag::First(level);
}

/// Tags so many places from one on alike.
pub(crate) fn fill(tags: &mut [Tag], place: usize, size: usize, tag: Tag)
    requires { place + size ≤ length tags.old }
    ensures { IsFilled tags.old tags.new place size tag }
{
    tags[place..place + size].fill(tag);
}
