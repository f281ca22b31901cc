//! What is at the places of a buddy store.

ghost use Rattle.std.specs.Prelude.{◌≡◌, ◌+◌, ◌<◌, ◌≤◌, length, replicate, slice_set, IfOk};
ghost use Rattle.l6_word.specs.Numerals.{largest_level};
ghost use Rattle.l6_store.specs.declared.place_tag.PlaceTag.TheVariants.{Inner, Block, Listed};
ghost use Rattle.l6_store.specs.declared.tag.Tag.TheVariants.{Free};
ghost use Rattle.l6_store.specs.Blocks.{end_of};
ghost use Rattle.l6_store.specs.Numerals.{most_units};
ghost use Rattle.l6_store.specs.inner.Tags.{level_of, size_by};
ghost use Rattle.l6_store.specs.inner.ArenaLayout.{place_tag_at, tag_of};
ghost use Rattle.l6_store.specs.inner.Units.{AreUnitsUnused};

use crate::level::size_of;
use crate::places::{Level, Place};
use crate::units::take_units;
use std::alloc::{AllocError, Global};
use std::marker::Model;

/// What begins at a place, if anything does.
#[derive(Clone, Copy, Debug, PartialEq, Eq)]
pub(crate) enum PlaceTag {
    /// Nothing: the word is a later one of a block or of a free piece.
    Inner,
    /// A block of a level.
    Block(Level),
    /// A free piece of a level, which is in that level's list.
    Listed(Level),
}

/// The tag of each place.
#[derive(Drop)]
pub(crate) struct PlaceTags {
    place_tags: Vec<PlaceTag>,
    // how many words the block has that begins at each place, 0 where none begins: so one
    // comparison decides whether a block begins there and has a word of some index
    sizes: Vec<u16>,
}

impl Model for PlaceTags {
    ghost use Rattle.std.specs.Prelude.{List, length, ◌≤◌};
    ghost use Rattle.l6_store.specs.Blocks.{end_of};
    ghost use Rattle.l6_store.specs.Numerals.{most_units};
    ghost use Rattle.l6_store.specs.declared.place_tag.PlaceTag.{PlaceTag as OneTag};
    ghost use Rattle.l6_store.specs.inner.ArenaLayout.{AreTagSizes};

    ghost Value = { List OneTag };

    ghost view = { λ m. m.place_tags.items };

    ghost invariant = { λ m. AreTagSizes m.place_tags.items m.sizes.items
        × (length m.place_tags.items ≤ end_of most_units) };
}

impl PlaceTags {
    /// The tags of so many places, at which nothing begins.
    pub(crate) fn new(alloc: Global, places: usize) -> Result<Self, AllocError>
        requires { places ≤ end_of most_units }
        ensures { IfOk result (λ place_tags. place_tags ≡ replicate places Inner) }
    {
        Ok(PlaceTags {
            place_tags: vec![in alloc; PlaceTag::Inner; places]?,
            sizes: vec![in alloc; 0; places]?,
        })
    }

    /// Tags each place: nothing begins there.
    pub(crate) fn clear(&mut self)
        ensures { self.new ≡ replicate (length self.old) Inner }
    {
        self.place_tags.fill(PlaceTag::Inner);
        self.sizes.fill(0);
    }

    /// The tag of a place.
    pub(crate) fn at(&self, place: Place) -> PlaceTag
        requires { place < length self.now }
        ensures { result ≡ place_tag_at self.now place }
    {
        self.place_tags[place as usize]
    }

    /// Tags a place: a free piece of a level begins there, and is listed. The caller owes that no block
    /// does.
    pub(crate) fn list(&mut self, place: Place, level: Level)
        requires place { place < length self.old }
        requires beside { tag_of (place_tag_at self.old place) ≡ Free }
        ensures { self.new ≡ slice_set self.old place (Listed level) }
    {
        self.place_tags[place as usize] = PlaceTag::Listed(level);
    }

    /// Tags a place: the free piece that begins there is listed no more. The caller owes that no block
    /// begins there.
    pub(crate) fn take_out(&mut self, place: Place)
        requires place { place < length self.old }
        requires beside { tag_of (place_tag_at self.old place) ≡ Free }
        ensures { self.new ≡ slice_set self.old place Inner }
    {
        self.place_tags[place as usize] = PlaceTag::Inner;
    }

    /// Tags a place: a block of a level begins there.
    pub(crate) fn open(&mut self, place: Place, level: Level)
        requires place { place < length self.old }
        requires level { level ≤ largest_level }
        ensures { self.new ≡ slice_set self.old place (Block level) }
    {
        let place = place as usize;
        self.sizes[place] = size_of(level) as u16;
        self.place_tags[place] = PlaceTag::Block(level);
    }

    /// Tags a place: the block that began there is taken out.
    pub(crate) fn close(&mut self, place: Place)
        requires { place < length self.old }
        ensures { self.new ≡ slice_set self.old place Inner }
    {
        self.sizes[place as usize] = 0;
        self.place_tags[place as usize] = PlaceTag::Inner;
    }

    /// The level of the block that begins at a place, if one does.
    pub(crate) fn level(&self, place: usize) -> Option<Level>
        ensures { result ≡ level_of (tag_of (place_tag_at self.now place)) }
    {
        match self.place_tags.get(place) {
            Some(PlaceTag::Block(level)) => Some(*level),
            Some(PlaceTag::Inner | PlaceTag::Listed(_)) | None => None,
        }
    }

    /// How many words the block has that begins at a place, 0 where none begins.
    pub(crate) fn size(&self, place: usize) -> u16
        ensures { result ≡ size_by (tag_of (place_tag_at self.now place)) }
    {
        self.sizes.get(place).copied().unwrap_or(0)
    }

    /// Takes over the tags of as many other places. Of a unit that is used in neither only the first
    /// is taken: the caller owes that nothing else begins in it.
    pub(crate) fn take_from(&mut self, other: &PlaceTags, used: &[bool], other_used: &[bool])
        requires long { length self.old ≡ length other.now }
        requires units { (length used.now ≡ most_units + 1)
            × (length other_used.now ≡ most_units + 1) }
        requires unused { AreUnitsUnused self.old used.now }
        requires other_unused { AreUnitsUnused other.now other_used.now }
        ensures { self.new ≡ other.now }
    {
        let tags = &mut self.place_tags;
        take_units(tags, &other.place_tags, used, other_used, true);
        take_units(&mut self.sizes, &other.sizes, used, other_used, false);
    }

    /// A copy of the tags, in memory of its own.
    pub(crate) fn duplicate(&self, alloc: Global) -> Result<Self, AllocError>
        ensures { IfOk result (λ copy. copy ≡ self.now) }
    {
        Ok(PlaceTags {
            place_tags: self.place_tags.to_vec(alloc)?,
            sizes: self.sizes.to_vec(alloc)?,
        })
    }
}
