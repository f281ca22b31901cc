//! Boards: the places that an allocator has, without their words.

ghost use Rattle.std.specs.Prelude.{◌≡◌, ◌↔◌, ◌⊎◌, true, false, ◌+◌, ◌*◌, ◌/◌, ◌<◌, ◌≤◌, ◌^◌, IfOk, IfNone, IfSome, IsErrOf, IsSome};
ghost use Rattle.l6_places.specs.Numerals.{largest_top};
ghost use Rattle.l6_places.specs.Board.{IsLargest, IsLowest, IsNextBlock, IsOpen, IsOpenLevel, after_get, emptied, free_places, fresh, level_at, places_in, released, taken};
ghost use Rattle.l6_places.specs.Hindrance.{Hinders};

use crate::tree::Tree;
use std::alloc::{AllocError, Global};
use std::marker::Model;
use thiserror::Error;

/// A level: a block of it has 2^level places.
pub type Level = u8;

/// A place.
pub type Place = u32;

/// The largest level that a board may have.
pub const MAX_TOP: Level = 24;

/// Why no board was made.
#[derive(Clone, Copy, Debug, Error, PartialEq, Eq)]
pub enum BoardFault {
    /// Memory ran out.
    #[error("out of memory")]
    NoMemory,
    /// The board would be too large, or its places end before they begin or past the board.
    #[error("places out of range")]
    BadPlaces,
}

impl From<AllocError> for BoardFault {
    ghost use Rattle.std.specs.Prelude.{◌≡◌};
    ghost use Rattle.l6_places.specs.declared.board.BoardFault.TheVariants.{NoMemory};

    ghost from_gives = { λ _ fault. fault ≡ NoMemory };

    fn from(_error: AllocError) -> Self {
        BoardFault::NoMemory
    }
}

/// An aligned run of places.
#[derive(Clone, Copy, Debug, PartialEq, Eq)]
pub struct Piece {
    /// The first of them.
    pub place: Place,
    /// It has 2^level of them.
    pub level: Level,
}

/// How many places a block of a level has.
fn size_of(level: Level) -> u64
    requires { level ≤ largest_top }
    ensures { result ≡ 2 ^ level }
{
    1 << level
}

/// Why a block may not be put at a place.
#[derive(Clone, Copy, Debug, PartialEq, Eq)]
pub enum Hindrance {
    /// The place is no multiple of the block's size.
    Misaligned,
    /// The block would begin before the first place or end after the last.
    Outside,
    /// The block that begins at this place has some of the places.
    Overlaps(Place),
}

/// The blocks of an allocator, each at a place. A get is given the lowest open place, in as many steps as there are
/// levels. It takes 3 bytes for each of 2^top places, all allocated when it is made.
#[derive(Drop)]
pub struct Board {
    tree: Tree,
    // how many places all blocks have
    used: u64,
}

impl Model for Board {
    ghost use Rattle.l6_places.specs.Board.{Board as Places, board_code};

    ghost Value = { Places };

    ghost coded = { board_code };

    ghost use Rattle.std.specs.Prelude.{◌≡◌, ◌*◌, ◌≤◌, ◌^◌};
    ghost use Rattle.l6_places.specs.Numerals.{largest_top};
    ghost use Rattle.l6_places.specs.Board.{places_in};
    ghost use Rattle.l6_places.specs.inner.Tree.{IsTold};
    ghost use Rattle.l6_places.specs.inner.View.{board_of};

    ghost view = { λ b. board_of b.tree };

    ghost invariant = { λ b. IsTold (board_of b.tree) b.tree.nodes.items × (b.tree.top ≤ largest_top)
        × (b.used ≡ places_in b.tree.marks.items) × (b.used ≤ b.tree.most)
        × (b.tree.most ≤ 2 ^ largest_top * 2 ^ largest_top) };
}

impl Board {
    /// A board without blocks, on which the places from one up to another are given out.
    ///
    /// # Errors
    ///
    /// `BadPlaces` exactly for more than 24 levels, or places that end before they begin or past
    /// 2^top, before anything is allocated; or out of memory.
    pub fn new(alloc: Global, top: Level, first: Place, end: Place) -> Result<Self, BoardFault>
        ensures fresh { IfOk result (λ board. board ≡ fresh top first end) }
        ensures bad { IsErrOf result BoardFault.BadPlaces ↔ ((largest_top < top) ⊎ (end < first) ⊎ (2 ^ top < end)) }
    {
        if MAX_TOP < top || end < first || 1 << top < end {
            return Err(BoardFault::BadPlaces);
        }
        Ok(Board {
            tree: Tree::new(alloc, top, first, end)?,
            used: 0,
        })
    }

    /// The same board once more.
    ///
    /// # Errors
    ///
    /// Memory ran out.
    pub fn duplicate(&self) -> Result<Self, AllocError>
        ensures same { IfOk result (λ board. board ≡ self.now) }
    {
        Ok(Board {
            tree: self.tree.duplicate()?,
            used: self.used,
        })
    }

    /// Takes out all blocks.
    pub fn reset(&mut self)
        ensures after { self.new ≡ emptied self.old }
    {
        self.tree.reset();
        self.used = 0;
    }

    /// The largest level that a block may have.
    pub fn top(&self) -> Level
        ensures value { result ≡ self.now.top }
        ensures small { result ≤ largest_top }
    {
        self.tree.top()
    }

    /// The lowest open place of a level, if one is open.
    pub fn find(&self, level: Level) -> Option<Place>
        requires { level ≤ self.now.top }
        ensures { IsLowest self.now (2 ^ level) result }
    {
        self.tree.find(level)
    }

    /// Whether a block of a level may be put at a place: it is aligned, on the board, and in no block.
    pub fn is_open(&self, level: Level, place: Place) -> bool
        requires { level ≤ self.now.top }
        ensures { result ≡ true ↔ IsOpen self.now (2 ^ level) place }
    {
        self.tree.is_open(level, place)
    }

    /// Why a block of a level may not be put at a place, if it may not.
    pub fn hindrance(&self, level: Level, place: Place) -> Option<Hindrance>
        requires { level ≤ self.now.top }
        ensures none { IsSome result → IsOpen self.now (2 ^ level) place → ⊥ }
        ensures legal { IfNone result (IsOpen self.now (2 ^ level) place) }
        ensures cause { IfSome result (λ hindrance. Hinders self.now level place hindrance) }
    {
        if self.tree.is_open(level, place) {
            return None;
        }
        if place % (1 << level) != 0 {
            return Some(Hindrance::Misaligned);
        }
        if self.tree.is_outside(level, place) {
            return Some(Hindrance::Outside);
        }
        match self.tree.in_the_way(level, place) {
            Some(other) => Some(Hindrance::Overlaps(other)),
            None => None,
        }
    }

    /// Gets a block of a level, at the lowest open place.
    pub fn get(&mut self, level: Level) -> Option<Place>
        requires { level ≤ self.old.top }
        ensures lowest { IsLowest self.old (2 ^ level) result }
        ensures after { self.new ≡ after_get self.old level result }
    {
        let (node, place) = self.tree.lowest(level)?;
        self.take(level, node, place);
        Some(place)
    }

    /// Puts a block of a level at a place, if it is open.
    pub fn try_reserve(&mut self, level: Level, place: Place) -> bool
        requires { level ≤ self.old.top }
        ensures is_open { result ≡ true ↔ IsOpen self.old (2 ^ level) place }
        ensures after { result ≡ true → self.new ≡ taken self.old level place }
        ensures none { result ≡ false → self.new ≡ self.old }
    {
        if !self.tree.is_open(level, place) {
            return false;
        }
        let node = self.tree.node_at(level, place);
        self.take(level, node, place);
        true
    }

    /// Puts a block of a level at an open place, for which a node of the tree stands.
    fn take(&mut self, level: Level, node: usize, place: Place)
        requires level { level ≤ self.old.top }
        requires is_open { IsOpen self.old (2 ^ level) place }
        requires node { node ≡ (2 ^ self.old.top + place) / 2 ^ level }
        ensures { self.new ≡ taken self.old level place }
    {
        let used = self.used + size_of(level);
        self.tree.take(level, node, place, used);
        self.used = used;
    }

    /// The level of the block that begins at a place, if one does.
    pub fn level_at(&self, place: Place) -> Option<Level>
        ensures { result ≡ level_at self.now place }
    {
        self.tree.level_at(place)
    }

    /// Frees the block that begins at a place, if one does, and answers whether one did.
    pub fn try_free(&mut self, place: Place) -> bool
        ensures live { result ≡ true ↔ IsSome (level_at self.old place) }
        ensures after { result ≡ true → self.new ≡ released self.old place }
        ensures none { result ≡ false → self.new ≡ self.old }
    {
        let Some(level) = self.tree.level_at(place) else {
            return false;
        };
        self.tree.release(level, place);
        self.used -= size_of(level);
        true
    }

    /// The first place from one on at which a block begins, if one begins there or behind. It looks at each place on the
    /// way.
    pub fn next_block(&self, from: Place) -> Option<Place>
        ensures { IsNextBlock self.now from result }
    {
        let (_, end) = self.tree.bounds();
        self.tree.first_block(from, end)
    }

    /// The largest open piece, at the lowest place that one of its level has.
    pub fn largest_open(&self) -> Option<Piece>
        ensures { IsLargest self.now result }
    {
        self.tree.largest_open()
    }

    /// The largest level, up to a limit, of an open piece that has a place, if the place is open.
    pub fn open_level(&self, limit: Level, place: Place) -> Option<Level>
        requires { limit ≤ self.now.top }
        ensures { IsOpenLevel self.now limit place result }
    {
        self.tree.open_level(limit, place)
    }

    /// The most places that the blocks had at once, since the board was made or reset.
    pub fn most_used(&self) -> u64
        ensures value { result ≡ self.now.most }
        ensures now { places_in self.now.marks ≤ result }
        ensures few { result ≤ 2 ^ largest_top * 2 ^ largest_top }
    {
        self.tree.most()
    }

    /// How many of the places that are given out lie in no block.
    pub fn free_places(&self) -> u32
        ensures { result ≡ free_places self.now }
    {
        let (first, end) = self.tree.bounds();
        u64::from(end.saturating_sub(first)).saturating_sub(self.used) as u32
    }
}
