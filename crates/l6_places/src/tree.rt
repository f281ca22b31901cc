//! The tree above a board: for each node the largest level that is open below it. Node 1 stands for all places,
//! and below node n are 2n and 2n + 1. What lies below a block keeps its values, so a get and a free change one path.

ghost use Rattle.std.specs.Prelude.{◌≡◌, ◌↔◌, ◌⊎◌, ◌%◌, true, ◌+◌, ◌*◌, ◌/◌, ◌<◌, ◌≤◌, ◌^◌, IfOk, IfSome, IsSome, length, max, slice_index};
ghost use Rattle.std.specs.Option.{option_map};
ghost use Rattle.l6_places.specs.Numerals.{largest_top};
ghost use Rattle.l6_places.specs.Board as spec;
ghost use Rattle.l6_places.specs.Board.{Begins, IsLargest, IsLowest, IsOpen, IsOpenLevel, emptied, fresh, level_at, places_in, released, taken};
ghost use Rattle.l6_places.specs.inner.Settling.{Merges, Settles, Spreads};
ghost use Rattle.l6_places.specs.inner.Tree.{IsTold, buddy_of};
ghost use Rattle.l6_places.specs.inner.View.{board_of};
ghost use Rattle.l6_places.specs.inner.Ways.{IsCover, IsFirstBlock, IsInTheWay};

use crate::board::Piece;
use crate::building::{build, fill, join};
use std::alloc::{AllocError, Global};

/// A board and the tree above it.
#[derive(Drop)]
pub(crate) struct Tree {
    top: u8,
    first: u32,
    end: u32,
    // the most places that its blocks ever had at once
    most: u64,
    nodes: Vec<u8>,
    marks: Vec<u8>,
}

/// The other node below the same one.
fn buddy(node: usize) -> usize
    ensures { result ≡ buddy_of node }
{
    node ^ 1
}

/// Where the aligned piece of a level that has a place begins.
fn piece_start(level: u8, place: u32) -> u32
    requires { level ≤ largest_top }
    ensures { result ≡ spec.piece_start level place }
{
    place >> level << level
}

impl Tree {
    /// A tree above a board of so many levels, on which the places from one up to another are open.
    pub(crate) fn new(alloc: Global, top: u8, first: u32, end: u32) -> Result<Self, AllocError>
        requires top { top ≤ largest_top }
        requires order { first ≤ end }
        requires end { end ≤ 2 ^ top }
        ensures told { IfOk result (λ tree. IsTold (board_of tree) tree.nodes.items) }
        ensures fresh { IfOk result (λ tree. board_of tree ≡ fresh top first end) }
    {
        let leaves = 1 << top;
        let mut nodes = vec![in alloc; 0; 2 * leaves]?;
        let marks = vec![in alloc; 0; leaves]?;
        fill(&mut nodes, leaves, first, end);
        build(&mut nodes, top);
        Ok(Tree {
            top,
            first,
            end,
            most: 0,
            nodes,
            marks,
        })
    }

    /// Takes out all blocks.
    pub(crate) fn reset(&mut self)
        requires told { IsTold (board_of self.old) self.old.nodes.items }
        requires top { self.old.top ≤ largest_top }
        ensures told { IsTold (board_of self.new) self.new.nodes.items }
        ensures emptied { board_of self.new ≡ emptied (board_of self.old) }
    {
        fill(&mut self.nodes, 1 << self.top, self.first, self.end);
        build(&mut self.nodes, self.top);
        self.marks.fill(0);
        self.most = 0;
    }

    /// The same tree once more.
    pub(crate) fn duplicate(&self) -> Result<Self, AllocError>
        ensures same { IfOk result (λ copy. board_of copy ≡ board_of self.now) }
        ensures nodes { IfOk result (λ copy. copy.nodes.items ≡ self.now.nodes.items) }
    {
        Ok(Tree {
            top: self.top,
            first: self.first,
            end: self.end,
            most: self.most,
            nodes: self.nodes.clone()?,
            marks: self.marks.clone()?,
        })
    }

    /// The largest level that a block may have.
    pub(crate) fn top(&self) -> u8
        ensures { result ≡ self.now.top }
    {
        self.top
    }

    /// The first place that is given out, and the one behind the last.
    pub(crate) fn bounds(&self) -> (u32, u32)
        ensures { result ≡ (self.now.first, self.now.end) }
    {
        (self.first, self.end)
    }

    /// The most places that its blocks ever had at once.
    pub(crate) fn most(&self) -> u64
        ensures { result ≡ self.now.most }
    {
        self.most
    }

    /// Whether the places of a block of a level are open, from one on.
    pub(crate) fn is_open(&self, level: u8, place: u32) -> bool
        requires told { IsTold (board_of self.now) self.now.nodes.items }
        requires top { self.now.top ≤ largest_top }
        requires level { level ≤ self.now.top }
        ensures { result ≡ true ↔ IsOpen (board_of self.now) (2 ^ level) place }
    {
        if place % (1 << level) != 0 || 1 << self.top <= place {
            return false;
        }
        let mut node = self.node_at(level, place);
        if self.value(node) != level + 1 {
            return false;
        }
        let mut now = level;
        while node != 1 {
            node /= 2;
            now += 1;
            if self.value(node) == 0 {
                return false;
            }
        }
        true
    }

    /// The value of a node.
    fn value(&self, node: usize) -> u8
        requires { node < length self.now.nodes.items }
        ensures { result ≡ slice_index self.now.nodes.items node }
    {
        self.nodes[node]
    }

    /// The lowest open place of a level, if one is open.
    pub(crate) fn find(&self, level: u8) -> Option<u32>
        requires told { IsTold (board_of self.now) self.now.nodes.items }
        requires top { self.now.top ≤ largest_top }
        requires level { level ≤ self.now.top }
        ensures lowest { IsLowest (board_of self.now) (2 ^ level) result }
        ensures some { level < slice_index self.now.nodes.items 1 → IsSome result }
    {
        match self.lowest(level) {
            Some((_, place)) => Some(place),
            None => None,
        }
    }

    /// The node of the lowest open place of a level, and the place, if one is open.
    pub(crate) fn lowest(&self, level: u8) -> Option<(usize, u32)>
        requires told { IsTold (board_of self.now) self.now.nodes.items }
        requires top { self.now.top ≤ largest_top }
        requires level { level ≤ self.now.top }
        ensures lowest { IsLowest (board_of self.now) (2 ^ level) (option_map (λ found. found.1) result) }
        ensures node { IfSome result (λ found. found.0 ≡ (2 ^ self.now.top + found.1) / 2 ^ level) }
        ensures some { level < slice_index self.now.nodes.items 1 → IsSome result }
    {
        if self.value(1) <= level {
            return None;
        }
        let mut node: usize = 1;
        let mut now = self.top;
        while level < now {
            now -= 1;
            node *= 2;
            if self.value(node) <= level {
                node += 1;
            }
        }
        Some((node, ((node << level) - self.leaves()) as u32))
    }

    /// The largest open piece, at the lowest place that one of its level has.
    pub(crate) fn largest_open(&self) -> Option<Piece>
        requires told { IsTold (board_of self.now) self.now.nodes.items }
        requires top { self.now.top ≤ largest_top }
        ensures { IsLargest (board_of self.now) result }
    {
        let value = self.value(1);
        if value == 0 {
            return None;
        }
        let level = value - 1;
        let place = self.find(level)?;
        Some(Piece { place, level })
    }

    /// The largest level, up to a limit, of an open piece that has a place.
    pub(crate) fn open_level(&self, limit: u8, place: u32) -> Option<u8>
        requires told { IsTold (board_of self.now) self.now.nodes.items }
        requires top { self.now.top ≤ largest_top }
        requires level { limit ≤ self.now.top }
        ensures { IsOpenLevel (board_of self.now) limit place result }
    {
        for level in (0..=limit).rev() {
            if self.is_open(level, piece_start(level, place)) {
                return Some(level);
            }
        }
        None
    }

    /// How many leaves there are.
    fn leaves(&self) -> usize
        ensures { result ≡ length self.now.marks.items }
    {
        self.marks.len()
    }

    /// The node of a level that stands for the places from one on.
    pub(crate) fn node_at(&self, level: u8, place: u32) -> usize
        requires top { self.now.top ≤ largest_top }
        requires level { level ≤ self.now.top }
        requires small { place < 2 ^ self.now.top }
        requires marked { length self.now.marks.items ≡ 2 ^ self.now.top }
        ensures { result ≡ (2 ^ self.now.top + place) / 2 ^ level }
    {
        (self.leaves() + place as usize) >> level
    }

    /// Gives a node its value, and the nodes above it theirs, up to the first one that has it. The node and the one beside
    /// it are not both open as a whole, so the value of the node above is the larger one of theirs.
    fn settle(&mut self, mut node: usize, mut value: u8)
        requires top { self.old.top ≤ largest_top }
        requires spreads { Spreads (board_of self.old) self.old.nodes.items node value }
        ensures told { IsTold (board_of self.new) self.new.nodes.items }
        ensures same { board_of self.new ≡ board_of self.old }
    {
        self.nodes[node] = value;
        while node != 1 {
            value = value.max(self.value(buddy(node)));
            node /= 2;
            if self.value(node) == value {
                return;
            }
            self.nodes[node] = value;
        }
    }

    /// Gives a node that is open as a whole its value, and the nodes above it theirs: where the node beside one is open as
    /// a whole, too, so is the one above.
    fn merge(&mut self, mut level: u8, mut node: usize)
        requires top { self.old.top ≤ largest_top }
        requires merges { Merges (board_of self.old) self.old.nodes.items level node }
        ensures told { IsTold (board_of self.new) self.new.nodes.items }
        ensures same { board_of self.new ≡ board_of self.old }
    {
        while node != 1 && self.value(buddy(node)) == level + 1 {
            self.nodes[node] = level + 1;
            node /= 2;
            level += 1;
        }
        self.settle(node, level + 1);
    }

    /// Notes that so many places are in blocks.
    fn remember(&mut self, used: u64)
        ensures { self.new ≡ record self.old { most = max self.old.most used } }
    {
        if self.most < used {
            self.most = used;
        }
    }

    /// Puts a block of a level at an open place, for which a node stands. So many places are in blocks then.
    pub(crate) fn take(&mut self, level: u8, node: usize, place: u32, used: u64)
        requires told { IsTold (board_of self.old) self.old.nodes.items }
        requires top { self.old.top ≤ largest_top }
        requires level { level ≤ self.old.top }
        requires is_open { IsOpen (board_of self.old) (2 ^ level) place }
        requires node { node ≡ (2 ^ self.old.top + place) / 2 ^ level }
        requires used { used ≡ places_in (taken (board_of self.old) level place).marks }
        ensures told { IsTold (board_of self.new) self.new.nodes.items }
        ensures taken { board_of self.new ≡ taken (board_of self.old) level place }
    {
        self.remember(used);
        self.marks[place as usize] = level + 1;
        self.settle(node, 0);
    }

    /// Takes out the block of a level at a place.
    pub(crate) fn release(&mut self, level: u8, place: u32)
        requires told { IsTold (board_of self.old) self.old.nodes.items }
        requires top { self.old.top ≤ largest_top }
        requires begins { Begins self.old.marks.items place level }
        ensures told { IsTold (board_of self.new) self.new.nodes.items }
        ensures released { board_of self.new ≡ released (board_of self.old) place }
    {
        let node = self.node_at(level, place);
        self.marks[place as usize] = 0;
        self.merge(level, node);
    }

    /// One more than the level of the block that begins at a place, or 0.
    pub(crate) fn mark(&self, place: u32) -> u8
        ensures { result ≡ slice_index self.now.marks.items place }
    {
        match self.marks.get(place as usize) {
            Some(mark) => *mark,
            None => 0,
        }
    }

    /// The level of the block that begins at a place, if one does.
    pub(crate) fn level_at(&self, place: u32) -> Option<u8>
        ensures { result ≡ level_at (board_of self.now) place }
    {
        match self.mark(place) {
            0 => None,
            mark => Some(mark - 1),
        }
    }

    /// The block of this level or a larger one that has a place, if one has it.
    fn cover(&self, level: u8, place: u32) -> Option<u32>
        requires told { IsTold (board_of self.now) self.now.nodes.items }
        requires top { self.now.top ≤ largest_top }
        requires small { place < 2 ^ self.now.top }
        requires level { level ≤ self.now.top }
        ensures { IsCover (board_of self.now) level place result }
    {
        for upper in level..self.top + 1 {
            let start = piece_start(upper, place);
            if self.marks[start as usize] == upper + 1 {
                return Some(start);
            }
        }
        None
    }

    /// The first block that begins from one place on and before another, if one does.
    pub(crate) fn first_block(&self, from: u32, to: u32) -> Option<u32>
        requires within { to ≤ length self.now.marks.items }
        ensures { IsFirstBlock (board_of self.now) from to result }
    {
        for place in from..to {
            if self.marks[place as usize] != 0 {
                return Some(place);
            }
        }
        None
    }

    /// Whether a block of a level would not lie on the board.
    pub(crate) fn is_outside(&self, level: u8, place: u32) -> bool
        requires top { self.now.top ≤ largest_top }
        requires level { level ≤ self.now.top }
        ensures { result ≡ true ↔ ((place < self.now.first) ⊎ (self.now.end < place + 2 ^ level)) }
    {
        place < self.first || self.end < place || self.end - place < 1 << level
    }

    /// A block that has some of the places of another one, if one has.
    pub(crate) fn in_the_way(&self, level: u8, place: u32) -> Option<u32>
        requires told { IsTold (board_of self.now) self.now.nodes.items }
        requires top { self.now.top ≤ largest_top }
        requires level { level ≤ self.now.top }
        requires aligned { place % 2 ^ level ≡ 0 }
        requires within { place + 2 ^ level ≤ self.now.end }
        ensures { IsInTheWay (board_of self.now) (2 ^ level) place result }
    {
        match self.cover(level, place) {
            Some(start) => Some(start),
            None => self.first_block(place, place + (1 << level)),
        }
    }
}
