//! The judge of another allocator's answers, whatever its rule of choice.

ghost use Rattle.std.specs.Prelude.{◌≡◌, ◌↔◌, ◌⊎◌, ◌+◌, ◌*◌, ◌^◌, ◌<◌, ◌≤◌, IfOk, IsErrOf};
ghost use Rattle.l6_places.specs.Board.{IsOpenLevel, level_at};
ghost use Rattle.l6_trace.specs.Numerals.{largest_pool_level, most_places, most_places_level};
ghost use Rattle.l6_trace.specs.Judging as spec;
ghost use Rattle.l6_trace.specs.inner.Levels.{IsEnd, IsWithin};

use crate::call::{Call, Reply};
use crate::finding::Finding;
use l6_places::{Board, BoardFault, Level, Place};
use std::alloc::Global;
use std::marker::Model;

/// The largest level that a judged allocator's blocks may have.
pub const MAX_POOL_LEVEL: Level = 20;

/// The places of a judged allocator lie below 2^24.
const PLACES_LEVEL: Level = 24;

/// The memory that another allocator manages, in places of its smallest piece.
#[derive(Clone, Copy, Debug, PartialEq, Eq)]
pub struct Pool {
    /// Its largest block has 2^largest places, at most 2^20.
    pub largest: Level,
    /// It has so many of these.
    pub units: u32,
    /// Its first place. A block of a level begins at a multiple of its size, counted from place 0.
    pub first: Place,
}

/// What a name of a trace holds.
#[derive(Clone, Copy, Debug, PartialEq, Eq)]
pub enum Holding {
    /// No block.
    NoBlock,
    /// A block that is where none may be, and so is not on the board.
    Misplaced,
    /// The block at this place.
    At(Place),
}

/// A board with the blocks that the names of a trace hold.
#[derive(Drop)]
pub struct Judge {
    board: Board,
    largest: Level,
    held: Vec<Holding>,
}

impl Model for Judge {
    ghost use Rattle.std.specs.Prelude.{◌≤◌};
    ghost use Rattle.l6_trace.specs.Numerals.{most_places_level};
    ghost use Rattle.l6_trace.specs.Judging.{Judging, judging_code};

    ghost Value = { Judging };

    ghost coded = { judging_code };

    ghost view = { λ j. record { board = j.board; largest = j.largest; held = j.held.items } };

    ghost invariant = { λ j. (j.largest ≤ j.board.top) × (j.largest ≤ most_places_level) };
}

impl Judge {
    /// A board without blocks, and so many names that hold none.
    ///
    /// # Errors
    ///
    /// `BadPlaces` exactly for a largest level above 20, or a pool that ends past place 2^24; or memory ran out.
    pub fn new(alloc: Global, pool: Pool, names: usize) -> Result<Self, BoardFault>
        ensures empty { IfOk result (λ judge. spec.IsEmpty pool.largest pool.units pool.first names judge) }
        ensures bad { IsErrOf result BoardFault.BadPlaces ↔ ((largest_pool_level < pool.largest)
            ⊎ (most_places < pool.first + pool.units * 2 ^ pool.largest)) }
    {
        let Some(end) = end_of(pool) else {
            return Err(BoardFault::BadPlaces);
        };
        let board = Board::new(alloc, top_for(pool.largest, end), pool.first, end)?;
        let held = vec![in alloc; Holding::NoBlock; names]?;
        Ok(Judge {
            board,
            largest: pool.largest,
            held,
        })
    }

    /// The blocks that are where they may be.
    pub fn board(&self) -> &Board
        ensures { result.now ≡ self.now.board }
    {
        &self.board
    }

    /// The largest level of a block.
    pub fn largest(&self) -> Level
        ensures value { result ≡ self.now.largest }
        ensures small { result ≤ most_places_level }
    {
        self.largest
    }

    /// The largest level of an open piece that has a place, if the place is open.
    pub fn open_level(&self, place: Place) -> Option<Level>
        ensures { IsOpenLevel self.now.board self.now.largest place result }
    {
        self.board.open_level(self.largest, place)
    }

    /// What a name holds.
    pub fn holding(&self, block: usize) -> Holding
        ensures { result ≡ spec.holding self.now block }
    {
        match self.held.get(block) {
            Some(holding) => *holding,
            None => Holding::NoBlock,
        }
    }

    /// Judges the answer to a call, and does the call as it was answered; or says what is wrong with it. A block that is
    /// where none may be is not put on the board, and may be freed.
    pub fn judge(&mut self, call: Call, reply: Option<Reply>) -> Option<Finding>
        ensures judged { spec.IsAnswered self.old call reply result self.new }
    {
        match call {
            Call::Get { block, words } => self.get(block, words, reply),
            Call::Free { block } => self.free(block, reply),
            Call::Lists | Call::Map | Call::Stats => None,
        }
    }

    /// Judges a get of at least so many words, by a name.
    fn get(&mut self, block: usize, words: u32, reply: Option<Reply>) -> Option<Finding>
        ensures { spec.IsGotBy (spec.holding self.old block) self.old block words reply result self.new }
    {
        match self.holding(block) {
            Holding::NoBlock => self.got(block, least_level(self.largest, words), reply),
            Holding::Misplaced | Holding::At(_) => Some(Finding::Held),
        }
    }

    /// Judges a get of a level, or of more than any block has, by a name that holds no block.
    fn got(&mut self, block: usize, level: Option<Level>, reply: Option<Reply>) -> Option<Finding>
        requires { IsWithin self.old.largest level }
        ensures { spec.IsGot self.old block level reply result self.new }
    {
        match reply {
            Some(Reply::At { place, size }) => self.given(block, level, place, size),
            Some(Reply::Nothing) => self.refused(level),
            Some(Reply::Between) => {
                self.hold(block, Holding::Misplaced);
                Some(Finding::Between)
            }
            Some(Reply::Joined(_)) | None => Some(Finding::Unanswered),
        }
    }

    /// Judges a get that was answered with a place.
    fn given(
        &mut self,
        block: usize,
        level: Option<Level>,
        place: Place,
        size: Option<u32>,
    ) -> Option<Finding>
        requires { IsWithin self.old.largest level }
        ensures { spec.IsGiven self.old block level place size result self.new }
    {
        let Some(level) = level else {
            self.hold(block, Holding::Misplaced);
            return Some(Finding::TooLarge);
        };
        if self.board.try_reserve(level, place) {
            self.hold(block, Holding::At(place));
            return size_finding(level, size);
        }
        self.hold(block, Holding::Misplaced);
        match self.board.hindrance(level, place) {
            Some(hindrance) => Some(Finding::Hindered(hindrance)),
            None => None,
        }
    }

    /// Judges a get that was refused.
    fn refused(&self, level: Option<Level>) -> Option<Finding>
        requires { IsWithin self.now.largest level }
        ensures { spec.IsRefused self.now level result }
    {
        match self.board.find(level?) {
            Some(place) => Some(Finding::Refused(place)),
            None => None,
        }
    }

    /// Judges a free of the block that a name holds.
    fn free(&mut self, block: usize, reply: Option<Reply>) -> Option<Finding>
        ensures { spec.IsFreedBy (spec.holding self.old block) self.old block reply result self.new }
    {
        match self.holding(block) {
            Holding::NoBlock => Some(Finding::NotHeld),
            Holding::Misplaced => {
                self.hold(block, Holding::NoBlock);
                None
            }
            Holding::At(place) => self.release(block, place, reply),
        }
    }

    /// Judges a free of the block at a place.
    fn release(&mut self, block: usize, place: Place, reply: Option<Reply>) -> Option<Finding>
        ensures { spec.IsReleased self.old block place (level_at self.old.board place) reply result self.new }
    {
        let Some(level) = self.board.level_at(place) else {
            return Some(Finding::NotHeld);
        };
        self.board.try_free(place);
        self.hold(block, Holding::NoBlock);
        let joined = joined_by(level, self.open_level(place));
        join_finding(joined, reply)
    }

    /// Notes what a name holds now.
    fn hold(&mut self, block: usize, holding: Holding)
        ensures { self.new ≡ spec.holds self.old block holding }
    {
        if block < self.held.len() {
            self.held[block] = holding;
        }
    }
}

/// The place after the last one of a pool, or `None` where the pool is out of range.
pub(crate) fn end_of(pool: Pool) -> Option<Place>
    ensures { IsEnd pool result }
{
    if MAX_POOL_LEVEL < pool.largest {
        return None;
    }
    let places = u64::from(pool.units) * size_of(pool.largest);
    let end = u64::from(pool.first) + places;
    if size_of(PLACES_LEVEL) < end {
        None
    } else {
        Some(end as Place)
    }
}

/// How many places a block of a level has.
fn size_of(level: Level) -> u64
    requires { level ≤ most_places_level }
    ensures { result ≡ 2 ^ level }
{
    1 << level
}

/// The least level, at least that of the largest block, at which a board has so many places.
fn top_for(largest: Level, end: Place) -> Level
    requires small { largest ≤ most_places_level }
    requires few { end ≤ most_places }
    ensures least { largest ≤ result }
    ensures small { result ≤ most_places_level }
    ensures room { end ≤ 2 ^ result }
{
    for top in largest..PLACES_LEVEL {
        if end <= 1 << top {
            return top;
        }
    }
    PLACES_LEVEL
}

/// The level of the least block that has so many words, or `None` where none of up to a level has so many.
pub(crate) fn least_level(largest: Level, words: u32) -> Option<Level>
    requires { largest < 32 }
    ensures { spec.IsLeastLevel largest words result }
{
    for level in 0..=largest {
        if words <= 1 << level {
            return Some(level);
        }
    }
    None
}

/// What is wrong with the size that was said of a block.
fn size_finding(level: Level, size: Option<u32>) -> Option<Finding>
    requires { level < 32 }
    ensures { result ≡ spec.size_finding level size }
{
    match size {
        Some(size) if size != 1 << level => Some(Finding::WrongSize(1 << level)),
        _ => None,
    }
}

/// How often the piece of a block was joined when it was freed, by the level of the open piece that has its place then.
fn joined_by(level: Level, open_level: Option<Level>) -> u32
    ensures { result ≡ spec.joined_by level open_level }
{
    match open_level {
        Some(open_level) => u32::from(open_level.saturating_sub(level)),
        None => 0,
    }
}

/// What is wrong with how often a piece was joined.
fn join_finding(right: u32, reply: Option<Reply>) -> Option<Finding>
    ensures { result ≡ spec.join_finding right reply }
{
    match reply {
        Some(Reply::Joined(joined)) if joined != right => Some(Finding::NotJoined(right)),
        _ => None,
    }
}
