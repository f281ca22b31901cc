//! What is counted of a trace whose answers are judged: what it tried, and how the memory fared.

use crate::call::{Call, Line, Reply};
use crate::finding::Finding;
use crate::judge::{Holding, Judge, least_level};
use crate::tally::words_of;
use l6_places::{Level, Place};
use std::alloc::{AllocError, Global};

/// The number of levels that blocks may have, and one more.
const LEVELS: usize = 32;

/// What there was before a call.
#[derive(Clone, Copy, Debug, PartialEq, Eq)]
pub struct Before {
    /// The place that the call gives or frees a block at, and the level of the open piece or of the block there.
    at: Option<(Place, Level)>,
}

impl Before {
    /// What there is before the call of a line.
    pub(crate) fn of(judge: &Judge, line: &Line) -> Self {
        let at = match (line.call, line.reply) {
            (Call::Get { .. }, Some(Reply::At { place, .. })) => {
                judge.open_level(place).map(|level| (place, level))
            }
            (Call::Free { block }, _) => match judge.holding(block) {
                Holding::At(place) => judge.board().level_at(place).map(|level| (place, level)),
                Holding::NoBlock | Holding::Misplaced => None,
            },
            _ => None,
        };
        Before { at }
    }
}

/// What is counted of a trace.
#[derive(Debug, Drop)]
pub struct Summary {
    // the words that each name asked for last
    asked: Vec<u32>,
    // how many places the pool has
    all: u32,
    // how many words the blocks were asked for
    wanted: u32,
    /// How many gets and frees there are.
    pub gets: u32,
    pub frees: u32,
    /// How many gets were refused, and the largest level of one.
    pub refused: u32,
    pub largest_refused: Option<Level>,
    /// How many places were in blocks at most, and how many of those in blocks were not asked for at most.
    pub most_used: u32,
    pub most_lost: u32,
    /// The free places and the places of the largest free piece, when they were furthest apart at a refused get.
    pub scattered: Option<(u32, u32)>,
    /// Which levels a piece was split from, and joined to.
    pub split: [bool; LEVELS],
    pub joined: [bool; LEVELS],
}

impl Summary {
    /// Nothing is counted yet.
    pub(crate) fn new(alloc: Global, judge: &Judge, names: usize) -> Result<Self, AllocError> {
        Ok(Summary {
            asked: vec![in alloc; 0; names]?,
            all: judge.board().free_places(),
            wanted: 0,
            gets: 0,
            frees: 0,
            refused: 0,
            largest_refused: None,
            most_used: 0,
            most_lost: 0,
            scattered: None,
            split: [false; LEVELS],
            joined: [false; LEVELS],
        })
    }

    /// Counts a call.
    pub(crate) fn count(
        &mut self,
        judge: &Judge,
        line: &Line,
        before: Before,
        found: Option<Finding>,
    ) {
        match line.call {
            Call::Get { block, words } => {
                self.gets = self.gets.saturating_add(1);
                match line.reply {
                    Some(Reply::Nothing) => self.refuse(judge, words),
                    _ => self.give(judge, block, words, before, found),
                }
            }
            Call::Free { block } => {
                self.frees = self.frees.saturating_add(1);
                self.free(judge, block, before);
            }
            Call::Lists | Call::Map | Call::Stats => {}
        }
    }

    /// Counts a get that was refused.
    fn refuse(&mut self, judge: &Judge, words: u32) {
        self.refused = self.refused.saturating_add(1);
        let level = least_level(judge.largest(), words);
        self.largest_refused = self.largest_refused.max(level);
        let free = judge.board().free_places();
        let largest = judge
            .board()
            .largest_open()
            .map_or(0, |piece| words_of(piece.level.min(judge.largest())));
        let apart = free.saturating_sub(largest);
        let before = self
            .scattered
            .map_or(0, |(free, largest)| free.saturating_sub(largest));
        if before < apart {
            self.scattered = Some((free, largest));
        }
    }

    /// Counts a get that was given a block.
    fn give(
        &mut self,
        judge: &Judge,
        block: usize,
        words: u32,
        before: Before,
        found: Option<Finding>,
    ) {
        let Some((place, open_level)) = before.at else {
            return;
        };
        let Some(level) = judge.board().level_at(place) else {
            return;
        };
        if matches!(found, Some(Finding::Held)) || judge.holding(block) != Holding::At(place) {
            return;
        }
        add_levels(&mut self.split, level, open_level);
        if block < self.asked.len() {
            self.asked[block] = words;
        }
        self.wanted = self.wanted.saturating_add(words);
        let used = self.all.saturating_sub(judge.board().free_places());
        self.most_used = self.most_used.max(used);
        self.most_lost = self.most_lost.max(used.saturating_sub(self.wanted));
    }

    /// Counts a free of a block.
    fn free(&mut self, judge: &Judge, block: usize, before: Before) {
        let Some((place, level)) = before.at else {
            return;
        };
        let words = self.asked.get(block).copied().unwrap_or(0);
        self.wanted = self.wanted.saturating_sub(words);
        if let Some(open_level) = judge.open_level(place) {
            add_levels(&mut self.joined, level, open_level);
        }
    }
}

/// Adds the levels above one up to another.
fn add_levels(levels: &mut [bool; LEVELS], from: Level, to: Level) {
    for level in from..to {
        let above = usize::from(level).saturating_add(1);
        if above < LEVELS {
            levels[above] = true;
        }
    }
}
