//! What is counted of a trace beside its answers.

ghost use Rattle.std.specs.Prelude.{◌≡◌, ◌-◌, IfOk, slice_index};
ghost use Rattle.l6_trace.specs.Tallying as spec;
ghost use Rattle.l6_trace.specs.Tallying.{IsCounted, freed_block, given_block, none_counted, refused_get};
ghost use Rattle.l6_trace.specs.inner.Tallies.{tallied};

use crate::call::{Answer, Call, Line};
use l6_store::{Level, level_for};
use std::alloc::{AllocError, Global};

/// How many words were asked for and given, and how many gets found no place.
#[derive(Debug, Drop)]
pub struct Tally {
    // the words that each name asked for last
    asked: Vec<u32>,
    // how many words the store has
    all: u32,
    // how many words lie in blocks, and how many of them were asked for
    pub(crate) given: u32,
    pub(crate) wanted: u32,
    // how many gets were refused, and how many of them although there were enough free words
    pub(crate) refused: u32,
    pub(crate) fragmented: u32,
}

impl Tally {
    /// Nothing is counted yet, of a store of so many words and a trace of so many names.
    ///
    /// # Errors
    ///
    /// Memory ran out.
    pub fn new(alloc: Global, words: u32, names: usize) -> Result<Self, AllocError>
        ensures none { IfOk result (λ tally. tallied tally ≡ none_counted words names) }
    {
        Ok(Tally {
            asked: vec![in alloc; 0; names]?,
            all: words,
            given: 0,
            wanted: 0,
            refused: 0,
            fragmented: 0,
        })
    }

    /// Counts an answer. If it freed a block, that had this level.
    pub(crate) fn count(&mut self, line: &Line, answer: Answer, freed: Option<Level>)
        ensures { IsCounted (tallied self.old) line.now.call answer freed (tallied self.new) }
    {
        match (line.call, answer) {
            (Call::Get { block, words }, Answer::Given { level, .. }) => {
                self.give(block, words, level);
            }
            (Call::Get { words, .. }, Answer::Refused) => self.refuse(level_for(words)),
            (Call::Free { block }, Answer::Freed { .. }) => self.free(block, freed),
            _ => {}
        }
    }

    /// Counts a get that was given a block of a level.
    fn give(&mut self, block: usize, words: u32, level: Level)
        ensures { tallied self.new ≡ given_block (tallied self.old) block words level }
    {
        self.given = self.given.saturating_add(words_of(level));
        self.wanted = self.wanted.saturating_add(words);
        if block < self.asked.len() {
            self.asked[block] = words;
        }
    }

    /// Counts a get of a level that was refused, or of more words than a block has.
    fn refuse(&mut self, level: Option<Level>)
        ensures { tallied self.new ≡ refused_get (tallied self.old) level }
    {
        self.refused = self.refused.saturating_add(1);
        if let Some(level) = level {
            if words_of(level) <= self.free_words() {
                self.fragmented = self.fragmented.saturating_add(1);
            }
        }
    }

    /// Counts a free of a block of a level.
    fn free(&mut self, block: usize, level: Option<Level>)
        ensures { tallied self.new ≡ freed_block (tallied self.old) block level }
    {
        self.wanted = self.wanted.saturating_sub(self.asked_by(block));
        self.given = self.given.saturating_sub(words_freed(level));
    }

    /// The words that a name asked for last.
    fn asked_by(&self, block: usize) -> u32
        ensures { result ≡ slice_index self.now.asked.items block }
    {
        match self.asked.get(block) {
            Some(words) => *words,
            None => 0,
        }
    }

    /// How many words lie in no block.
    fn free_words(&self) -> u32
        ensures { result ≡ self.now.all - self.now.given }
    {
        self.all.saturating_sub(self.given)
    }
}

/// How many words the block has that was freed, if one was.
fn words_freed(level: Option<Level>) -> u32
    ensures { result ≡ spec.words_freed level }
{
    match level {
        Some(level) => words_of(level),
        None => 0,
    }
}

/// How many words a block of a level has; 0 for one of which there would be too many.
pub(crate) fn words_of(level: Level) -> u32
    ensures { result ≡ spec.words_of level }
{
    if level < 32 { 1 << level } else { 0 }
}
