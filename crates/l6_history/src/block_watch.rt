//! One watches the block at a place.

ghost use Rattle.std.specs.Prelude.{◌≡◌, ◌≤◌, ◌∷◌, [], MatchOption, IfSome, None, Some, length, option_map};
ghost use Rattle.std.specs.FinMap as map;
ghost use Rattle.l6_word.specs.Numerals.{unit_size};
ghost use Rattle.l6_history.specs.inner.Changing.{IsTable};
ghost use Rattle.l6_history.specs.inner.Watches.{blocks_differ, seen_by, word_at};

use crate::changing::ChangeTable;
use crate::seeker::Seeker;
use crate::watched::{BlockWord, Watched};
use arrayvec::ArrayVec;
use l6_machine::{Machine, Watch};
use l6_store::{Place, Places, end_of};
use l6_word::{UNIT_SIZE, Word};
use std::alloc::Global;
use std::marker::Model;

/// How many words a block has at most.
const MAX_WORDS: usize = UNIT_SIZE as usize;

/// The words of a block.
type Words = ArrayVec<u64, MAX_WORDS>;

/// What is looked at of a block.
#[derive(Clone, Copy, Debug, PartialEq, Eq)]
pub(crate) enum Looked {
    /// Whether one begins there.
    Presence,
    /// That, and its words.
    Words,
}

/// One watches the block at a place.
#[derive(Drop)]
pub(crate) struct BlockWatch {
    place: Word,
    by: Looked,
    /// The block as it was where the watch began, if one was there: its words, or none where one looks
    /// only at whether it is there.
    seen: Option<Words>,
    /// For each action of the program, whether it may change blocks.
    table: ChangeTable,
}

impl Model for BlockWatch {
    ghost use Rattle.std.specs.Prelude.{option_map};
    ghost use Rattle.l6_history.specs.inner.Watches as watches;

    ghost Value = { watches.BlockWatch };

    ghost view = { λ w. record {
      place = w.place;
      by = w.by;
      seen = option_map (λ words. words.items) w.seen;
      table = w.table;
    } };
}

impl BlockWatch {
    /// By the place of a block, in the runs of a machine's program.
    pub(crate) fn new<S: Places>(
        alloc: Global,
        machine: &Machine<S>,
        place: Word,
        by: Looked,
    ) -> Self
        ensures place { result.place ≡ place }
        ensures by { result.by ≡ by }
        ensures table { IsTable (word_at place ∷ []) machine.now.context.program result.table }
    {
        let word = Watched::Word(BlockWord { place, word: 0 });
        BlockWatch {
            place,
            by,
            seen: None,
            table: ChangeTable::new(alloc, machine.program(), &[word]),
        }
    }
}

/// The words of the block that begins at a place, if one does.
fn words_of<S: Places>(machine: &Machine<S>, place: Word) -> Option<&[u64]>
    ensures value { let found = map.get machine.now.configuration.state.memory.blocks place in
        MatchOption result (found ≡ None) (λ words. found ≡ Some words.now) }
    ensures few { IfSome result (λ words. length words.now ≤ unit_size) }
{
    words_in(machine.store(), place)
}

/// The words of the block of a store that begins at a place, if one does.
fn words_in<S: Places>(store: &S, place: Word) -> Option<&[u64]>
    ensures value { let found = map.get (S.store store.now).blocks place in
        MatchOption result (found ≡ None) (λ words. found ≡ Some words.now) }
    ensures few { IfSome result (λ words. length words.now ≤ unit_size) }
{
    // there is no block past the last unit
    let end = u64::from(end_of(store.units()));
    if end <= place.get() {
        return None;
    }
    store.live(place)?;
    Some(store.block(place.get() as Place))
}

/// A copy of the words of a block.
fn copy_of(words: &[u64]) -> Words
    requires { length words.now ≤ unit_size }
    ensures { result.items ≡ words.now }
{
    let mut copy = Words::new();
    let _ = copy.try_extend_from_slice(words);
    copy
}

/// What is seen of a block, if one begins at a place.
fn seen_by<S: Places>(machine: &Machine<S>, place: Word, by: Looked) -> Option<Words>
    ensures { option_map (λ words. words.items) result
        ≡ seen_by by (map.get machine.now.configuration.state.memory.blocks place) }
{
    let words = words_of(machine, place)?;
    match by {
        Looked::Presence => Some(Words::new()),
        Looked::Words => Some(copy_of(words)),
    }
}

/// Whether a block is not what was seen.
fn differs(seen: &Option<Words>, words: Option<&[u64]>, by: Looked) -> bool
    ensures { result ≡ blocks_differ (option_map (λ words. words.items) seen.now)
        (seen_by by (option_map (λ words. words.now) words.entry)) }
{
    match (seen, words) {
        (None, None) => false,
        (Some(seen), Some(words)) => match by {
            Looked::Presence => !seen.as_slice().is_empty(),
            Looked::Words => seen.as_slice() != words,
        },
        _ => true,
    }
}

impl<S: Places> Watch<S> for BlockWatch {
    ghost use Rattle.std.specs.Prelude.{false, ◌∷◌, []};
    ghost use Rattle.l6_history.specs.inner.Changing.{IsTable};
    ghost use Rattle.l6_history.specs.inner.Watches.{block_changed, word_at};

    ghost stops = { λ _ _. false };

    ghost changed = { block_changed };

    ghost suits = { λ w program. IsTable (word_at w.place ∷ []) program w.table };

    #[inline(always)]
    fn is_at_stop(&self, _: &Machine<S>) -> bool {
        false
    }

    #[inline(always)]
    fn may_change(&self, machine: &Machine<S>) -> bool {
        self.table.says(machine.at())
    }

    fn has_changed(&self, machine: &Machine<S>) -> bool {
        differs(&self.seen, words_of(machine, self.place), self.by)
    }
}

impl<S: Places> Seeker<S> for BlockWatch {
    ghost use Rattle.std.specs.Prelude.{◌∷◌, []};
    ghost use Rattle.l6_history.specs.inner.Changing.{IsTable};
    ghost use Rattle.l6_history.specs.inner.Watches.{block_goal, word_at};

    ghost goal = { λ w. block_goal w.place w.by };

    ghost IsFor = { λ w program. IsTable (word_at w.place ∷ []) program w.table };

    fn begin(&mut self, machine: &Machine<S>) {
        self.seen = seen_by(machine, self.place, self.by);
    }
}
