//! Which steps of a run got, last wrote and freed a block.

ghost use Rattle.std.specs.Prelude.{◌≡◌, ◌≤◌, true, is_some, nat_lt, IfSome, Some, None, if◌then◌else◌};
ghost use Rattle.l6_steps.specs.Numbering.{last_number};
ghost use Rattle.l6_history.specs.Life as lives;
ghost use Rattle.l6_history.specs.Life.{block_in, life_to};
ghost use Rattle.l6_history.specs.inner.Seeking.{IsLast, IsLastIn, is_met_back};
ghost use Rattle.l6_history.specs.inner.Watches.{block_goal};

use crate::block_watch::{BlockWatch, Looked};
use crate::history::History;
use l6_store::Places;
use l6_word::Word;
use std::alloc::Global;

/// The states before the steps that got, last wrote and freed a block, by their numbers.
#[derive(Clone, Copy, Debug, PartialEq, Eq)]
pub struct Life {
    /// The step that got it, or none where no block was at its place.
    pub got: Option<u64>,
    /// The step that wrote it last, if one did after it was got.
    pub written: Option<u64>,
    /// The step that freed it, if it was freed.
    pub freed: Option<u64>,
}

impl<S: Places> History<S> {
    /// The life of the block that begins at a place in the present state, or that was the last to begin
    /// there before. The history stays at its state.
    pub fn life_of(&mut self, alloc: Global, place: Word) -> Life
    where
        S: Drop,
        ensures context { self.new.context ≡ self.old.context }
        ensures number { self.new.number ≡ self.old.number }
        ensures life { result ≡ lives.life_of S.rule self.old.context place self.old.number }
        ensures got { IfSome result.got (λ n. n ≤ last_number S.rule self.old.context) }
        ensures written { IfSome result.written (λ n. n ≤ last_number S.rule self.old.context) }
        ensures freed { IfSome result.freed (λ n. n ≤ last_number S.rule self.old.context) }
    {
        let number = self.number();
        let life = self.life_before(alloc, place);
        self.to(alloc, number);
        life
    }

    /// The life of the block, by going to other states.
    fn life_before(&mut self, alloc: Global, place: Word) -> Life
    where
        S: Drop,
        ensures context { self.new.context ≡ self.old.context }
        ensures life { result ≡ lives.life_of S.rule self.old.context place self.old.number }
    {
        let number = self.number();
        if self.has_block(place) {
            return self.life_to(alloc, place, number, None);
        }
        match self.last_change(alloc, place, Looked::Presence, number) {
            Some(freed) => self.life_to(alloc, place, freed, Some(freed)),
            None => Life {
                got: None,
                written: None,
                freed: None,
            },
        }
    }

    /// Whether a block begins at a place.
    fn has_block(&self, place: Word) -> bool
        ensures { result ≡ is_some (block_in S.rule self.now.context place self.now.number) }
    {
        self.machine().store().live(place).is_some()
    }

    /// The life of a block up to a state, with the step that freed it, if one did. The caller owes a state
    /// in which the block is there.
    fn life_to(&mut self, alloc: Global, place: Word, end: u64, freed: Option<u64>) -> Life
    where
        S: Drop,
        requires within { end ≤ last_number S.rule self.old.context }
        requires there { is_some (block_in S.rule self.old.context place end) ≡ true }
        ensures context { self.new.context ≡ self.old.context }
        ensures life { result ≡ life_to S.rule self.old.context place end freed }
    {
        let got = self.last_change(alloc, place, Looked::Presence, end);
        let written = match got {
            Some(got) => self.written_since(alloc, place, got, end),
            None => None,
        };
        Life {
            got,
            written,
            freed,
        }
    }

    /// The step that wrote a block last before a state, if one did after the step that got it. The caller
    /// owes that step, and a state in which the block is there.
    fn written_since(&mut self, alloc: Global, place: Word, got: u64, end: u64) -> Option<u64>
    where
        S: Drop,
        requires within { end ≤ last_number S.rule self.old.context }
        requires there { is_some (block_in S.rule self.old.context place end) ≡ true }
        requires got { IsLast (is_met_back S.rule self.old.context (block_goal place Looked.Presence))
            0 end got }
        ensures context { self.new.context ≡ self.old.context }
        ensures written { result ≡ lives.written_since S.rule self.old.context place end got }
    {
        match self.last_change(alloc, place, Looked::Words, end) {
            Some(written) => if_after(got, written),
            None => None,
        }
    }

    /// The latest state before one from which the block at a place is another one in the next state.
    fn last_change(&mut self, alloc: Global, place: Word, by: Looked, end: u64) -> Option<u64>
    where
        S: Drop,
        requires { end ≤ last_number S.rule self.old.context }
        ensures context { self.new.context ≡ self.old.context }
        ensures last { IsLastIn (is_met_back S.rule self.old.context (block_goal place by)) 0 end result }
    {
        let mut watch = BlockWatch::new(alloc, self.machine(), place, by);
        self.latest(alloc, &mut watch, end)
    }
}

/// A step, if it is after another one.
fn if_after(got: u64, written: u64) -> Option<u64>
    ensures { result ≡ (if nat_lt got written then Some written else None) }
{
    if got < written { Some(written) } else { None }
}
