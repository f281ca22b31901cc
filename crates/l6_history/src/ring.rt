//! The ring of checkpoints: numbered machines of states that a history keeps, to go back from.

ghost use Rattle.std.specs.Prelude.{◌≡◌, ◌<◌, ◌==◌, [], length, slice_get, map, MatchOption};
ghost use Rattle.std.specs.List.{list_any};
ghost use Rattle.l6_steps.specs.State.{RunContext};
ghost use Rattle.l6_history.specs.History.{greatest_up_to};
ghost use Rattle.l6_history.specs.Numerals.{most_kept};
ghost use Rattle.l6_history.specs.inner.Ring.{items_of, numbers_of, AreCheckpoints, MayAdd, MaySwap};

use crate::numbered_machine::NumberedMachine;
use circular_buffer::HeapCircularBuffer;
use l6_store::Places;
use std::alloc::Global;
use std::mem;

/// How many checkpoints are kept at most.
pub const MAX_KEPT: usize = 16;

/// The numbered machines that are kept, the oldest first, or none where the memory for them was
/// refused.
#[derive(Drop)]
pub(crate) struct Ring<S: Places> {
    numbered_machines: Option<HeapCircularBuffer<NumberedMachine<S>>>,
}

impl<S: Places> Ring<S> {
    /// A ring with no checkpoint.
    pub(crate) fn new(alloc: Global) -> Self
        ensures empty { items_of result.numbered_machines ≡ [] }
        ensures room { (context : RunContext) → AreCheckpoints context result.numbered_machines }
    {
        Ring {
            numbered_machines: HeapCircularBuffer::with_capacity(alloc, MAX_KEPT).ok(),
        }
    }

    /// Whether the state of a number is kept.
    pub(crate) fn holds(&self, number: u64) -> bool
        ensures { result ≡ list_any (λ kept. kept == number) (numbers_of self.now.numbered_machines) }
    {
        match &self.numbered_machines {
            Some(numbered_machines) => numbered_machines.iter().any(|kept| kept.number() == number),
            None => false,
        }
    }

    /// How many states are kept.
    fn len(&self) -> usize
        ensures { result ≡ length (numbers_of self.now.numbered_machines) }
    {
        self.numbered_machines
            .as_ref()
            .map_or(0, |numbered_machines| numbered_machines.len())
    }

    /// The number of a state that is kept, by its place in the ring, if there is one.
    pub(crate) fn number(&self, index: usize) -> Option<u64>
        ensures { result ≡ slice_get (numbers_of self.now.numbered_machines) index }
    {
        if index < self.len() {
            Some(self.number_at(index))
        } else {
            None
        }
    }

    /// The number of a state that is kept, by its place in the ring.
    fn number_at(&self, index: usize) -> u64
        requires { index < length (numbers_of self.now.numbered_machines) }
        ensures { slice_get (numbers_of self.now.numbered_machines) index ≡ Some result }
    {
        let Some(numbered_machines) = &self.numbered_machines else {
            unreachable!();
        };
        match numbered_machines.get(index) {
            Some(numbered_machine) => numbered_machine.number(),
            None => unreachable!(),
        }
    }

    /// Keeps a copy of a numbered machine of the same run. Where there is room for no more, the
    /// oldest becomes the copy, in the memory that it has. Where memory is refused, nothing
    /// changes.
    pub(crate) fn add(&mut self, alloc: Global, numbered_machine: &NumberedMachine<S>)
    where
        S: Drop,
        requires { AreCheckpoints numbered_machine.now.context self.old.numbered_machines }
        ensures { MayAdd self.old.numbered_machines numbered_machine.now self.new.numbered_machines }
    {
        if let Some(numbered_machines) = &mut self.numbered_machines {
            if !numbered_machines.is_full() {
                if let Ok(copy) = numbered_machine.duplicate(alloc) {
                    numbered_machines.push_back(copy);
                }
            } else if let Some(mut oldest) = numbered_machines.pop_front() {
                if oldest.take_from(alloc, numbered_machine).is_ok() {
                    numbered_machines.push_back(oldest);
                } else {
                    numbered_machines.push_front(oldest);
                }
            }
        }
    }

    /// The index of the kept state with the greatest number not above this one, if there is one.
    pub(crate) fn nearest(&self, number: u64) -> Option<usize>
        ensures { let greatest = greatest_up_to number (numbers_of self.now.numbered_machines) in
            MatchOption result (greatest ≡ 0)
            (λ index. slice_get (numbers_of self.now.numbered_machines) index ≡ Some greatest) }
    {
        let mut greatest = 0;
        let mut nearest = None;
        for index in 0..self.len() {
            let kept = self.number_at(index);
            if greatest <= kept && kept <= number {
                greatest = kept;
                nearest = Some(index);
            }
        }
        nearest
    }

    /// Goes to a state that is kept: by a copy of its numbered machine, or, where that is refused,
    /// by this numbered machine itself, the present one being kept in its place.
    pub(crate) fn restore(&mut self, alloc: Global, present: &mut NumberedMachine<S>, index: usize)
    where
        S: Drop,
        requires { index < length (items_of self.old.numbered_machines) }
        ensures present { slice_get (items_of self.old.numbered_machines) index ≡ Some present.new }
        ensures ring { MaySwap self.old.numbered_machines index present.old self.new.numbered_machines }
    {
        let Some(numbered_machines) = &mut self.numbered_machines else {
            return;
        };
        if let Some(copy) = numbered_machines
            .get(index)
            .and_then(|numbered_machine| numbered_machine.duplicate(alloc).ok())
        {
            *present = copy;
        } else if let Some(numbered_machine) = numbered_machines.get_mut(index) {
            mem::swap(present, numbered_machine);
        }
    }
}
