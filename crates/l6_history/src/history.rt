//! A run's history: a machine that goes to any state of its run, and checkpoints to go back from.

ghost use Rattle.std.specs.Prelude.{◌≡◌, ℕ, ◌+◌, ◌-◌, ◌==◌, ◌<◌, ◌≤◌, ◌↔◌, [], true, false, length, slice_get};
ghost use Rattle.std.specs.List.{list_any};
ghost use Rattle.l6_steps.specs.Configuration.{first_configuration, state_at};
ghost use Rattle.l6_steps.specs.Numbering.{last_number};
ghost use Rattle.l6_steps.specs.Numerals.{most_steps};
ghost use Rattle.l6_steps.specs.Run.{IsReached};
ghost use Rattle.l6_machine.specs.Later.{sees};
ghost use Rattle.l6_history.specs.History.{greatest_up_to, number_to, run_state_at, way_from};
ghost use Rattle.l6_history.specs.Numerals.{most_kept};

use crate::numbered_machine::NumberedMachine;
use crate::ring::Ring;
use l6_machine::{Machine, Watch};
use l6_store::Places;
use std::alloc::Global;
use std::marker::Model;

/// A checkpoint is tried at each state whose number is a multiple of this.
pub(crate) const STRIDE: u64 = 4096;

/// A machine at a state of its run, and copies of it at other states, at most 16. States are numbered:
/// the start has the number 0, and each step leads to the next one, also a step that traps, which is
/// not counted.
///
/// Going forward a copy is kept at each state whose number is a multiple of 4,096, if there is
/// memory for one. So to go back takes no more than a copy and 4,095 steps, as long as states near
/// the goal are kept. Without memory for copies it takes more steps, and nothing else changes.
#[derive(Drop)]
pub struct History<S: Places> {
    present: NumberedMachine<S>,
    ring: Ring<S>,
}

impl<S: Places> Model for History<S> {
    ghost use Rattle.std.specs.Coded.{codes};
    ghost use Rattle.l6_history.specs.History as histories;
    ghost use Rattle.l6_history.specs.inner.Ring.{numbers_of, AreCheckpoints};

    ghost Value = { histories.History };

    ghost coded = { Prim.hlevel (codes) };

    ghost view = { λ h. record {
      context = h.present.context;
      number = h.present.number;
      kept = numbers_of h.ring.numbered_machines;
    } };

    ghost invariant = { λ h. AreCheckpoints h.present.context h.ring.numbered_machines };
}

impl<S: Places> History<S> {
    /// The history of a run that has not begun, with no checkpoint. The caller owes a machine that
    /// is at the start.
    pub fn new(alloc: Global, machine: Machine<S>) -> Self
        requires { machine.configuration ≡ first_configuration S.rule machine.context }
        ensures context { result.context ≡ machine.context }
        ensures number { result.number ≡ 0 }
        ensures kept { result.kept ≡ [] }
    {
        History {
            present: NumberedMachine::new(machine),
            ring: Ring::new(alloc),
        }
    }

    /// The machine, at the state to which the history has gone. Steps of the written machine lead
    /// to that state.
    pub fn machine(&self) -> &Machine<S>
        ensures value { result.now ≡ run_state_at S.rule self.now.context self.now.number }
        ensures reached { IsReached result.now.context result.now.configuration.state }
    {
        self.present.machine()
    }

    /// The number of that state, at most that of the last one.
    pub fn number(&self) -> u64
        ensures value { result ≡ self.now.number }
        ensures within { result ≤ last_number S.rule self.now.context }
        ensures bound { last_number S.rule self.now.context ≤ most_steps }
        ensures few { length self.now.kept ≤ most_kept }
    {
        self.present.number()
    }

    /// Whether the state of a number is kept.
    pub fn kept(&self, number: u64) -> bool
        ensures { result ≡ list_any (λ kept. kept == number) self.now.kept }
    {
        self.ring.holds(number)
    }

    /// The number of a state that is kept, by its place among those that are, the oldest first.
    pub fn checkpoint(&self, index: usize) -> Option<u64>
        ensures { result ≡ slice_get self.now.kept index }
    {
        self.ring.number(index)
    }

    /// Goes to the state of a number, or to the last one where that comes first. A state further
    /// back is reached from the nearest one before it that is kept, or from the start. Answers the
    /// distance from there, in states; if copies are refused memory that may be more, and nothing else
    /// changes.
    pub fn to(&mut self, alloc: Global, number: u64) -> u64
    where
        S: Drop,
        ensures context { self.new.context ≡ self.old.context }
        ensures number { self.new.number ≡ number_to S.rule self.old.context number }
        ensures ran { result ≡ self.new.number - way_from self.old number }
        ensures bound { last_number S.rule self.old.context ≤ most_steps }
    {
        if number < self.number() {
            self.go_back(alloc, number);
        }
        self.forward(alloc, number)
    }

    /// Goes to the nearest state that is kept and has a number not above this one, or to the start.
    pub(crate) fn go_back(&mut self, alloc: Global, number: u64)
    where
        S: Drop,
        ensures context { self.new.context ≡ self.old.context }
        ensures number { self.new.number ≡ greatest_up_to number self.old.kept }
    {
        match self.ring.nearest(number) {
            Some(index) => self.ring.restore(alloc, &mut self.present, index),
            None => self.present.restart(),
        }
    }

    /// Goes on to the state of a number, or to the last one where that comes first. Answers how many
    /// states further that is.
    fn forward(&mut self, alloc: Global, number: u64) -> u64
    where
        S: Drop,
        requires { self.old.number ≤ number }
        ensures context { self.new.context ≡ self.old.context }
        ensures number { self.new.number ≡ number_to S.rule self.old.context number }
        ensures ran { result ≡ self.new.number - self.old.number }
    {
        let mut ran = 0;
        while self.number() < number {
            let went = self.stretch(alloc, number);
            if went == 0 {
                return ran;
            }
            ran += went;
        }
        ran
    }

    /// Goes on to the state of a number, or to the last one or the next one at which a checkpoint is
    /// tried, where that comes first. Answers how many states further that is.
    fn stretch(&mut self, alloc: Global, number: u64) -> u64
    where
        S: Drop,
        requires { self.old.number ≤ number }
        ensures context { self.new.context ≡ self.old.context }
        ensures within { self.new.number ≤ number_to S.rule self.old.context number }
        ensures stops { result ≡ 0 → number_to S.rule self.old.context number ≤ self.new.number }
        ensures ran { self.new.number ≡ self.old.number + result }
    {
        let here = self.number();
        let next = here - here % STRIDE + STRIDE;
        let ran = self.present.forward(number.min(next));
        if 0 < ran {
            self.keep(alloc);
        }
        ran
    }

    /// Goes on to the next state that is watched for, to that of a number, to the last one, or to the
    /// next one at which a checkpoint is tried, where that comes first. Answers whether one goes on from
    /// there. The caller owes a watch for this program, for which nothing has changed.
    pub(crate) fn stretch_until<W: Watch<S>>(&mut self, alloc: Global, watch: &W, end: u64) -> bool
    where
        S: Drop,
        requires before { self.old.number ≤ end }
        requires suits { W.suits watch.now self.old.context.program }
        requires unchanged { W.changed watch.now
            (state_at S.rule self.old.context self.old.number) ≡ false }
        ensures context { self.new.context ≡ self.old.context }
        ensures on { self.old.number ≤ self.new.number }
        ensures within { self.new.number ≤ number_to S.rule self.old.context end }
        ensures unseen { (k : ℕ) → self.old.number < k → k < self.new.number →
            sees (W.stops watch.now) (W.changed watch.now) (state_at S.rule self.old.context k)
            ≡ false }
        ensures goes_on { result ≡ true → (self.old.number < self.new.number)
            × (sees (W.stops watch.now) (W.changed watch.now)
            (state_at S.rule self.old.context self.new.number) ≡ false) }
        ensures stops { result ≡ false → self.new.number < number_to S.rule self.old.context end →
            (self.old.number < self.new.number)
            × (sees (W.stops watch.now) (W.changed watch.now)
            (state_at S.rule self.old.context self.new.number) ≡ true) }
        ensures bound { last_number S.rule self.old.context ≤ most_steps }
    {
        let here = self.number();
        let next = here - here % STRIDE + STRIDE;
        if self.present.forward_until(watch, next.min(end)) == 0 {
            return false;
        }
        self.keep(alloc);
        !self.is_seen(watch)
    }

    /// Whether the machine is at a state that is watched for.
    fn is_seen<W: Watch<S>>(&self, watch: &W) -> bool
        ensures { result ≡ sees (W.stops watch.now) (W.changed watch.now)
            (state_at S.rule self.now.context self.now.number) }
    {
        let machine = self.machine();
        watch.is_at_stop(machine) || watch.has_changed(machine)
    }

    /// Goes to the next state, where there is one. Answers whether there was.
    pub fn step(&mut self, alloc: Global) -> bool
    where
        S: Drop,
        ensures context { self.new.context ≡ self.old.context }
        ensures number { self.new.number ≡ number_to S.rule self.old.context (self.old.number + 1) }
        ensures went { (result ≡ true) ↔ (self.old.number < last_number S.rule self.old.context) }
    {
        let went = self.present.step();
        // one number in many is looked at more closely
        if went && self.present.number() % STRIDE == 0 {
            self.keep(alloc);
        }
        went
    }

    /// Keeps a copy of the present state, which a step led to, where one is to be tried and none is
    /// kept.
    fn keep(&mut self, alloc: Global)
    where
        S: Drop,
        ensures context { self.new.context ≡ self.old.context }
        ensures number { self.new.number ≡ self.old.number }
    {
        let number = self.present.number();
        if number % STRIDE == 0 && !self.ring.holds(number) {
            self.ring.add(alloc, &self.present);
        }
    }
}
