//! A machine at a state of its run, by the state's number.

ghost use Rattle.std.specs.Prelude.{◌≡◌, ℕ, ◌+◌, ◌<◌, ◌≤◌, ◌↔◌, true, false, IfOk, OnErr, OnOk};
ghost use Rattle.l6_steps.specs.Configuration.{first_configuration, state_at};
ghost use Rattle.l6_steps.specs.Numbering.{last_number};
ghost use Rattle.l6_steps.specs.Numerals.{most_steps};
ghost use Rattle.l6_steps.specs.Run.{IsReached};
ghost use Rattle.l6_machine.specs.Later.{sees};
ghost use Rattle.l6_history.specs.History.{number_to, run_state_at};

use l6_machine::{Machine, Watch};
use l6_store::Places;
use std::alloc::{AllocError, Global};
use std::marker::Model;

/// A machine at a state of its run, and the number of that state. The start has the number 0, and each
/// step leads to the next one, also a step that traps, which is not counted.
#[derive(Drop)]
pub(crate) struct NumberedMachine<S: Places> {
    machine: Machine<S>,
    number: u64,
}

impl<S: Places> Model for NumberedMachine<S> {
    ghost use Rattle.std.specs.Coded.{codes};
    ghost use Rattle.l6_history.specs.inner.NumberedMachine as numbered_machines;

    ghost Value = { numbered_machines.NumberedMachine };

    ghost coded = { Prim.hlevel (codes) };

    ghost view = { λ m. record { context = m.machine.context; number = m.number } };

    ghost invariant = { λ m. numbered_machines.IsAtState S.rule m.machine m.number };
}

impl<S: Places> NumberedMachine<S> {
    /// A numbered machine of the start. The caller owes a machine that is there.
    pub(crate) fn new(machine: Machine<S>) -> Self
        requires { machine.configuration ≡ first_configuration S.rule machine.context }
        ensures context { result.context ≡ machine.context }
        ensures number { result.number ≡ 0 }
    {
        // a look at the limits, by which they are known to be allowed
        let _ = machine.limits();
        NumberedMachine { machine, number: 0 }
    }

    /// The machine.
    pub(crate) fn machine(&self) -> &Machine<S>
        ensures value { result.now ≡ run_state_at S.rule self.now.context self.now.number }
        ensures reached { IsReached result.now.context result.now.configuration.state }
    {
        // a look at the count, by which the state is known to be reached
        let _ = self.machine.count();
        &self.machine
    }

    /// The number of the state.
    pub(crate) fn number(&self) -> u64
        ensures value { result ≡ self.now.number }
        ensures within { result ≤ last_number S.rule self.now.context }
        ensures bound { last_number S.rule self.now.context ≤ most_steps }
    {
        self.number
    }

    /// A copy of the numbered machine, with a machine of its own.
    pub(crate) fn duplicate(&self, alloc: Global) -> Result<Self, AllocError>
    where
        S: Drop,
        ensures { IfOk result (λ copy. copy ≡ self.now) }
    {
        Ok(NumberedMachine {
            machine: self.machine.duplicate(alloc)?,
            number: self.number,
        })
    }

    /// Becomes another numbered machine of the same run, in the memory that it has. Of the output
    /// only what one of the two has more is copied. If that is refused, nothing changes.
    pub(crate) fn take_from(&mut self, alloc: Global, other: &Self) -> Result<(), AllocError>
    where
        S: Drop,
        requires { self.old.context ≡ other.now.context }
        ensures ok { OnOk result (self.new ≡ other.now) }
        ensures err { OnErr result (self.new ≡ self.old) }
    {
        self.machine.take_from(alloc, &other.machine)?;
        self.number = other.number;
        Ok(())
    }

    /// Goes back to the start.
    pub(crate) fn restart(&mut self)
        ensures context { self.new.context ≡ self.old.context }
        ensures number { self.new.number ≡ 0 }
    {
        self.machine.reset();
        self.number = 0;
    }

    /// Goes on to the state of a number, or to the last one where that comes first. Answers how many
    /// states further that is.
    pub(crate) fn forward(&mut self, number: u64) -> u64
        requires { self.old.number ≤ number }
        ensures context { self.new.context ≡ self.old.context }
        ensures number { self.new.number ≡ number_to S.rule self.old.context number }
        ensures ran { self.new.number ≡ self.old.number + result }
    {
        let ran = self.machine.run_to(number);
        self.number += ran;
        ran
    }

    /// Goes on to the next state that is watched for, to that of a number, or to the last one, where
    /// that comes first. Answers how many states further that is. The caller owes a watch for this
    /// program, for which nothing has changed.
    pub(crate) fn forward_until<W: Watch<S>>(&mut self, watch: &W, number: u64) -> u64
        requires before { self.old.number ≤ number }
        requires suits { W.suits watch.now self.old.context.program }
        requires unchanged { W.changed watch.now
            (state_at S.rule self.old.context self.old.number) ≡ false }
        ensures context { self.new.context ≡ self.old.context }
        ensures within { self.new.number ≤ number_to S.rule self.old.context number }
        ensures ran { self.new.number ≡ self.old.number + result }
        ensures unseen { (k : ℕ) → self.old.number < k → k < self.new.number →
            sees (W.stops watch.now) (W.changed watch.now) (state_at S.rule self.old.context k)
            ≡ false }
        ensures stops { self.new.number < number_to S.rule self.old.context number →
            (self.old.number < self.new.number)
            × (sees (W.stops watch.now) (W.changed watch.now)
            (state_at S.rule self.old.context self.new.number) ≡ true) }
    {
        let ran = self.machine.run_until(watch, number);
        self.number += ran;
        ran
    }

    /// Goes to the next state, where there is one. Answers whether there was.
    pub(crate) fn step(&mut self) -> bool
        ensures context { self.new.context ≡ self.old.context }
        ensures number { self.new.number ≡ number_to S.rule self.old.context (self.old.number + 1) }
        ensures went { (result ≡ true) ↔ (self.old.number < last_number S.rule self.old.context) }
    {
        if self.machine.is_last() {
            return false;
        }
        self.machine.step();
        self.number += 1;
        true
    }
}
