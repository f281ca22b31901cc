//! What one watches for on the way to where one stops.
//!
//! What a chain or a word reads as is compared with what it read as where the watch began: up to a stop it
//! never changes.

ghost use Rattle.std.specs.Prelude.{◌≡◌, ◌≤◌};
ghost use Rattle.l6_prog.specs.Numerals.{first_letter};
ghost use Rattle.l6_history.specs.Stop.{values_of};
ghost use Rattle.l6_history.specs.inner.Changing.{IsTable};

use crate::changing::ChangeTable;
use crate::seeker::Seeker;
use crate::stop::{MAX_WATCHED, Stop};
use crate::values::{differ, see, values_of};
use arrayvec::ArrayVec;
use l6_machine::{Machine, Watch};
use l6_prog::Name;
use l6_store::Places;
use l6_word::Word;
use std::alloc::Global;
use std::marker::Model;

/// One watches for breakpoints.
#[derive(Drop)]
pub(crate) struct BreakpointWatch<'a> {
    stop: &'a Stop,
}

impl<'a> BreakpointWatch<'a> {
    /// By a stop, without its other states and what it watches.
    pub(crate) fn new(stop: &'a Stop) -> Self
        ensures { result.stop.now ≡ stop.now }
    {
        BreakpointWatch { stop }
    }
}

impl<'a, S: Places> Watch<S> for BreakpointWatch<'a> {
    ghost use Rattle.std.specs.Prelude.{⊤, false};
    ghost use Rattle.l6_history.specs.Stop.{breaks_at};

    ghost stops = { λ w state. breaks_at w.stop.now state };

    ghost changed = { λ _ _. false };

    ghost suits = { λ _ _. ⊤ };

    #[inline(always)]
    fn is_at_stop(&self, machine: &Machine<S>) -> bool {
        self.stop.breaks_at(machine)
    }

    #[inline(always)]
    fn may_change(&self, _: &Machine<S>) -> bool {
        false
    }

    #[inline(always)]
    fn has_changed(&self, _: &Machine<S>) -> bool {
        false
    }
}

impl<'a, S: Places> Seeker<S> for BreakpointWatch<'a> {
    ghost use Rattle.l6_history.specs.inner.Seeking.{goal_of};
    ghost use Rattle.l6_history.specs.inner.Watches.{IsForBreakpoints};

    ghost goal = { λ w. goal_of w.stop.now };

    ghost IsFor = { λ w _. IsForBreakpoints w.stop.now };

    fn begin(&mut self, _: &Machine<S>) {}
}

/// One watches for breakpoints, for statements, and for how many calls wait.
#[derive(Drop)]
pub(crate) struct StateWatch<'a> {
    stop: &'a Stop,
}

impl<'a> StateWatch<'a> {
    /// By a stop, without what it watches.
    pub(crate) fn new(stop: &'a Stop) -> Self
        ensures { result.stop.now ≡ stop.now }
    {
        StateWatch { stop }
    }
}

impl<'a, S: Places> Watch<S> for StateWatch<'a> {
    ghost use Rattle.std.specs.Prelude.{⊤, false};
    ghost use Rattle.l6_history.specs.Stop.{stops_at};

    ghost stops = { λ w state. stops_at w.stop.now state };

    ghost changed = { λ _ _. false };

    ghost suits = { λ _ _. ⊤ };

    #[inline(always)]
    fn is_at_stop(&self, machine: &Machine<S>) -> bool {
        self.stop.stops_at(machine)
    }

    #[inline(always)]
    fn may_change(&self, _: &Machine<S>) -> bool {
        false
    }

    #[inline(always)]
    fn has_changed(&self, _: &Machine<S>) -> bool {
        false
    }
}

impl<'a, S: Places> Seeker<S> for StateWatch<'a> {
    ghost use Rattle.l6_history.specs.inner.Seeking.{goal_of};
    ghost use Rattle.l6_history.specs.inner.Watches.{IsForStates};

    ghost goal = { λ w. goal_of w.stop.now };

    ghost IsFor = { λ w _. IsForStates w.stop.now };

    fn begin(&mut self, _: &Machine<S>) {}
}

/// One watches what a bug holds, too.
#[derive(Drop)]
pub(crate) struct BugWatch<'a> {
    stop: &'a Stop,
    bug: Name,
    /// What it held where the watch began.
    word: Word,
}

impl<'a> Model for BugWatch<'a> {
    ghost use Rattle.std.specs.Prelude.{◌≤◌};
    ghost use Rattle.l6_prog.specs.Numerals.{first_letter};
    ghost use Rattle.l6_history.specs.inner.Watches as watches;

    ghost Value = { watches.BugWatch };

    ghost view = { λ w. record { stop = w.stop.now; bug = w.bug; word = w.word } };

    ghost invariant = { λ w. first_letter ≤ w.bug };
}

impl<'a> BugWatch<'a> {
    /// By a stop and a bug. The caller owes a letter.
    pub(crate) fn new(stop: &'a Stop, bug: Name) -> Self
        requires { first_letter ≤ bug }
        ensures stop { result.stop ≡ stop.now }
        ensures bug { result.bug ≡ bug }
    {
        BugWatch {
            stop,
            bug,
            word: Word::default(),
        }
    }
}

impl<'a, S: Places> Watch<S> for BugWatch<'a> {
    ghost use Rattle.std.specs.Prelude.{⊤};
    ghost use Rattle.l6_history.specs.Stop.{stops_at};
    ghost use Rattle.l6_history.specs.inner.Watches.{bug_changed};

    ghost stops = { λ w state. stops_at w.stop state };

    ghost changed = { bug_changed };

    ghost suits = { λ _ _. ⊤ };

    #[inline(always)]
    fn is_at_stop(&self, machine: &Machine<S>) -> bool {
        self.stop.stops_at(machine)
    }

    // the bug is compared faster than a table is looked into
    #[inline(always)]
    fn may_change(&self, _: &Machine<S>) -> bool {
        true
    }

    #[inline(always)]
    fn has_changed(&self, machine: &Machine<S>) -> bool {
        self.word.get() != machine.bug(self.bug).get()
    }
}

impl<'a, S: Places> Seeker<S> for BugWatch<'a> {
    ghost use Rattle.l6_history.specs.inner.Seeking.{goal_of};
    ghost use Rattle.l6_history.specs.inner.Watches.{IsForBug};

    ghost goal = { λ w. goal_of w.stop };

    ghost IsFor = { λ w _. IsForBug w };

    fn begin(&mut self, machine: &Machine<S>) {
        self.word = machine.bug(self.bug);
    }
}

/// One watches what chains and words read as, too.
#[derive(Drop)]
pub(crate) struct ChainWatch<'a> {
    stop: &'a Stop,
    /// What each watched chain and word read as where the watch began, if it could be read.
    values: ArrayVec<Option<Word>, MAX_WATCHED>,
    /// For each action of the program, whether it may change that.
    table: ChangeTable,
}

impl<'a> Model for ChainWatch<'a> {
    ghost use Rattle.std.specs.Prelude.{◌≡◌, length};
    ghost use Rattle.l6_history.specs.inner.Watches as watches;

    ghost Value = { watches.ChainWatch };

    ghost view = { λ w. record {
      stop = w.stop.now;
      values = w.values.items;
      table = w.table;
    } };

    ghost invariant = { λ w. length w.values.items ≡ length w.stop.now.watched };
}

impl<'a> ChainWatch<'a> {
    /// By a stop, as a machine has what it watches.
    pub(crate) fn new<S: Places>(alloc: Global, stop: &'a Stop, machine: &Machine<S>) -> Self
        ensures stop { result.stop ≡ stop.now }
        ensures values { result.values
            ≡ values_of stop.now.watched machine.now.configuration.state.memory }
        ensures table { IsTable stop.now.watched machine.now.context.program result.table }
    {
        ChainWatch {
            stop,
            values: values_of(stop, machine),
            table: ChangeTable::new(alloc, machine.program(), stop.watched()),
        }
    }
}

impl<'a, S: Places> Watch<S> for ChainWatch<'a> {
    ghost use Rattle.l6_history.specs.Stop.{stops_at};
    ghost use Rattle.l6_history.specs.inner.Watches.{IsOf, chains_changed};

    ghost stops = { λ w state. stops_at w.stop state };

    ghost changed = { chains_changed };

    ghost suits = { IsOf };

    #[inline(always)]
    fn is_at_stop(&self, machine: &Machine<S>) -> bool {
        self.stop.stops_at(machine)
    }

    #[inline(always)]
    fn may_change(&self, machine: &Machine<S>) -> bool {
        self.table.says(machine.at())
    }

    #[inline(always)]
    fn has_changed(&self, machine: &Machine<S>) -> bool {
        differ(self.values.as_slice(), self.stop.watched(), machine)
    }
}

impl<'a, S: Places> Seeker<S> for ChainWatch<'a> {
    ghost use Rattle.l6_history.specs.inner.Seeking.{goal_of};
    ghost use Rattle.l6_history.specs.inner.Watches.{IsForChains};

    ghost goal = { λ w. goal_of w.stop };

    ghost IsFor = { IsForChains };

    fn begin(&mut self, machine: &Machine<S>) {
        see(self.values.as_mut_slice(), self.stop.watched(), machine);
    }
}

/// One watches what chains and words read as alone: there is no state at which one stops.
#[derive(Drop)]
pub(crate) struct ChangeWatch<'a> {
    chains: ChainWatch<'a>,
}

impl<'a> Model for ChangeWatch<'a> {
    ghost use Rattle.l6_history.specs.inner.Watches as watches;

    ghost Value = { watches.ChainWatch };

    ghost view = { λ w. w.chains };
}

impl<'a> ChangeWatch<'a> {
    /// What a watch reads, without the states at which one stops.
    pub(crate) fn new(chains: ChainWatch<'a>) -> Self
        ensures { result ≡ chains.entry }
    {
        ChangeWatch { chains }
    }
}

impl<'a, S: Places> Watch<S> for ChangeWatch<'a> {
    ghost use Rattle.std.specs.Prelude.{false};
    ghost use Rattle.l6_history.specs.inner.Watches.{IsOf, chains_changed};

    ghost stops = { λ _ _. false };

    ghost changed = { chains_changed };

    ghost suits = { IsOf };

    #[inline(always)]
    fn is_at_stop(&self, _: &Machine<S>) -> bool {
        false
    }

    #[inline(always)]
    fn may_change(&self, machine: &Machine<S>) -> bool {
        self.chains.may_change(machine)
    }

    #[inline(always)]
    fn has_changed(&self, machine: &Machine<S>) -> bool {
        self.chains.has_changed(machine)
    }
}

impl<'a, S: Places> Seeker<S> for ChangeWatch<'a> {
    ghost use Rattle.l6_history.specs.inner.Seeking.{goal_of};
    ghost use Rattle.l6_history.specs.inner.Watches.{IsForChanges};

    ghost goal = { λ w. goal_of w.stop };

    ghost IsFor = { IsForChanges };

    fn begin(&mut self, machine: &Machine<S>) {
        let stop = self.chains.stop;
        see(self.chains.values.as_mut_slice(), stop.watched(), machine);
    }
}
