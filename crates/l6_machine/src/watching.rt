//! Going on to a state that one watches for.

ghost use Rattle.std.specs.Prelude.{◌≡◌, ℕ, ◌+◌, ◌-◌, ◌<◌, ◌≤◌, ◌↔◌, Bool, true, false, min, List, None};
ghost use Rattle.l6_prog.specs.Statement.{Parts};
ghost use Rattle.l6_steps.specs.Configuration.{configuration_after};
ghost use Rattle.l6_steps.specs.State.{State, is_last};
ghost use Rattle.l6_machine.specs.Counting.{number_of};
ghost use Rattle.l6_machine.specs.Later.{configuration_later, sees, state_later};

use crate::machine::Machine;
use l6_store::Places;

/// What one watches for, going through a run: states at which one stops, and changes of what one
/// watches.
pub trait Watch<S: Places> {
    // The states at which one stops, wherever one comes from.
    ghost stops: { Self → State → Bool };

    // The states at which what one watches is not as it was at first.
    ghost changed: { Self → State → Bool };

    // The programs through whose runs one may go.
    ghost suits: { Self → List Parts → Type 0 };

    /// Whether one stops at the state of a machine, wherever one comes from.
    fn is_at_stop(&self, machine: &Machine<S>) -> bool
        ensures { result ≡ stops self.now machine.now.configuration.state };

    /// Whether what one watches may change at the next step of a machine.
    fn may_change(&self, machine: &Machine<S>) -> bool
        requires { suits self.now machine.now.context.program }
        ensures { result ≡ false → changed self.now
            (configuration_after S.rule machine.now.context machine.now.configuration).state
            ≡ changed self.now machine.now.configuration.state };

    /// Whether what one watches has changed at the state of a machine.
    fn has_changed(&self, machine: &Machine<S>) -> bool
        ensures { result ≡ changed self.now machine.now.configuration.state };
}

impl<S: Places> Machine<S> {
    /// Makes a step, and further ones until the machine is at a state that is watched for, the run has
    /// ended, is at its limit or has counted as many steps as this. Answers how many steps were made,
    /// the one that traps among them. No step is made where the run goes no further or has counted so
    /// many. The caller owes a watch for this program, for which nothing has changed.
    pub fn run_until<W: Watch<S>>(&mut self, watch: &W, count: u64) -> u64
        requires suits { W.suits watch.now self.old.context.program }
        requires unchanged { W.changed watch.now self.old.configuration.state ≡ false }
        ensures there { self.new.configuration
            ≡ configuration_later S.rule self.old.context result self.old.configuration }
        ensures context { self.new.context ≡ self.old.context }
        ensures goes_on { (k : ℕ) → k < result →
            is_last self.old.context
            (state_later S.rule self.old.context k self.old.configuration) ≡ false }
        ensures unseen { (k : ℕ) → 0 < k → k < result →
            sees (W.stops watch.now) (W.changed watch.now)
            (state_later S.rule self.old.context k self.old.configuration) ≡ false }
        ensures few { result ≤ count - number_of self.old.configuration.state }
        ensures stops { is_last self.new.context self.new.configuration.state ≡ false →
            self.new.configuration.state.count < count →
            (0 < result) × (sees (W.stops watch.now) (W.changed watch.now)
            self.new.configuration.state ≡ true) }
    {
        let limit = count.min(self.limits().steps);
        let mut made = 0;
        'steps: while self.goes_on_below(limit) {
            let may_change = watch.may_change(self);
            self.go_on::<W>();
            made += 1;
            if self.is_seen(watch, may_change) {
                return made;
            }
        }
        made
    }

    /// Whether the machine is at a state that is watched for. The caller owes that nothing has changed
    /// unless it may.
    #[inline(always)]
    fn is_seen<W: Watch<S>>(&self, watch: &W, may_change: bool) -> bool
        requires { may_change ≡ false → W.changed watch.now self.now.configuration.state ≡ false }
        ensures { result ≡ sees (W.stops watch.now) (W.changed watch.now) self.now.configuration.state }
    {
        watch.is_at_stop(self) || may_change && watch.has_changed(self)
    }

    /// Whether the run has not ended, and has counted fewer steps than this.
    #[inline(always)]
    fn goes_on_below(&self, limit: u64) -> bool
        ensures value { (result ≡ true) ↔ ((self.now.configuration.state.ending ≡ None)
            × (self.now.configuration.state.count < limit)) }
        ensures within { self.now.configuration.state.count ≤ self.now.context.parameters.limits.steps }
    {
        self.progress.ending.is_none() && self.progress.count < limit
    }

    /// Makes a step, from where the run goes on, for a caller that tells itself from others by `C`.
    #[inline(always)]
    fn go_on<C>(&mut self)
        requires goes_on { self.old.configuration.state.ending ≡ None }
        requires below { self.old.configuration.state.count < self.old.context.parameters.limits.steps }
        ensures configuration { self.new.configuration
            ≡ configuration_after S.rule self.old.context self.old.configuration }
        ensures context { self.new.context ≡ self.old.context }
        ensures counted { number_of self.new.configuration.state ≡ self.old.configuration.state.count + 1 }
    {
        self.progress
            .go_here::<S, C>(&self.code, &mut self.registers);
    }
}
