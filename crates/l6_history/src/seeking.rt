//! Going through a run to where one stops, forward or back.

ghost use Rattle.std.specs.Prelude.{◌≡◌, ◌<◌, ◌≤◌};
ghost use Rattle.l6_steps.specs.Numbering.{last_number};
ghost use Rattle.l6_history.specs.Seeking.{next_stop, previous_stop};
ghost use Rattle.l6_history.specs.inner.Seeking.{ComparesValues, IsLastIn, is_met_back, later_of, met_to, next_met, previous_met, stop_to};

use crate::history::History;
use crate::seeker::Seeker;
use crate::stop::Stop;
use crate::watches::{BreakpointWatch, BugWatch, ChainWatch, ChangeWatch, StateWatch};
use l6_store::Places;
use std::alloc::Global;

/// Whether one goes forward or back.
#[derive(Clone, Copy, Debug, PartialEq, Eq)]
enum Direction {
    Forward,
    Back,
}

impl<S: Places> History<S> {
    /// Goes to the first later state at which one stops, or to the last state.
    pub fn to_next(&mut self, alloc: Global, stop: &Stop)
    where
        S: Drop,
        ensures context { self.new.context ≡ self.old.context }
        ensures number { self.new.number
            ≡ next_stop S.rule self.old.context stop.now self.old.number }
    {
        if stop.is_nowhere() {
            self.to(alloc, u64::MAX);
            return;
        }
        self.to_stop(alloc, stop, Direction::Forward);
    }

    /// Goes to the latest earlier state at which one stops, or to the start.
    pub fn to_previous(&mut self, alloc: Global, stop: &Stop)
    where
        S: Drop,
        ensures context { self.new.context ≡ self.old.context }
        ensures number { self.new.number
            ≡ previous_stop S.rule self.old.context stop.now self.old.number }
    {
        if stop.is_nowhere() {
            self.to(alloc, 0);
            return;
        }
        self.to_stop(alloc, stop, Direction::Back);
    }

    /// Goes to the nearest state in a direction at which one stops, or to where the run begins or ends,
    /// by the watch that costs least.
    fn to_stop(&mut self, alloc: Global, stop: &Stop, direction: Direction)
    where
        S: Drop,
        ensures context { self.new.context ≡ self.old.context }
        ensures number { self.new.number
            ≡ stop_to S.rule self.old.context stop.now direction self.old.number }
    {
        if stop.watched().len() == 0 {
            if stop.looks_further() {
                return self.seek(alloc, &mut StateWatch::new(stop), direction);
            }
            return self.seek(alloc, &mut BreakpointWatch::new(stop), direction);
        }
        if let Some(bug) = stop.watched_bug() {
            return self.seek(alloc, &mut BugWatch::new(stop, bug), direction);
        }
        let mut watch = ChainWatch::new(alloc, stop, self.machine());
        if stop.may_stop() {
            return self.seek(alloc, &mut watch, direction);
        }
        self.seek(alloc, &mut ChangeWatch::new(watch), direction);
    }

    /// Goes to the nearest state in a direction that a watch is for, or to where the run begins or ends.
    /// The caller owes a watch for this program, for which values are compared.
    fn seek<W: Seeker<S>>(&mut self, alloc: Global, watch: &mut W, direction: Direction)
    where
        S: Drop,
        requires made { W.IsFor watch.old self.old.context.program }
        requires compares { ComparesValues (W.goal watch.old) }
        ensures context { self.new.context ≡ self.old.context }
        ensures number { self.new.number
            ≡ met_to S.rule self.old.context (W.goal watch.old) direction self.old.number }
    {
        match direction {
            Direction::Forward => self.seek_next(alloc, watch),
            Direction::Back => self.seek_previous(alloc, watch),
        }
    }

    /// Goes to the first later state that a watch is for, or to the last state. The caller owes a watch
    /// for this program.
    fn seek_next<W: Seeker<S>>(&mut self, alloc: Global, watch: &mut W)
    where
        S: Drop,
        requires made { W.IsFor watch.old self.old.context.program }
        requires compares { ComparesValues (W.goal watch.old) }
        ensures context { self.new.context ≡ self.old.context }
        ensures number { self.new.number
            ≡ next_met S.rule self.old.context (W.goal watch.old) self.old.number }
    {
        // a look at the number, by which it is known to be that of a state
        let _ = self.number();
        watch.begin(self.machine());
        'stretches: while self.stretch_until(alloc, watch, u64::MAX) {}
    }

    /// Goes to the latest earlier state that a watch is for, or to the start. The caller owes a watch for
    /// this program.
    fn seek_previous<W: Seeker<S>>(&mut self, alloc: Global, watch: &mut W)
    where
        S: Drop,
        requires made { W.IsFor watch.old self.old.context.program }
        requires compares { ComparesValues (W.goal watch.old) }
        ensures context { self.new.context ≡ self.old.context }
        ensures number { self.new.number
            ≡ previous_met S.rule self.old.context (W.goal watch.old) self.old.number }
    {
        let here = self.number();
        let number = self.latest(alloc, watch, here).unwrap_or(0);
        self.to(alloc, number);
    }

    /// The number of the latest state before one that a watch is for, coming from the state after it. From
    /// each state that is kept, the latest first, and at last from the start, it looks through the states up
    /// to those that it has looked through before. The caller owes a watch for this program, for which values are compared.
    pub(crate) fn latest<W: Seeker<S>>(
        &mut self,
        alloc: Global,
        watch: &mut W,
        end: u64,
    ) -> Option<u64>
    where
        S: Drop,
        requires made { W.IsFor watch.old self.old.context.program }
        requires compares { ComparesValues (W.goal watch.old) }
        requires within { end ≤ last_number S.rule self.old.context }
        ensures context { self.new.context ≡ self.old.context }
        ensures last { IsLastIn (is_met_back S.rule self.old.context (W.goal watch.old)) 0 end result }
    {
        let mut rest = end;
        'stretches: while 0 < rest {
            self.go_back(alloc, rest - 1);
            let begin = self.number();
            match self.last_met(alloc, watch, rest) {
                Some(number) => return Some(number),
                None => rest = begin,
            }
        }
        None
    }

    /// Goes on to the state of a number. Answers the number of the latest state before it that a watch is
    /// for, coming from the state after it. The caller owes a watch for this program, for which values are compared.
    fn last_met<W: Seeker<S>>(&mut self, alloc: Global, watch: &mut W, end: u64) -> Option<u64>
    where
        S: Drop,
        requires made { W.IsFor watch.old self.old.context.program }
        requires compares { ComparesValues (W.goal watch.old) }
        requires before { self.old.number < end }
        requires within { end ≤ last_number S.rule self.old.context }
        ensures context { self.new.context ≡ self.old.context }
        ensures made { W.IsFor watch.new self.old.context.program }
        ensures same { W.goal watch.new ≡ W.goal watch.old }
        ensures last { IsLastIn (is_met_back S.rule self.old.context (W.goal watch.old))
            self.old.number end result }
    {
        let mut last = None;
        watch.begin(self.machine());
        'states: while self.number() < end {
            last = later_of(watch.is_at_stop(self.machine()), self.number(), last);
            self.stretch_until(alloc, watch, end);
            if watch.has_changed(self.machine()) {
                last = Some(self.number() - 1);
                watch.begin(self.machine());
            }
        }
        last
    }
}

/// The number, if it passes, or the answer so far.
fn later_of(passes: bool, number: u64, last: Option<u64>) -> Option<u64>
    ensures { result ≡ later_of passes number last }
{
    if passes { Some(number) } else { last }
}
