//! Where one stops that goes through a run.

ghost use Rattle.std.specs.Prelude.{◌≡◌, ◌<◌, ◌≤◌, ◌||◌, ◌++◌, ◌∷◌, [], length, replicate, slice_index_or, slice_set, false, is_some, IfOk, IfSome, Some, None};
ghost use Rattle.std.specs.List.{list_any, remove};
ghost use Rattle.l6_prog.specs.Numerals.{first_letter};
ghost use Rattle.l6_history.specs.Numerals.{most_watched};
ghost use Rattle.l6_history.specs.Stop.{breaks_at, is_at_breakpoint, is_shallow, is_wanted, meets, nowhere, stops_at, stops_nowhere};

use crate::testing::is_met;
use crate::watched::Watched;
use l6_machine::Machine;
use l6_prog::{Name, Test};
use l6_store::Places;
use std::alloc::{AllocError, Global};
use std::marker::Model;
use std::mem;

/// How many chains and words may be watched at once.
pub const MAX_WATCHED: usize = 8;

/// Where one stops that goes through a run: at the conditions of statements with a breakpoint, where its
/// test holds or meets a trap, if it has one; where a watched chain or word reads as another value than in
/// the state from which one comes, or can be read in one of the two alone; at the conditions of all
/// statements; and where no more than so many calls wait, at those conditions alone if one stops at each.
#[derive(Drop)]
pub struct Stop {
    /// For each statement, whether it has a breakpoint.
    breakpoints: Vec<bool>,
    /// For each statement, the test of its breakpoint, if it has one.
    tests: Vec<Option<Test>>,
    /// Whether one stops at each statement.
    each: bool,
    /// What is watched, with room for all that may be.
    watched: Vec<Watched>,
    /// One stops where no more calls than this wait.
    depth: Option<usize>,
}

impl Model for Stop {
    ghost use Rattle.std.specs.Prelude.{◌≡◌, ◌≤◌, length, vec_capacity};
    ghost use Rattle.std.specs.Coded.{codes};
    ghost use Rattle.l6_history.specs.Numerals.{most_watched};
    ghost use Rattle.l6_history.specs.Stop as stops;

    ghost Value = { stops.Stop };

    ghost coded = { Prim.hlevel (codes) };

    ghost view = { λ s. record {
      breakpoints = s.breakpoints.items;
      tests = s.tests.items;
      each = s.each;
      watched = s.watched.items;
      depth = s.depth;
    } };

    ghost invariant = { λ s. (length s.tests.items ≡ length s.breakpoints.items)
        × (length s.watched.items ≤ most_watched)
        × (most_watched ≤ vec_capacity s.watched) };
}

impl Stop {
    /// Nowhere in a program of so many statements.
    ///
    /// # Errors
    ///
    /// Memory ran out.
    pub fn new(alloc: Global, statements: usize) -> Result<Self, AllocError>
        ensures { IfOk result (λ stop. stop ≡ nowhere statements) }
    {
        Ok(Stop {
            breakpoints: vec![in alloc; false; statements]?,
            tests: vec![in alloc; None; statements]?,
            each: false,
            watched: Vec::with_capacity(alloc, MAX_WATCHED)?,
            depth: None,
        })
    }

    /// For each statement, whether it has a breakpoint.
    pub fn breakpoints(&self) -> &[bool]
        ensures { result.now ≡ self.now.breakpoints }
    {
        self.breakpoints.as_slice()
    }

    /// Sets the breakpoint of a statement, or removes it, if there is such a statement.
    pub fn set_breakpoint(&mut self, statement: u64, has_breakpoint: bool)
        ensures { self.new ≡ record self.old {
          breakpoints = slice_set self.old.breakpoints statement has_breakpoint;
        } }
    {
        if let Some(breakpoint) = self.breakpoints.get_mut(statement as usize) {
            *breakpoint = has_breakpoint;
        }
    }

    /// For each statement, the test of its breakpoint, if it has one.
    pub fn tests(&self) -> &[Option<Test>]
        ensures value { result.now ≡ self.now.tests }
        ensures each { length self.now.tests ≡ length self.now.breakpoints }
    {
        self.tests.as_slice()
    }

    /// Gives a statement's breakpoint a test, or none, if there is such a statement. Answers the one that
    /// it had.
    pub fn set_test(&mut self, statement: u64, test: Option<Test>) -> Option<Test>
        ensures had { result ≡ slice_index_or self.old.tests statement None }
        ensures given { self.new ≡ record self.old { tests = slice_set self.old.tests statement test } }
    {
        match self.tests.get_mut(statement as usize) {
            Some(there) => mem::replace(there, test),
            None => None,
        }
    }

    /// One stops at each statement, or no longer.
    pub fn set_each(&mut self, each: bool)
        ensures { self.new ≡ record self.old { each = each } }
    {
        self.each = each;
    }

    /// What is watched, in the order in which it was added.
    pub fn watched(&self) -> &[Watched]
        ensures value { result.now ≡ self.now.watched }
        ensures within { length result.now ≤ most_watched }
    {
        self.watched.as_slice()
    }

    /// Watches a further chain or word. The caller owes that fewer than `MAX_WATCHED` are watched.
    pub fn watch(&mut self, watched: Watched)
        requires { length self.old.watched < most_watched }
        ensures { self.new ≡ record self.old { watched = self.old.watched ++ watched ∷ [] } }
    {
        let _ = self.watched.push(watched);
    }

    /// Watches a chain or a word no longer, by its place among what is watched. The caller owes that
    /// there is one.
    pub fn unwatch(&mut self, index: usize)
        requires { index < length self.old.watched }
        ensures { self.new ≡ record self.old { watched = remove self.old.watched index } }
    {
        self.watched.remove(index);
    }

    /// Stops nowhere any longer.
    pub fn clear(&mut self)
        ensures { self.new ≡ nowhere (length self.old.breakpoints) }
    {
        self.breakpoints.fill(false);
        clear_tests(self.tests.as_mut_slice());
        self.each = false;
        self.watched.clear();
        self.depth = None;
    }

    /// One stops where no more calls than this wait.
    pub fn set_depth(&mut self, depth: Option<usize>)
        ensures { self.new ≡ record self.old { depth = depth } }
    {
        self.depth = depth;
    }

    /// Whether there is nothing at which one would stop.
    pub(crate) fn is_nowhere(&self) -> bool
        ensures { result ≡ stops_nowhere self.now }
    {
        !self.has_breakpoints() && self.watched.len() == 0 && !self.each && self.depth.is_none()
    }

    /// Whether there may be a state at which one would stop, wherever one comes from.
    pub(crate) fn may_stop(&self) -> bool
        ensures { result ≡ (list_any (λ breakpoint. breakpoint) self.now.breakpoints
            || (self.now.each || is_some self.now.depth)) }
    {
        self.has_breakpoints() || self.looks_further()
    }

    /// Whether a statement has a breakpoint.
    fn has_breakpoints(&self) -> bool
        ensures { result ≡ list_any (λ breakpoint. breakpoint) self.now.breakpoints }
    {
        self.breakpoints.iter().any(|breakpoint| *breakpoint)
    }

    /// The bug that is watched, if it is one alone, and nothing else is.
    pub(crate) fn watched_bug(&self) -> Option<Name>
        ensures alone { IfSome result (λ bug. self.now.watched ≡ Watched.Chain (bug ∷ []) ∷ []) }
        ensures letter { IfSome result (λ bug. first_letter ≤ bug) }
    {
        let [Watched::Chain(chain)] = self.watched.as_slice() else {
            return None;
        };
        if chain.names().len() == 1 {
            Some(chain.bug())
        } else {
            None
        }
    }

    /// Whether one stops at the state at which a machine is, wherever one comes from.
    #[inline(always)]
    pub(crate) fn stops_at<S: Places>(&self, machine: &Machine<S>) -> bool
        ensures { result ≡ stops_at self.now machine.now.configuration.state }
    {
        self.breaks_at(machine) || self.is_wanted(machine)
    }

    /// Whether one stops at each statement, or where no more than so many calls wait.
    pub(crate) fn looks_further(&self) -> bool
        ensures { result ≡ (self.now.each || is_some self.now.depth) }
    {
        self.each || self.depth.is_some()
    }

    /// Whether one stops at the breakpoint of a statement.
    #[inline(always)]
    pub(crate) fn breaks_at<S: Places>(&self, machine: &Machine<S>) -> bool
        ensures { result ≡ breaks_at self.now machine.now.configuration.state }
    {
        self.is_at_breakpoint(machine) && self.meets(machine)
    }

    /// Whether the state is at the condition of a statement with a breakpoint.
    #[inline(always)]
    fn is_at_breakpoint<S: Places>(&self, machine: &Machine<S>) -> bool
        ensures { result ≡ is_at_breakpoint self.now.breakpoints machine.now.configuration.state }
    {
        let at = machine.at();
        at.action == 0 && self.has_breakpoint(at.statement)
    }

    /// Whether the test of the statement's breakpoint is met, if it has one.
    #[inline(never)]
    pub fn meets<S: Places>(&self, machine: &Machine<S>) -> bool
        ensures { result ≡ meets self.now.tests machine.now.configuration.state }
    {
        match self.tests.get(usize::from(machine.at().statement)) {
            Some(Some(test)) => is_met(test, machine),
            _ => true,
        }
    }

    /// Whether no more calls wait than may, or a statement begins, where one stops at each.
    #[inline(always)]
    fn is_wanted<S: Places>(&self, machine: &Machine<S>) -> bool
        ensures { result
            ≡ is_wanted self.now.each self.now.depth machine.now.configuration.state }
    {
        if self.each {
            machine.at().action == 0 && (self.depth.is_none() || self.is_shallow(machine))
        } else {
            self.is_shallow(machine)
        }
    }

    /// Whether a statement has a breakpoint.
    #[inline(always)]
    fn has_breakpoint(&self, statement: u16) -> bool
        ensures { result ≡ slice_index_or self.now.breakpoints statement false }
    {
        self.breakpoints
            .get(usize::from(statement))
            .copied()
            .unwrap_or(false)
    }

    /// Whether no more calls wait than may.
    #[inline(always)]
    fn is_shallow<S: Places>(&self, machine: &Machine<S>) -> bool
        ensures { result ≡ is_shallow self.now.depth machine.now.configuration.state }
    {
        match self.depth {
            Some(depth) => machine.depths().returns <= depth,
            None => false,
        }
    }
}

/// Takes the tests of all statements away.
fn clear_tests(tests: &mut [Option<Test>])
    ensures { tests.new ≡ replicate (length tests.old) None }
{
    let mut index: usize = 0;
    while index < tests.len() {
        tests[index] = None;
        index += 1;
    }
}
