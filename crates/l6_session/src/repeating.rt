//! What a session does several times: it goes on or back to stops, or to where statements begin.

ghost use Rattle.std.specs.Prelude.{◌≡◌};
ghost use Rattle.l6_session.specs.SessionState.{back, back_over, back_over_statement, back_statement, on, on_statement, over, over_statement, times};

use crate::session::{MAX_REPEATS, Session};
use l6_store::Places;
use std::alloc::Global;

impl<S: Places> Session<S> {
    /// Goes on to where one stops, so many times, but no more often than `MAX_REPEATS`.
    pub(crate) fn go_on(&mut self, alloc: Global, count: u64)
    where
        S: Drop,
        ensures context { self.new.context ≡ self.old.context }
        ensures state { self.new.state
            ≡ times count (on S.rule self.old.context) self.old.state }
    {
        for _ in 0..count.min(MAX_REPEATS) {
            self.on(alloc);
        }
    }

    /// Goes back to where one stops, so many times, but no more often than `MAX_REPEATS`.
    pub(crate) fn go_back(&mut self, alloc: Global, count: u64)
    where
        S: Drop,
        ensures context { self.new.context ≡ self.old.context }
        ensures state { self.new.state
            ≡ times count (back S.rule self.old.context) self.old.state }
    {
        for _ in 0..count.min(MAX_REPEATS) {
            self.back(alloc);
        }
    }

    /// Goes on to where one stops, or where no more calls wait than there, so many times, but no more
    /// often than `MAX_REPEATS`.
    pub(crate) fn go_over(&mut self, alloc: Global, count: u64)
    where
        S: Drop,
        ensures context { self.new.context ≡ self.old.context }
        ensures state { self.new.state
            ≡ times count (over S.rule self.old.context) self.old.state }
    {
        for _ in 0..count.min(MAX_REPEATS) {
            self.on_to(alloc, self.depth());
        }
    }

    /// Goes back to where one stops, or where no more calls wait than there, so many times, but no more
    /// often than `MAX_REPEATS`.
    pub(crate) fn go_back_over(&mut self, alloc: Global, count: u64)
    where
        S: Drop,
        ensures context { self.new.context ≡ self.old.context }
        ensures state { self.new.state
            ≡ times count (back_over S.rule self.old.context) self.old.state }
    {
        for _ in 0..count.min(MAX_REPEATS) {
            self.back_to(alloc, self.depth());
        }
    }

    /// Goes on to where a statement begins, or where one stops, so many times, but no more often than
    /// `MAX_REPEATS`.
    pub(crate) fn step_on(&mut self, alloc: Global, count: u64)
    where
        S: Drop,
        ensures context { self.new.context ≡ self.old.context }
        ensures state { self.new.state
            ≡ times count (on_statement S.rule self.old.context) self.old.state }
    {
        for _ in 0..count.min(MAX_REPEATS) {
            self.on_statement(alloc);
        }
    }

    /// Goes back to where a statement begins, or where one stops, so many times, but no more often than
    /// `MAX_REPEATS`.
    pub(crate) fn step_back(&mut self, alloc: Global, count: u64)
    where
        S: Drop,
        ensures context { self.new.context ≡ self.old.context }
        ensures state { self.new.state
            ≡ times count (back_statement S.rule self.old.context) self.old.state }
    {
        for _ in 0..count.min(MAX_REPEATS) {
            self.back_statement(alloc);
        }
    }

    /// Goes on to where a statement begins and no more calls wait than here, or where one stops, so many
    /// times, but no more often than `MAX_REPEATS`.
    pub(crate) fn step_over(&mut self, alloc: Global, count: u64)
    where
        S: Drop,
        ensures context { self.new.context ≡ self.old.context }
        ensures state { self.new.state
            ≡ times count (over_statement S.rule self.old.context) self.old.state }
    {
        for _ in 0..count.min(MAX_REPEATS) {
            self.over_statement(alloc);
        }
    }

    /// Goes back to where a statement begins and no more calls wait than here, or where one stops, so many
    /// times, but no more often than `MAX_REPEATS`.
    pub(crate) fn step_back_over(&mut self, alloc: Global, count: u64)
    where
        S: Drop,
        ensures context { self.new.context ≡ self.old.context }
        ensures state { self.new.state
            ≡ times count (back_over_statement S.rule self.old.context) self.old.state }
    {
        for _ in 0..count.min(MAX_REPEATS) {
            self.back_over_statement(alloc);
        }
    }
}
