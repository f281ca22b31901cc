//! Stacks of what was saved.

ghost use Rattle.std.specs.Prelude.{◌≡◌, ◌<◌, ◌≤◌, [], ◌∷◌, length, reverse, slice_get, IfOk, MatchOption};
ghost use Rattle.l6_steps.specs.Numerals.{most_entries};
ghost use Rattle.l6_steps.specs.Stack.{has_room};

use std::alloc::{AllocError, Global};
use std::marker::Model;

/// How many entries a stack may have.
pub const MAX_ENTRIES: usize = 1024;

/// A stack, with room for all entries that it may have from the start on.
#[derive(Drop)]
pub(crate) struct Stack<T> {
    // the latest last
    entries: Vec<T>,
}

impl<T> Model for Stack<T> {
    ghost use Rattle.std.specs.Prelude.{◌≤◌, List, length, reverse, vec_capacity};
    ghost use Rattle.l6_steps.specs.Numerals.{most_entries};

    ghost Value = { List T };

    ghost view = { λ stack. reverse stack.entries.items };

    ghost invariant = { λ stack.
        (length stack.entries.items ≤ most_entries)
        × (most_entries ≤ vec_capacity stack.entries) };
}

impl<T: Copy> Stack<T> {
    /// A stack without entries.
    pub(crate) fn new(alloc: Global) -> Result<Self, AllocError>
        ensures { IfOk result (λ stack. stack ≡ []) }
    {
        Ok(Stack {
            entries: Vec::with_capacity(alloc, MAX_ENTRIES)?,
        })
    }

    /// A stack with the same entries, and room for as many.
    pub(crate) fn duplicate(&self, alloc: Global) -> Result<Self, AllocError>
        ensures { IfOk result (λ copy. copy ≡ self.now) }
    {
        let mut entries = Vec::with_capacity(alloc, MAX_ENTRIES)?;
        entries.extend_from_slice(self.entries.as_slice())?;
        Ok(Stack { entries })
    }

    /// Becomes the same as another stack, in the memory that it has.
    pub(crate) fn take_from(&mut self, other: &Stack<T>)
        ensures { self.new ≡ other.now }
    {
        self.entries.clear();
        let _ = self.entries.extend_from_slice(other.entries.as_slice());
    }

    /// Takes off all entries.
    pub(crate) fn clear(&mut self)
        ensures { self.new ≡ [] }
    {
        self.entries.clear();
    }

    /// How many entries it has, at most 1,024.
    pub(crate) fn len(&self) -> usize
        ensures value { result ≡ length self.now }
        ensures within { result ≤ most_entries }
    {
        self.entries.len()
    }

    /// Whether a further entry may be saved.
    pub(crate) fn has_room(&self) -> bool
        ensures { result ≡ has_room self.now }
    {
        self.entries.len() < MAX_ENTRIES
    }

    /// Saves an entry. The caller owes room for it.
    pub(crate) fn push(&mut self, entry: T)
        requires { length self.old < most_entries }
        ensures { self.new ≡ entry ∷ self.old }
    {
        let _ = self.entries.push(entry);
    }

    /// The entries, the latest last.
    pub(crate) fn entries(&self) -> &[T]
        ensures { reverse result.now ≡ self.now }
    {
        self.entries.as_slice()
    }

    /// The entry that was saved last, if there is one.
    pub(crate) fn latest(&self) -> Option<T>
        ensures { result ≡ slice_get self.now 0 }
    {
        self.entries.last().copied()
    }

    /// Takes off the entry that was saved last, if there is one.
    pub(crate) fn pop(&mut self) -> Option<T>
        ensures { MatchOption result
            ((self.old ≡ []) × (self.new ≡ []))
            (λ entry. self.old ≡ entry ∷ self.new) }
    {
        self.entries.pop()
    }
}
