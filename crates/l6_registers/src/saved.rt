//! What a run has saved.

ghost use Rattle.std.specs.Prelude.{◌≡◌, ◌≤◌, [], length, IfOk};
ghost use Rattle.l6_steps.specs.Numerals.{most_entries};

use crate::stack::Stack;
use l6_steps::Return;
use l6_word::{Window, Word};
use std::alloc::{AllocError, Global};

/// How many contents and definitions are saved, and how many calls wait for their return: each at
/// most 1,024.
#[derive(Clone, Copy, Debug, PartialEq, Eq, Hash)]
pub struct Depths {
    /// How many contents are saved.
    pub contents: usize,
    /// How many definitions are saved.
    pub definitions: usize,
    /// How many calls wait for their return.
    pub returns: usize,
}

/// The contents and the definitions that a run has saved, and the returns for which calls wait.
#[derive(Drop)]
pub(crate) struct Saved {
    pub(crate) contents: Stack<Word>,
    pub(crate) definitions: Stack<Option<Window>>,
    pub(crate) returns: Stack<Return>,
}

impl Saved {
    /// Nothing is saved, and there is room for all that may be.
    pub(crate) fn new(alloc: Global) -> Result<Self, AllocError>
        ensures contents { IfOk result (λ saved. saved.contents ≡ []) }
        ensures definitions { IfOk result (λ saved. saved.definitions ≡ []) }
        ensures returns { IfOk result (λ saved. saved.returns ≡ []) }
    {
        Ok(Saved {
            contents: Stack::new(alloc)?,
            definitions: Stack::new(alloc)?,
            returns: Stack::new(alloc)?,
        })
    }

    /// A copy, with as much room.
    pub(crate) fn duplicate(&self, alloc: Global) -> Result<Self, AllocError>
        ensures contents { IfOk result (λ copy. copy.contents ≡ self.now.contents) }
        ensures definitions { IfOk result (λ copy. copy.definitions ≡ self.now.definitions) }
        ensures returns { IfOk result (λ copy. copy.returns ≡ self.now.returns) }
    {
        Ok(Saved {
            contents: self.contents.duplicate(alloc)?,
            definitions: self.definitions.duplicate(alloc)?,
            returns: self.returns.duplicate(alloc)?,
        })
    }

    /// Becomes equal to another, in the memory that it has.
    pub(crate) fn take_from(&mut self, other: &Saved)
        ensures contents { self.new.contents ≡ other.now.contents }
        ensures definitions { self.new.definitions ≡ other.now.definitions }
        ensures returns { self.new.returns ≡ other.now.returns }
    {
        self.contents.take_from(&other.contents);
        self.definitions.take_from(&other.definitions);
        self.returns.take_from(&other.returns);
    }

    /// Gives up all that is saved.
    pub(crate) fn clear(&mut self)
        ensures contents { self.new.contents ≡ [] }
        ensures definitions { self.new.definitions ≡ [] }
        ensures returns { self.new.returns ≡ [] }
    {
        self.contents.clear();
        self.definitions.clear();
        self.returns.clear();
    }

    /// How much is saved.
    pub(crate) fn depths(&self) -> Depths
        ensures contents { result.contents ≡ length self.now.contents }
        ensures definitions { result.definitions ≡ length self.now.definitions }
        ensures returns { result.returns ≡ length self.now.returns }
        ensures within { (result.contents ≤ most_entries)
            × (result.definitions ≤ most_entries) × (result.returns ≤ most_entries) }
    {
        Depths {
            contents: self.contents.len(),
            definitions: self.definitions.len(),
            returns: self.returns.len(),
        }
    }
}
