//! Chains of names.

ghost use Rattle.std.specs.Prelude.{⊤, ◌≡◌, ◌≤◌, ◌↔◌, slice_get, true, IsTrue, IsSome, IfSome, Some};
ghost use Rattle.std.specs.List.{list_all};
ghost use Rattle.l6_prog.specs.Chain.{is_chain, is_name};
ghost use Rattle.l6_prog.specs.Numerals.{first_letter};

use crate::name::Name;
use std::alloc::AllocError;
use std::marker::Model;

/// How many names a chain may have.
pub const MAX_NAMES: usize = 6;

/// A path to a word: 1 to 6 names, the first a letter. One name is a bug itself; each further name
/// is a field of the block that the names before it lead to.
// A program keeps up to three for each operation, so it is as small as can be.
#[derive(Debug, Drop)]
pub struct Chain {
    /// The names, and places that are not used.
    names: [Name; MAX_NAMES],
    /// How many names there are.
    count: u8,
}

impl Model for Chain {
    ghost use Rattle.std.specs.Prelude.{◌≡◌, ◌≤◌, ℕ, List, length, take, true};
    ghost use Rattle.l6_prog.specs.Chain.{is_chain};
    ghost use Rattle.l6_prog.specs.Numerals.{most_names};

    ghost Value = { List ℕ };

    ghost view = { λ chain. take chain.count chain.names };

    ghost invariant = { λ chain. (chain.count ≤ most_names)
        × (length chain.names ≡ most_names)
        × (is_chain (take chain.count chain.names) ≡ true) };
}

impl Chain {
    /// The chain of these names, or `None` where they are no chain: where there is none, where
    /// there are more than 6, or where the first is no letter.
    pub fn new(names: &[Name]) -> Option<Self>
        ensures valid { IsSome result ↔ IsTrue (is_chain names.now) }
        ensures value { IfSome result (λ chain. chain ≡ names.now) }
    {
        reveal_names(names);
        if names.len() > MAX_NAMES || !names.first()?.is_letter() {
            return None;
        }
        let mut kept = [Name::default(); MAX_NAMES];
        kept[..names.len()].copy_from_slice(names);
        Some(Chain {
            names: kept,
            count: names.len() as u8,
        })
    }

    /// The names, the bug first.
    pub fn names(&self) -> &[Name]
        ensures value { result.now ≡ self.now }
        ensures chain { IsTrue (is_chain result.now) }
    {
        &self.names[..usize::from(self.count)]
    }

    /// The first name, the letter of a bug.
    pub fn bug(&self) -> Name
        ensures value { slice_get self.now 0 ≡ Some result }
        ensures letter { first_letter ≤ result }
    {
        self.names[0]
    }

    /// Does nothing. Its clause gives the prover what is true of every chain.
    #[inline(always)]
    pub(crate) fn reveal(&self)
        ensures { is_chain self.now ≡ true }
    {
        // a look at the field, for which the invariant is opened
        let _ = &self.names;
    }
}

/// Does nothing. Its clause gives the prover what is true of every name.
#[inline(always)]
fn reveal_names(names: &[Name])
    ensures { list_all is_name names.now ≡ true }
{
    for name in names {
        name.reveal();
    }
}

/// A clone is the same chain. It takes no memory.
impl Clone for Chain {
    ghost is_clone = { λ chain copy. copy ≡ chain };

    ghost is_infallible = { λ _. ⊤ };

    fn clone(&self) -> Result<Self, AllocError> {
        Ok(Chain {
            names: self.names,
            count: self.count,
        })
    }
}
