//! What the memory will be once a block is got.

ghost use Rattle.std.specs.Prelude.{◌≡◌, ◌≤◌, ◌^◌, replicate, slice_index};
ghost use Rattle.l6_prog.specs.Numerals.{first_letter};
ghost use Rattle.l6_store.specs.Blocks.{block_at};
ghost use Rattle.l6_steps.specs.Getting.{new_block};
ghost use Rattle.l6_steps.specs.Locus.{content};
ghost use Rattle.l6_registers.specs.inner.Registers.{IsIn};
ghost use Rattle.l6_registers.specs.inner.Upcoming.{IsUpcoming};

use crate::readable::Readable;
use crate::registers::Registers;
use l6_prog::Name;
use l6_steps::Locus;
use l6_store::{Level, Place, Places};
use l6_word::{Window, Word};
use std::marker::Model;

/// The memory as it will be once a block of zeros is at a vacant place, and that place is
/// assigned to a locus. A chain that can't be followed through it leaves nothing to undo.
#[derive(Drop)]
pub(crate) struct Upcoming<'a, S: Places> {
    registers: &'a Registers<S>,
    level: Level,
    place: Place,
    at: Locus,
}

impl<'a, S: Places> Model for Upcoming<'a, S> {
    ghost use Rattle.std.specs.Prelude.{◌^◌, replicate};
    ghost use Rattle.l6_steps.specs.Getting.{new_block};
    ghost use Rattle.l6_steps.specs.State.{Memory};
    ghost use Rattle.l6_registers.specs.inner.Registers.{memory_code};
    ghost use Rattle.l6_registers.specs.inner.Upcoming.{IsUpcoming};

    ghost Value = { Memory };

    ghost coded = { memory_code };

    ghost view = { λ u.
        new_block u.registers.now.memory (replicate (2 ^ u.level) 0) u.at u.place };

    ghost invariant = { λ u. IsUpcoming u.registers.now.memory u.level u.place u.at };
}

impl<'a, S: Places> Upcoming<'a, S> {
    /// The memory of registers once a block of this level is at a place, which is assigned to a
    /// locus.
    pub(crate) fn new(registers: &'a Registers<S>, level: Level, place: Place, at: Locus) -> Self
        requires { IsUpcoming registers.now.memory level place at }
        ensures { result ≡ new_block registers.now.memory (replicate (2 ^ level) 0) at place }
    {
        Upcoming {
            registers,
            level,
            place,
            at,
        }
    }

    /// What the bug of a letter holds.
    fn bug(&self, name: Name) -> Word
        requires { first_letter ≤ name }
        ensures { result ≡ content self.now (Locus.Bug name) }
    {
        let word = self.registers.bug(name);
        match self.at {
            Locus::Bug(bug) => {
                if bug == name {
                    Word::wrapping(u64::from(self.place))
                } else {
                    word
                }
            }
            Locus::Field(..) => word,
        }
    }

    /// The word that a window of a block shows.
    fn word_at(&self, start: Place, window: Window) -> Word
        requires { IsIn self.now (Locus.Field start window) }
        ensures { result ≡ slice_index (block_at self.now.blocks start) window.word }
    {
        if start == self.place {
            return Word::default();
        }
        let word = self.registers.word_at(start, window);
        match self.at {
            Locus::Bug(_) => word,
            Locus::Field(changed, at) => {
                if changed == start && at.word() == window.word() {
                    at.put(word, Word::wrapping(u64::from(self.place)))
                } else {
                    word
                }
            }
        }
    }
}

impl<'a, S: Places> Readable for Upcoming<'a, S> {
    ghost memory = { λ memory. memory };

    fn definition(&self, name: Name) -> Option<Window> {
        self.registers.definition(name)
    }

    fn live(&self, pointer: Word) -> Option<Level> {
        if pointer.get() == u64::from(self.place) {
            Some(self.level)
        } else {
            self.registers.live(pointer)
        }
    }

    fn content(&self, locus: Locus) -> Word {
        match locus {
            Locus::Bug(name) => self.bug(name),
            Locus::Field(start, window) => window.take(self.word_at(start, window)),
        }
    }
}
