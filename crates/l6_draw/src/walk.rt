//! The walk that finds what is reached, as the mark phase of mark and sweep does.

ghost use Rattle.std.specs.Prelude.{◌≡◌, ℕ, ◌<◌, ◌≤◌, ◌++◌, ◌↔◌, false, [], length, replicate, slice_index_or, option_to_list, ◌^◌, IfOk, IsSome, IsTrue, OnOk};
ghost use Rattle.l6_draw.specs.Reach.{held_by_bugs, held_in, is_reached};
ghost use Rattle.l6_draw.specs.inner.Walk.{Walk as State, all_met, is_new, met};

use crate::blocks::{bug, held_by, words_at};
use l6_machine::Machine;
use l6_prog::{DIGITS, NAMES};
use l6_store::{Place, Places, end_of};
use l6_word::Word;
use std::alloc::{AllocError, Global};
use std::marker::Model;

/// Which places are visited, and which of them the walk has not looked at yet.
#[derive(Drop)]
struct Walk {
    // by the number of the place
    visited: Vec<bool>,
    worklist: Vec<Place>,
}

impl Model for Walk {
    ghost use Rattle.std.specs.Prelude.{◌≤◌, ◌^◌, length};
    ghost use Rattle.std.specs.Coded.{codes};
    ghost use Rattle.l6_draw.specs.inner.Walk.{Walk as State};

    ghost Value = { State };

    ghost coded = { Prim.hlevel (codes) };

    ghost view = { λ walk. record { visited = walk.visited.items; worklist = walk.worklist.items } };

    ghost invariant = { λ walk. length walk.visited.items ≤ 2 ^ 32 };
}

impl Walk {
    /// A walk over the places below this one, none of them visited yet, with room for so many
    /// blocks.
    fn new(alloc: Global, end: Place, blocks: usize) -> Result<Self, AllocError>
        ensures { IfOk result (λ walk. walk ≡ record { visited = replicate end false; worklist = [] }) }
    {
        Ok(Walk {
            visited: vec![in alloc; false; end as usize]?,
            worklist: Vec::with_capacity(alloc, blocks)?,
        })
    }

    /// Whether a block begins at the place of this number, and is not visited yet.
    fn is_new<S: Places>(&self, store: &S, number: Word) -> bool
        ensures value { result ≡ is_new (S.store store.now).blocks self.now.visited number }
        ensures within { IsTrue result → number < length self.now.visited }
        ensures place { IsTrue result → number < 2 ^ 32 }
    {
        let index = number.get() as usize;
        index < self.visited.len() && !self.visited[index] && store.live(number).is_some()
    }

    /// Marks the place of this number as visited, and lists it, if it is new.
    #[tactic(auto, unfolding(crate::specs::inner::Walk::met))]
    fn meet<S: Places>(&mut self, store: &S, number: Word) -> Result<(), AllocError>
        ensures { OnOk result (self.new ≡ met (S.store store.now).blocks number self.old) }
    {
        if self.is_new(store, number) {
            self.visited[number.get() as usize] = true;
            self.worklist.push(number.get() as Place)?;
        }
        Ok(())
    }

    /// Marks what the bugs hold.
    fn meet_bugs<S: Places>(&mut self, machine: &Machine<S>) -> Result<(), AllocError>
        ensures { let memory = machine.now.configuration.state.memory in
            OnOk result (self.new ≡ all_met memory.blocks (held_by_bugs memory) self.old) }
    {
        for letter in DIGITS..NAMES {
            self.meet(machine.store(), bug(machine, letter))?;
        }
        Ok(())
    }

    /// Marks what the fields hold in the block at a place.
    fn meet_fields<S: Places>(
        &mut self,
        machine: &Machine<S>,
        place: Place,
    ) -> Result<(), AllocError>
        ensures { let memory = machine.now.configuration.state.memory in
            OnOk result (self.new ≡ all_met memory.blocks (held_in memory place) self.old) }
    {
        let words = words_at(machine.store(), place);
        for field in machine.definitions() {
            if let Some(number) = held_by(words, *field) {
                self.meet(machine.store(), number)?;
            }
        }
        Ok(())
    }

    /// Takes a place that the walk has not looked at yet, if there is one.
    fn next(&mut self) -> Option<Place>
        ensures visited { self.new.visited ≡ self.old.visited }
        ensures worklist { self.old.worklist ≡ self.new.worklist ++ option_to_list result }
        ensures none { IsSome result ↔ (0 < length self.old.worklist) }
    {
        self.worklist.pop()
    }
}

/// For each place whether it is reached, in a store with so many blocks.
pub(crate) fn visited<S: Places>(
    alloc: Global,
    machine: &Machine<S>,
    blocks: usize,
) -> Result<Vec<bool>, AllocError>
    ensures { IfOk result (λ visited. (place : ℕ) → slice_index_or visited.items place false
        ≡ is_reached machine.now.configuration.state.memory place) }
{
    let mut walk = Walk::new(alloc, end_of(machine.store().units()), blocks)?;
    walk.meet_bugs(machine)?;
    while let Some(place) = walk.next() {
        walk.meet_fields(machine, place)?;
    }
    Ok(walk.visited)
}

/// Whether a place is visited.
pub(crate) fn is_visited(visited: &[bool], place: Place) -> bool
    ensures { result ≡ slice_index_or visited.now place false }
{
    match visited.get(place as usize) {
        Some(visit) => *visit,
        None => false,
    }
}
