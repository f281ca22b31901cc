//! A store, and the blocks that the names of a trace hold.

ghost use Rattle.std.specs.Prelude.{◌≡◌, ◌↔◌, ◌⊎◌, ◌<◌, IfOk, IsErrOf};
ghost use Rattle.l6_store.specs.Numerals.{most_units};
ghost use Rattle.l6_trace.specs.Tracing as spec;

use crate::call::{Answer, Call};
use l6_store::{Buddy, Place, Places, StoreFault, level_for};
use std::alloc::Global;
use std::marker::Model;

/// A buddy store with the block that each name of a trace holds, if it holds one.
#[derive(Drop)]
pub struct Tracer {
    store: Buddy,
    // the place of the block of each name
    held: Vec<Option<Place>>,
}

impl Model for Tracer {
    ghost use Rattle.l6_trace.specs.Tracing.{Tracing, tracing_code};

    ghost Value = { Tracing };

    ghost coded = { tracing_code };

    ghost view = { λ t. record { store = t.store.store; held = t.held.items } };
}

impl Tracer {
    /// An empty store of so many units, and so many names that hold no block.
    ///
    /// # Errors
    ///
    /// `BadUnits` exactly for no unit or more than 255; or memory ran out.
    pub fn new(alloc: Global, units: u32, names: usize) -> Result<Self, StoreFault>
        ensures empty { IfOk result (λ tracer. tracer ≡ spec.empty units names) }
        ensures bad_units { IsErrOf result StoreFault.BadUnits
            ↔ ((units < 1) ⊎ (most_units < units)) }
    {
        let store = Buddy::new(alloc, units)?;
        let held = vec![in alloc; None; names]?;
        Ok(Tracer { store, held })
    }

    /// The store.
    pub fn store(&self) -> &Buddy
        ensures { result.now.store ≡ self.now.store }
    {
        &self.store
    }

    /// The place of the block that a name holds, if it holds one.
    pub fn holder(&self, block: usize) -> Option<Place>
        ensures { result ≡ spec.holder self.now block }
    {
        *self.held.get(block)?
    }

    /// Does a call, and answers it; or `None` where the trace may not make it: a name that holds a block
    /// gets none, and one that holds none frees none. Then nothing has changed.
    pub fn answer(&mut self, call: Call) -> Option<Answer>
        ensures called { spec.IsCalled self.old call result self.new }
    {
        match call {
            Call::Get { block, words } => self.get(block, words),
            Call::Free { block } => self.free(block),
            Call::Lists | Call::Map | Call::Stats => Some(Answer::Shown),
        }
    }

    /// Gets a block of at least so many words, for a name.
    fn get(&mut self, block: usize, words: u32) -> Option<Answer>
        ensures called { spec.IsGot self.old block words result self.new }
    {
        if self.held.get(block) != Some(&None) {
            return None;
        }
        let Some(level) = level_for(words) else {
            return Some(Answer::Refused);
        };
        let Some(place) = self.store.get(level) else {
            return Some(Answer::Refused);
        };
        self.held[block] = Some(place);
        Some(Answer::Given {
            place,
            level,
            halved: self.store.moves(),
        })
    }

    /// Frees the block that a name holds.
    fn free(&mut self, block: usize) -> Option<Answer>
        ensures called { spec.IsFreed self.old block result self.new }
    {
        let place = self.holder(block)?;
        if !self.store.try_free(place) {
            return None;
        }
        self.held[block] = None;
        Some(Answer::Freed {
            joined: self.store.moves(),
        })
    }
}
