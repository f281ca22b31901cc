//! Services: what answers the requests of a protocol.

ghost use Rattle.std.specs.Prelude.{◌≡◌, ℕ, List, Option, Result, IfOk};
ghost use Rattle.serde_json.specs.Data.{Data};
ghost use Rattle.serde_json.specs.View.{view};
ghost use Rattle.serde_json.specs.declared.value.Value.{Value};
ghost use Rattle.l6_rpc.specs.declared.refusal.Refusal.{Refusal};
ghost use Rattle.l6_rpc.specs.declared.service.Note.{Note};

use crate::refusal::Refusal;
use serde_json::Value;
use std::alloc::{AllocError, AllocFailed, Global};
use thiserror::Error;

/// Memory ran out.
#[derive(Clone, Copy, Debug, Error, PartialEq, Eq)]
#[error("out of memory")]
pub struct OutOfMemory;

impl From<AllocError> for OutOfMemory {
    fn from(_error: AllocError) -> Self {
        OutOfMemory
    }
}

impl<T: Drop> From<AllocFailed<T>> for OutOfMemory {
    fn from(_error: AllocFailed<T>) -> Self {
        OutOfMemory
    }
}

/// A notification that is sent.
#[derive(Drop)]
pub struct Note {
    /// Its method.
    pub method: &'static str,
    /// Its parameters.
    pub parameters: Value,
}

/// What answers the requests of a protocol. A request changes nothing, and a notification may.
pub trait Service {
    // What it says that it can do; how it answers a method's message; what a notification's leads to.
    ghost IsAble: { Self → Value → Type 0 };

    ghost Answers: { Self → List ℕ → Data → Result Value Refusal → Type 0 };

    ghost Notes: { Self → List ℕ → Data → Option Note → Self → Type 0 };

    /// What it can do, as the protocol says it.
    ///
    /// # Errors
    ///
    /// Memory ran out.
    fn abilities(&self, alloc: Global) -> Result<Value, OutOfMemory>
        ensures { IfOk result (λ value. IsAble self.now value) };

    /// The result of a request, or why there is none.
    ///
    /// # Errors
    ///
    /// Memory ran out.
    fn answer(
        &self,
        alloc: Global,
        method: &str,
        message: &Value,
    ) -> Result<Result<Value, Refusal>, OutOfMemory>
        ensures { IfOk result (Answers self.now method.now (view message.now)) };

    /// Takes a notification, and says what is sent after it.
    ///
    /// # Errors
    ///
    /// Memory ran out.
    fn note(
        &mut self,
        alloc: Global,
        method: &str,
        message: &Value,
    ) -> Result<Option<Note>, OutOfMemory>
        ensures { IfOk result (λ it. Notes self.old method.now (view message.now) it self.new) };
}
