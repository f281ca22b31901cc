//! Why nothing can be said of a deck.

use std::alloc::AllocError;
use thiserror::Error;

/// Memory ran out.
#[derive(Clone, Copy, Debug, Error, PartialEq, Eq)]
#[error("out of memory")]
pub struct OutOfMemory;

impl From<AllocError> for OutOfMemory {
    fn from(_error: AllocError) -> Self {
        OutOfMemory
    }
}
