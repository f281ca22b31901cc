//! Why no store was made.

use std::alloc::AllocError;
use thiserror::Error;

/// Why no store was made.
#[derive(Clone, Copy, Debug, Error, PartialEq, Eq)]
pub enum StoreFault {
    /// Memory ran out.
    #[error("out of memory")]
    NoMemory,
    /// No unit, or more than 255.
    #[error("units out of range")]
    BadUnits,
}

impl From<AllocError> for StoreFault {
    ghost use Rattle.std.specs.Prelude.{◌≡◌};
    ghost use Rattle.l6_store.specs.declared.fault.StoreFault.TheVariants.{NoMemory};

    ghost from_gives = { λ _ fault. fault ≡ NoMemory };

    fn from(_error: AllocError) -> Self {
        StoreFault::NoMemory
    }
}
