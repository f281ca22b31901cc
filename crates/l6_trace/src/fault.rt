//! Why a trace has no answers.

ghost use Rattle.l6_trace.specs.inner.Faults.{trace_fault};
ghost use Rattle.l6_trace.specs.declared.fault.TraceFault.TheVariants.{NoMemory};

use l6_places::BoardFault;
use l6_store::StoreFault;
use std::alloc::AllocError;
use thiserror::Error;

/// Why a trace has no answers. Lines are counted from 1 on.
#[derive(Clone, Copy, Debug, Error, PartialEq, Eq)]
pub enum TraceFault {
    /// Memory ran out.
    #[error("out of memory")]
    NoMemory,
    /// A store may not have so many units.
    #[error("units out of range")]
    BadUnits,
    /// An allocator that is judged may not have such places.
    #[error("places out of range")]
    BadPlaces,
    /// The line is the last one, without a line feed, and no call.
    #[error("line {0}: not a call: the trace is cut off")]
    CutOff(u32),
    /// The line is no call.
    #[error("line {0}: not a call")]
    NotACall(u32),
    /// The line is one call more than a trace may have.
    #[error("line {0}: too many calls")]
    TooMany(u32),
    /// The line gets a block by a name that holds one, or frees one by a name that holds none.
    #[error("line {0}: the name holds a block already, or none")]
    Held(u32),
}

impl From<StoreFault> for TraceFault {
    ghost use Rattle.std.specs.Prelude.{◌≡◌};

    ghost from_gives = { λ refused fault. fault ≡ trace_fault refused };

    fn from(fault: StoreFault) -> Self {
        match fault {
            StoreFault::NoMemory => TraceFault::NoMemory,
            StoreFault::BadUnits => TraceFault::BadUnits,
        }
    }
}

impl From<BoardFault> for TraceFault {
    ghost use Rattle.std.specs.Prelude.{◌≡◌};
    ghost use Rattle.l6_trace.specs.inner.Faults.{board_fault};

    ghost from_gives = { λ refused fault. fault ≡ board_fault refused };

    fn from(fault: BoardFault) -> Self {
        match fault {
            BoardFault::NoMemory => TraceFault::NoMemory,
            BoardFault::BadPlaces => TraceFault::BadPlaces,
        }
    }
}

impl From<AllocError> for TraceFault {
    ghost use Rattle.std.specs.Prelude.{◌≡◌};

    ghost from_gives = { λ _ fault. fault ≡ NoMemory };

    fn from(_error: AllocError) -> Self {
        TraceFault::NoMemory
    }
}
