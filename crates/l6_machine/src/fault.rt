//! Why no machine was made.

ghost use Rattle.std.specs.Prelude.{◌≡◌, ◌↔◌, false, IfErr, IsErrOf};
ghost use Rattle.l6_steps.specs.Limits.{are_allowed};

use l6_steps::Limits;
use std::alloc::AllocError;
use thiserror::Error;

/// Why a machine was not made.
#[derive(Clone, Copy, Debug, Error, PartialEq, Eq)]
pub enum MachineFault {
    /// Memory ran out.
    #[error("out of memory")]
    NoMemory,
    /// More than 1,000,000,000 steps or 16,777,216 bytes of output.
    #[error("limits out of range")]
    BadLimits,
}

impl From<AllocError> for MachineFault {
    ghost use Rattle.std.specs.Prelude.{◌≡◌};
    ghost use Rattle.l6_machine.specs.declared.fault.MachineFault.TheVariants.{NoMemory};

    ghost from_gives = { λ _ fault. fault ≡ NoMemory };

    fn from(_error: AllocError) -> Self {
        MachineFault::NoMemory
    }
}

/// Checks that a run may have these limits.
pub(crate) fn check(limits: Limits) -> Result<(), MachineFault>
    ensures bad_limits { IsErrOf result MachineFault.BadLimits ↔ (are_allowed limits ≡ false) }
    ensures refused { IfErr result (λ fault. fault ≡ MachineFault.BadLimits) }
{
    if limits.are_allowed() {
        Ok(())
    } else {
        Err(MachineFault::BadLimits)
    }
}
