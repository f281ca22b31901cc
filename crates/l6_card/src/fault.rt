//! Why a deck cannot be read.

ghost use Rattle.std.specs.Prelude.{◌≡◌};
ghost use Rattle.l6_card.specs.declared.fault.CardFault.TheVariants.{NoMemory};

use std::alloc::AllocError;
use thiserror::Error;

/// Why a deck cannot be read. Cards are numbered from 1.
#[derive(Clone, Copy, Debug, Error, PartialEq, Eq)]
pub enum CardFault {
    /// Column 1 of this card, its label, an item or a group on it has no reading, or the statement
    /// that ends on it is not whole.
    #[error("card {0}: no reading")]
    Form(u32),
    /// The 64th test or operation of a statement, the 16th card that continues one, or the 65,535th
    /// statement is on this card.
    #[error("card {0}: past a limit")]
    Limit(u32),
    /// Memory ran out. This says nothing of the deck.
    #[error("out of memory")]
    NoMemory,
}

impl From<AllocError> for CardFault {
    ghost from_gives = { λ _ fault. fault ≡ NoMemory };

    fn from(_error: AllocError) -> Self {
        CardFault::NoMemory
    }
}
