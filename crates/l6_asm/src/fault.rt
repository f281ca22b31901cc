//! Why a deck spells no program.

ghost use Rattle.std.specs.Prelude.{◌≡◌};
ghost use Rattle.l6_card.specs.DeckFault.{deck_fault};
ghost use Rattle.l6_asm.specs.AssemblyFault.{assembly_fault, unread_fault};
ghost use Rattle.l6_asm.specs.declared.fault.AsmFault.TheVariants.{NoMemory};

use l6_card::CardFault;
use std::alloc::AllocError;
use thiserror::Error;

/// Why a deck spells no program. Cards are numbered from 1.
#[derive(Clone, Copy, Debug, Error, PartialEq, Eq)]
pub enum AsmFault {
    /// Something on this card has no reading, or the statement that ends on it is not whole.
    #[error("card {0}: no reading")]
    Form(u32),
    /// There is too much of something on this card.
    #[error("card {0}: past a limit")]
    Limit(u32),
    /// An earlier card has the label of this one.
    #[error("card {0}: label given twice")]
    TwiceLabelled(u32),
    /// This card names a label that no card has.
    #[error("card {0}: no such label")]
    NoLabel(u32),
    /// Memory ran out. This says nothing of the deck.
    #[error("out of memory")]
    NoMemory,
}

impl From<AllocError> for AsmFault {
    ghost from_gives = { λ _ fault. fault ≡ NoMemory };

    fn from(_error: AllocError) -> Self {
        AsmFault::NoMemory
    }
}

impl From<CardFault> for AsmFault {
    ghost from_gives = { λ read fault. assembly_fault fault ≡ unread_fault (deck_fault read) };

    fn from(fault: CardFault) -> Self {
        match fault {
            CardFault::Form(card) => AsmFault::Form(card),
            CardFault::Limit(card) => AsmFault::Limit(card),
            CardFault::NoMemory => AsmFault::NoMemory,
        }
    }
}
