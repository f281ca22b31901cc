//! What in a deck objects to its being read: where it is, and why.

ghost use Rattle.std.specs.Prelude.{◌≡◌, Some};
ghost use Rattle.l6_card.specs.DeckFault.{deck_fault};
ghost use Rattle.l6_card.specs.Objection as spec;

use crate::fault::CardFault;
use std::alloc::AllocError;
use thiserror::Error;

/// Why a piece of a card objects.
#[derive(Clone, Copy, Debug, PartialEq, Eq)]
pub enum Reason {
    /// Column 1 has something that begins no card.
    Column,
    /// The card has `+` in column 1, and no statement is before it.
    ContinuesNothing,
    /// A label has too many characters.
    LabelTooLong,
    /// A label is `DONE` or `FAIL`.
    LabelBarred,
    /// A `(` has no `)`.
    Unclosed,
    /// A `)` has no `(`.
    Unopened,
    /// A group is no operation, where an operation must stand.
    NoOperation,
    /// A group is a test, where an operation must stand.
    TestForOperation,
    /// A group is no test, where a test must stand.
    NoTest,
    /// A group is an operation, where the first test must stand.
    OperationForTest,
    /// A group is an operation, where a further test or THEN must stand.
    ThenMissing,
    /// IF or NOT has a second test.
    SecondTest,
    /// A group follows a first word that is no condition.
    NoCondition,
    /// An item follows an exit.
    AfterExit,
    /// A word is no exit, where an exit must stand.
    NoExit,
    /// A word stands where THEN must stand.
    NoThen,
    /// The statement ends after its tests, and THEN must follow.
    Unfinished,
    /// It is one statement too many.
    TooManyStatements,
    /// It is one card too many that continues a statement.
    TooManyContinuations,
    /// It is one test or one operation too many.
    TooManyGroups,
}

/// A piece of a card that objects.
#[derive(Clone, Copy, Debug, PartialEq, Eq)]
pub struct Objection {
    /// The card's number, from 1 on.
    pub card: u32,
    /// How many columns of the card are before the piece.
    pub from: usize,
    /// How many are before what follows it.
    pub to: usize,
    /// Why it objects.
    pub reason: Reason,
}

/// Why cards cannot be read.
#[derive(Clone, Copy, Debug, Error, PartialEq, Eq)]
pub enum ReadError {
    /// The first piece that objects.
    #[error("card {}: it cannot be read", .0.card)]
    Objection(Objection),
    /// Memory ran out. This says nothing of the cards.
    #[error("out of memory")]
    NoMemory,
}

impl From<AllocError> for ReadError {
    fn from(_error: AllocError) -> Self {
        ReadError::NoMemory
    }
}

impl From<ReadError> for CardFault {
    ghost from_gives = { λ error fault. deck_fault fault ≡ spec.fault_met error };

    fn from(error: ReadError) -> Self {
        match error {
            ReadError::Objection(objection) => objection.fault(),
            ReadError::NoMemory => CardFault::NoMemory,
        }
    }
}

impl Objection {
    /// The fault that it is of its deck.
    pub(crate) fn fault(self) -> CardFault
        ensures { deck_fault result ≡ Some (spec.fault_in self) }
    {
        match self.reason {
            Reason::TooManyStatements | Reason::TooManyContinuations | Reason::TooManyGroups => {
                CardFault::Limit(self.card)
            }
            _ => CardFault::Form(self.card),
        }
    }
}
