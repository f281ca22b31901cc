//! Why a call did nothing.

/// Why a call did nothing. C sees a number: -1 for the first, and so on.
#[derive(Clone, Copy, Debug, PartialEq, Eq)]
pub(crate) enum CallFault {
    /// The store is closed.
    Closed,
    /// The store is open already.
    Open,
    /// No store has so many units.
    BadUnits,
    /// Memory ran out.
    NoMemory,
    /// No block has this level, or so many words.
    BadLevel,
    /// No block begins at the place.
    NoBlock,
    /// The block has no such word.
    NoWord,
    /// The number takes more than 36 bits.
    BadWord,
    /// The blocks are of two sizes, or one.
    NotAlike,
    /// No piece is free.
    Full,
}

impl CallFault {
    ghost use Rattle.std.specs.Prelude.{◌≡◌};
    ghost use Rattle.l6_store_c.specs.Answer.{code_of};

    /// The number that C sees.
    pub(crate) fn code(self) -> i64
        ensures { result ≡ code_of self }
    {
        match self {
            CallFault::Closed => -1,
            CallFault::Open => -2,
            CallFault::BadUnits => -3,
            CallFault::NoMemory => -4,
            CallFault::BadLevel => -5,
            CallFault::NoBlock => -6,
            CallFault::NoWord => -7,
            CallFault::BadWord => -8,
            CallFault::NotAlike => -9,
            CallFault::Full => -10,
        }
    }
}
