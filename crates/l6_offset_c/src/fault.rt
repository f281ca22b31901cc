//! Why a call did nothing.

/// Why a call did nothing. C sees a number: -1 for the first, and so on.
#[derive(Clone, Copy, Debug, PartialEq, Eq)]
pub(crate) enum CallFault {
    /// The store is closed.
    Closed,
    /// The store is open already.
    Open,
    /// No store has these places.
    BadPlaces,
    /// Memory ran out.
    NoMemory,
    /// No block has this level, or so many places.
    BadLevel,
    /// No block begins at the place, or behind it.
    NoBlock,
    /// A block of the level may not be at the place.
    NotOpen,
    /// No place is open.
    Full,
}

impl CallFault {
    ghost use Rattle.std.specs.Prelude.{◌≡◌};
    ghost use Rattle.l6_offset_c.specs.Answer.{code_of};

    /// The number that C sees.
    pub(crate) fn code(self) -> i64
        ensures { result ≡ code_of self }
    {
        match self {
            CallFault::Closed => -1,
            CallFault::Open => -2,
            CallFault::BadPlaces => -3,
            CallFault::NoMemory => -4,
            CallFault::BadLevel => -5,
            CallFault::NoBlock => -6,
            CallFault::NotOpen => -7,
            CallFault::Full => -8,
        }
    }
}
