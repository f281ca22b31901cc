//! Traps: why a run cannot go on.

ghost use Rattle.std.specs.Prelude.{◌≡◌};

/// Why a run cannot go on.
#[derive(Clone, Copy, Debug, PartialEq, Eq, Hash)]
pub enum Trap {
    /// A chain names a field that has no definition.
    UndefinedField,
    /// No block begins where a value points.
    NotABlock,
    /// A field's word is outside the block to which the chain leads.
    WordOutsideBlock,
    /// A definition has a word past 1,023, a bit past 35, or a first bit after its last.
    BadDefinition,
    /// A division by 0.
    ZeroDivisor,
    /// A block of no word, or of more than 1,024.
    BadSize,
    /// No place is open for a block, and no label is given for that.
    StoreFull,
    /// The input has too few characters left, and no label is given for that.
    InputEnded,
    /// Nothing has been saved that could be restored.
    PushdownEmpty,
    /// A pushdown has all the entries that it may have.
    PushdownFull,
    /// As many calls wait for their return as may.
    ReturnsFull,
    /// A FAIL returns from a call that gave no fail label.
    NoFailExit,
    /// Fewer than 1 or more than 6 characters are asked for.
    BadCount,
    /// The output would pass its limit.
    OutputFull,
}

impl Trap {
    ghost use Rattle.l6_steps.specs.Trap.{trap_number, trap_name};

    /// Its number, from 1 to 14.
    pub fn number(self) -> u8
        ensures { result ≡ trap_number self }
    {
        match self {
            Trap::UndefinedField => 1,
            Trap::NotABlock => 2,
            Trap::WordOutsideBlock => 3,
            Trap::BadDefinition => 4,
            Trap::ZeroDivisor => 5,
            Trap::BadSize => 6,
            Trap::StoreFull => 7,
            Trap::InputEnded => 8,
            Trap::PushdownEmpty => 9,
            Trap::PushdownFull => 10,
            Trap::ReturnsFull => 11,
            Trap::NoFailExit => 12,
            Trap::BadCount => 13,
            Trap::OutputFull => 14,
        }
    }

    /// Its name, as it is printed.
    pub fn name(self) -> &'static str
        ensures { result.now ≡ trap_name self }
    {
        match self {
            Trap::UndefinedField => "UNDEFINED FIELD",
            Trap::NotABlock => "NOT A BLOCK",
            Trap::WordOutsideBlock => "WORD OUTSIDE BLOCK",
            Trap::BadDefinition => "BAD DEFINITION",
            Trap::ZeroDivisor => "ZERO DIVISOR",
            Trap::BadSize => "BAD SIZE",
            Trap::StoreFull => "STORE FULL",
            Trap::InputEnded => "INPUT ENDED",
            Trap::PushdownEmpty => "PUSHDOWN EMPTY",
            Trap::PushdownFull => "PUSHDOWN FULL",
            Trap::ReturnsFull => "RETURNS FULL",
            Trap::NoFailExit => "NO FAIL EXIT",
            Trap::BadCount => "BAD COUNT",
            Trap::OutputFull => "OUTPUT FULL",
        }
    }
}
