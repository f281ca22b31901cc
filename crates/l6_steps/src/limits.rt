//! The limits of a run.

ghost use Rattle.std.specs.Prelude.{◌≡◌};

/// The most steps that a run may be allowed.
pub const MAX_STEPS: u64 = 1_000_000_000;
/// The most bytes of output that a run may be allowed.
pub const MAX_OUTPUT: usize = 16_777_216;
/// The most bytes of input that a run may be given.
pub const MAX_INPUT: usize = 1_048_576;

/// How far a run may go.
#[derive(Clone, Copy, Debug, PartialEq, Eq, Hash)]
pub struct Limits {
    /// How many steps it may count, 0 to 1,000,000,000.
    pub steps: u64,
    /// How many bytes it may print, 0 to 16,777,216.
    pub output: usize,
}

impl Limits {
    ghost use Rattle.l6_steps.specs.Limits.{are_allowed};

    /// Whether a run may be given these limits.
    pub fn are_allowed(self) -> bool
        ensures { result ≡ are_allowed self }
    {
        self.steps <= MAX_STEPS && self.output <= MAX_OUTPUT
    }
}
