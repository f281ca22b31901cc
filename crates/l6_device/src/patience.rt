//! How often a call retries what was interrupted.

ghost use Rattle.std.specs.Prelude.{◌≡◌};

use std::marker::Model;

/// How many reads and writes a call retries after interruptions.
pub const MAX_RETRIES: u32 = 1_000;

/// How many interrupted reads and writes are still retried. The readers and the writer of a call
/// share it.
#[derive(Debug, PartialEq, Eq, Drop)]
pub struct Patience {
    left: u32,
}

impl Model for Patience {
    ghost use Rattle.std.specs.Prelude.{ℕ, ⊤};

    ghost Value = { ℕ };

    ghost view = { λ patience. patience.left };

    ghost invariant = { λ patience. ⊤ };

    ghost inverse = { λ left. record { left = left } };
}

impl Patience {
    ghost use Rattle.std.specs.Prelude.{◌-◌, nat_lt};
    ghost use Rattle.l6_device.specs.Numerals.{most_retries};

    /// The patience of a call at its start: 1,000 retries.
    pub fn new() -> Self
        ensures { result ≡ most_retries }
    {
        Patience { left: MAX_RETRIES }
    }

    /// How many retries are left.
    pub fn left(&self) -> u32
        ensures { result ≡ self.now }
    {
        self.left
    }

    /// Takes a retry off, if one is left, and answers whether one was.
    pub(crate) fn retry(&mut self) -> bool
        ensures one { result ≡ nat_lt 0 self.old }
        ensures left { self.new ≡ self.old - 1 }
    {
        match self.left.checked_sub(1) {
            Some(left) => {
                self.left = left;
                true
            }
            None => false,
        }
    }
}

/// The patience of a call at its start.
impl Default for Patience {
    ghost use Rattle.std.specs.Prelude.{◌≡◌};
    ghost use Rattle.l6_device.specs.Numerals.{most_retries};

    ghost is_default = { λ patience. patience ≡ most_retries };

    fn default() -> Self {
        Patience::new()
    }
}
