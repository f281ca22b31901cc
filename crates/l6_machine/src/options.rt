//! What a user may choose for a run, and the machine that is made by it.

ghost use Rattle.std.specs.Prelude.{◌≡◌, ◌↔◌, ◌≤◌, length, true, IsSome, IfOk, IfSome};
ghost use Rattle.l6_store.specs.Numerals.{most_units};
ghost use Rattle.l6_steps.specs.Limits.{are_allowed};
ghost use Rattle.l6_steps.specs.Numerals.{most_input};
ghost use Rattle.l6_steps.specs.RunState.{IsAtStart};
ghost use Rattle.l6_machine.specs.Options.{context_under, store_rule};

use crate::machine::Machine;
use l6_prog::Program;
use l6_steps::Limits;
use l6_store::{Buddy, MAX_UNITS};
use std::alloc::{AllocError, Global};
use std::marker::Model;

/// The size of the store, and the limits of the run.
#[derive(Clone, Copy, Debug, PartialEq, Eq)]
pub struct Options {
    units: u32,
    limits: Limits,
}

impl Model for Options {
    ghost use Rattle.std.specs.Prelude.{◌≡◌, true};
    ghost use Rattle.l6_machine.specs.Options.{OptionValues, is_in_range};

    ghost Value = { OptionValues };

    ghost view = { λ options. record { units = options.units; limits = options.limits } };

    ghost invariant = { λ options.
        is_in_range (record { units = options.units; limits = options.limits }) ≡ true };

    ghost inverse = { λ values. record { units = values.units; limits = values.limits } };
}

impl Options {
    ghost use Rattle.l6_machine.specs.Options.{is_in_range, option_values};

    /// The options, or `None` out of range: a store of 1 to 255 units, 0 to 1,000,000,000 steps,
    /// and 0 to 16,777,216 bytes of output.
    pub fn new(units: u32, steps: u64, output: usize) -> Option<Self>
        ensures valid { IsSome result ↔ (is_in_range (option_values units steps output) ≡ true) }
        ensures value { IfSome result (λ options. options ≡ option_values units steps output) }
    {
        let limits = Limits { steps, output };
        if 1 <= units && units <= MAX_UNITS && limits.are_allowed() {
            Some(Options { units, limits })
        } else {
            None
        }
    }

    /// How many units of 1,024 words the store has, 1 to 255.
    pub fn units(self) -> u32
        ensures value { result ≡ self.units }
        ensures some { 1 ≤ result }
        ensures most { result ≤ most_units }
    {
        self.units
    }

    /// How many steps the run may count.
    pub fn steps(self) -> u64
        ensures { result ≡ self.limits.steps }
    {
        self.limits.steps
    }

    /// How many bytes the run may print.
    pub fn output(self) -> usize
        ensures { result ≡ self.limits.output }
    {
        self.limits.output
    }

    /// The limits of the run.
    pub fn limits(self) -> Limits
        ensures value { result ≡ self.limits }
        ensures allowed { are_allowed result ≡ true }
    {
        self.limits
    }
}

/// A store of 8 units, 1,000,000 steps, and 1,048,576 bytes of output.
impl Default for Options {
    ghost use Rattle.std.specs.Prelude.{◌≡◌};
    ghost use Rattle.l6_machine.specs.Options.{default_options};

    ghost is_default = { λ options. options ≡ default_options };

    fn default() -> Self {
        Options {
            units: 8,
            limits: Limits {
                steps: 1_000_000,
                output: 1_048_576,
            },
        }
    }
}

/// The machine of a program with an input, before its first step, in a new store and within limits
/// as the options say. The caller owes at most `MAX_INPUT` bytes of input.
///
/// # Errors
///
/// Memory ran out.
pub fn machine_under(
    alloc: Global,
    program: Program,
    input: &[u8],
    options: Options,
) -> Result<Machine<Buddy>, AllocError>
    requires { length input.now ≤ most_input }
    ensures { IfOk result (IsAtStart store_rule (context_under options input.now program)) }
{
    let store = Buddy::with_units(alloc, options.units())?;
    Machine::start(alloc, program, input, store, options.limits())
}
