//! What tests compare, and what decides a condition.

ghost use Rattle.std.specs.Prelude.{◌≡◌};
ghost use Rattle.l6_steps.specs.Condition.{compares, short_circuit_of};

use l6_prog::{Comparison, Cond};

/// What decides a condition before all its tests are taken. Where no test does, the answer is the
/// opposite one.
#[derive(Clone, Copy, Debug, PartialEq, Eq)]
pub struct ShortCircuit {
    /// The outcome of a test that decides the condition: whether the test holds.
    pub outcome: bool,
    /// The condition's answer then.
    pub answer: bool,
}

/// Whether the content of a chain compares so to the value of an operand.
#[inline(always)]
pub fn compares(comparison: Comparison, content: u64, value: u64) -> bool
    ensures { result ≡ compares comparison content value }
{
    match comparison {
        Comparison::Equal => content == value,
        Comparison::NotEqual => content != value,
        Comparison::Greater => content > value,
        Comparison::Less => content < value,
        Comparison::AllOnes => content & value == value,
        Comparison::AllZeros => content & value == 0,
    }
}

/// The short circuit of a condition. A statement without a condition needs none.
pub fn short_circuit_of(condition: Cond) -> Option<ShortCircuit>
    ensures { result ≡ short_circuit_of condition }
{
    let (outcome, answer) = match condition {
        Cond::Always => return None,
        Cond::If => (false, false),
        Cond::Not => (true, false),
        Cond::IfAll => (false, false),
        Cond::IfAny => (true, true),
        Cond::IfNone => (true, false),
        Cond::IfNotAll => (false, true),
    };
    Some(ShortCircuit { outcome, answer })
}
