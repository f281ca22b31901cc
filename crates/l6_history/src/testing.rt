//! Whether the test of a breakpoint is met.

ghost use Rattle.std.specs.Prelude.{◌≡◌};
ghost use Rattle.l6_history.specs.Stop.{passes};
ghost use Rattle.l6_steps.specs.Condition.{holds};

use l6_machine::Machine;
use l6_prog::{Operand, Test};
use l6_steps::compares;
use l6_store::Places;

/// Whether a test holds at the state of a machine, or meets a trap.
pub(crate) fn is_met<S: Places>(test: &Test, machine: &Machine<S>) -> bool
    ensures { result ≡ passes (holds test.now machine.now.configuration.state.memory) }
{
    let Ok(content) = machine.value(&test.chain) else {
        return true;
    };
    let value = match &test.operand {
        Operand::Chain(chain) => machine.value(chain),
        Operand::Number(word) => Ok(*word),
    };
    match value {
        Ok(value) => compares(test.comparison, content.get(), value.get()),
        Err(_) => true,
    }
}
