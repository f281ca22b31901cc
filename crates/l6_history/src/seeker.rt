//! What watches for a state of a run, from any of its states on.

ghost use Rattle.std.specs.Prelude.{◌≡◌, List};
ghost use Rattle.l6_prog.specs.Statement.{Parts};
ghost use Rattle.l6_steps.specs.State.{State};
ghost use Rattle.l6_history.specs.inner.Seeking as seeking;

use l6_machine::{Machine, Watch};
use l6_store::Places;

/// A watch for the states to which one goes, which can begin at any state of a run.
pub(crate) trait Seeker<S: Places>: Watch<S> {
    // The states to which one goes.
    ghost goal: { Self → seeking.Goal };

    // It is made for the runs of this program.
    ghost IsFor: { Self → List Parts → Type 0 };

    /// Begins at the state of a machine: from there on it sees the states to which one goes that comes from
    /// there. The caller owes the program for which it is made.
    fn begin(&mut self, machine: &Machine<S>)
        requires { IsFor self.old machine.now.context.program }
        ensures made { IsFor self.new machine.now.context.program }
        ensures same { goal self.new ≡ goal self.old }
        ensures suits { Self.suits self.new machine.now.context.program }
        ensures stops { (there : State) → Self.stops self.new there ≡ (goal self.old).at there }
        ensures changed { (there : State) → Self.changed self.new there
            ≡ (goal self.old).between machine.now.configuration.state there };
}
