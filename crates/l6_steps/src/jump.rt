//! Jumps: where a run goes on after an action.

ghost use Rattle.std.specs.Prelude.{◌≡◌, ◌+◌, ◌<◌, ◌≤◌};
ghost use Rattle.l6_prog.specs.Numerals.{most_operations, most_statements};
ghost use Rattle.l6_steps.specs.Step.{ending_after, position_after};

use crate::halt::Halt;
use crate::position::Position;

/// Where a run goes on after an action.
#[derive(Clone, Copy, Debug, PartialEq, Eq)]
pub enum Jump {
    /// With the next action of the statement.
    Onward,
    /// With the condition of the next statement.
    Next,
    /// With the condition of the statement of this number.
    To(u16),
    /// With the action at this position, after a call that has returned.
    Back(Position),
    /// With the condition of the statement of this number, which is called; the call has this fail
    /// label, if it has one, and waits for its return.
    Call(u16, Option<u16>),
    /// Nowhere: an exit DONE ends the run.
    Done,
    /// Nowhere: an exit FAIL ends the run.
    Fail,
}

/// The position to which a jump leads; it stays where the run ends.
pub fn position_after(jump: Jump, at: Position) -> Position
    requires action { at.action ≤ most_operations + 1 }
    requires statement { at.statement < most_statements }
    ensures { result ≡ position_after jump at }
{
    match jump {
        Jump::Onward => at.following(),
        Jump::Next => Position::start_of(at.statement + 1),
        Jump::To(statement) | Jump::Call(statement, _) => Position::start_of(statement),
        Jump::Back(there) => there,
        Jump::Done | Jump::Fail => at,
    }
}

/// How a jump ends the run, if it does.
pub fn ending_after(jump: Jump) -> Option<Halt>
    ensures { result ≡ ending_after jump }
{
    match jump {
        Jump::Onward | Jump::Next | Jump::To(_) | Jump::Back(_) | Jump::Call(..) => None,
        Jump::Done => Some(Halt::Done),
        Jump::Fail => Some(Halt::Fail),
    }
}
