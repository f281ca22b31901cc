//! How a run ends, and what a step answers.

use crate::trap::Trap;

/// What has ended a run.
#[derive(Clone, Copy, Debug, PartialEq, Eq, Hash)]
pub enum Halt {
    /// By an exit DONE.
    Done,
    /// By an exit FAIL.
    Fail,
    /// By a trap, which has undone its step.
    Trap(Trap),
}

/// What became of a step.
#[derive(Clone, Copy, Debug, PartialEq, Eq, Hash)]
pub enum StepResult {
    /// The step was made, and the run goes on.
    Went,
    /// The run has ended with this step, or had ended before.
    Ended,
    /// The run has trapped with this step, or had trapped before.
    Trapped(Trap),
    /// The count of steps is at its limit: no step was made.
    AtLimit,
}
