//! How a run is reported to have ended.

use l6_steps::Trap;

/// How a run is reported to have ended: by what has ended it, or at its limit of steps.
#[derive(Clone, Copy, Debug, PartialEq, Eq, Hash)]
pub enum Ending {
    /// By an exit DONE.
    Done,
    /// By an exit FAIL.
    Fail,
    /// By a trap.
    Trap(Trap),
    /// It has not: it was stopped at its limit of steps.
    Limit,
}
