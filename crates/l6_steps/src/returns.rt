//! Returns: where a call goes on.

use crate::position::Position;

/// Where a call goes on.
#[derive(Clone, Copy, Debug, PartialEq, Eq, Hash)]
pub struct Return {
    /// The position after the call, for an exit DONE.
    pub at: Position,
    /// The statement of its fail label, if it has one, for an exit FAIL.
    pub fail: Option<u16>,
}
