//! How a session ends that was not cut off.

ghost use Rattle.std.specs.Prelude.{◌≡◌};
ghost use Rattle.l6db.specs.Status.{ending_status};

/// How a session ends.
#[derive(Clone, Copy, Debug, PartialEq, Eq)]
pub(crate) struct Ending {
    is_batch: bool,
    is_refused: bool,
}

impl Ending {
    /// The end of a batch, or of another session, in which a line was refused, or none.
    pub(crate) fn of(is_batch: bool, is_refused: bool) -> Self
        ensures batch { result.is_batch ≡ is_batch }
        ensures refused { result.is_refused ≡ is_refused }
    {
        Ending {
            is_batch,
            is_refused,
        }
    }

    /// The exit status: 1 where a line of a batch was refused, and otherwise 0.
    pub(crate) fn status(self) -> u8
        ensures { result ≡ ending_status self.is_batch self.is_refused }
    {
        if self.is_batch && self.is_refused {
            1
        } else {
            0
        }
    }
}
