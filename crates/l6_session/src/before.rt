//! What a session was like before a command.

ghost use Rattle.std.specs.Prelude.{◌≡◌};
ghost use Rattle.l6_session.specs.Before.{before_of};

use crate::session::Session;
use l6_store::Places;

/// What a session was like before a command.
#[derive(Clone, Copy, Debug)]
pub(crate) struct Before {
    /// The number of its state.
    pub(crate) number: u64,
    /// For how many returns calls waited.
    pub(crate) depth: usize,
    /// How many chains and words were watched.
    pub(crate) watched: usize,
    /// How many were displayed.
    pub(crate) displayed: usize,
}

impl Before {
    /// What a session is like.
    pub(crate) fn of<S: Places>(session: &Session<S>) -> Self
        ensures { result ≡ before_of S.rule session.now.context session.now.state }
    {
        Before {
            number: session.history().number(),
            depth: session.machine().depths().returns,
            watched: session.stop().watched().len(),
            displayed: session.displayed().len(),
        }
    }
}
