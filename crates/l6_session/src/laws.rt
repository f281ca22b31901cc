//! That the numbers of the code are those of sessions, and that the commands which are saved lead back.

ghost use Rattle.std.specs.Prelude.{◌≡◌};
ghost use Rattle.l6_session.specs.Numerals.{most_displayed, most_repeats};
ghost use Rattle.l6_session.specs.Saved.{LeadsBack};

use crate::session::{MAX_DISPLAYED, MAX_REPEATS};
use l6_store::Places;

/// As many chains may be displayed at once, and commands are repeated as often, as sessions say.
pub fn sessions_have_their_limits()
    ensures displayed { MAX_DISPLAYED ≡ most_displayed }
    ensures repeats { MAX_REPEATS ≡ most_repeats }
{}

/// To whatever session commands lead from the start of a run, the commands that are saved of it lead from
/// there, too.
pub fn saved_commands_lead_back<S: Places>()
    ensures { LeadsBack S.rule }
{}
