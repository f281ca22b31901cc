//! That the numbers of the code are those of histories.

ghost use Rattle.std.specs.Prelude.{◌≡◌};
ghost use Rattle.l6_history.specs.Numerals.{most_kept, most_watched, stride};

use crate::history::STRIDE;
use crate::ring::MAX_KEPT;
use crate::stop::MAX_WATCHED;

/// Checkpoints are as far apart as `History` says, and as many are kept; as many chains may be
/// watched as `Stop` says.
pub fn histories_have_their_limits()
    ensures apart { STRIDE ≡ stride }
    ensures kept { MAX_KEPT ≡ most_kept }
    ensures watched { MAX_WATCHED ≡ most_watched }
{}
