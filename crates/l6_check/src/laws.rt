//! That the numbers of the code are those of the language and of what is said of decks.

ghost use Rattle.std.specs.Prelude.{◌≡◌};
ghost use Rattle.l6_card.specs.Numerals.{card_width};
ghost use Rattle.l6_check.specs.Kept.{most_findings};
ghost use Rattle.l6_check.specs.Numerals.{most_advised, most_mark_characters};

use crate::finding::WIDTH;
use crate::findings::MAX_FINDINGS;
use crate::job::MAX_MARK;
use crate::slips::MAX_ADVISED;

/// Cards are as wide as the language says; and as many findings are kept, and as many characters looked
/// at, as is said of decks.
#[tactic(auto, unfolding(l6_card::specs::Numerals::card_width))]
pub fn checks_have_their_limits()
    ensures width { WIDTH ≡ card_width }
    ensures findings { MAX_FINDINGS ≡ most_findings }
    ensures advised { MAX_ADVISED ≡ most_advised }
    ensures mark { MAX_MARK ≡ most_mark_characters }
{}
