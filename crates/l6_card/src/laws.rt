//! The laws of reading, and that the numbers of the code are those of the language.

ghost use Rattle.std.specs.Prelude.{◌≡◌};
ghost use Rattle.l6_card.specs.Numerals.{card_width, most_deck_bytes, most_deck_statements, most_continuations};
ghost use Rattle.l6_card.specs.ReadAlone.{PartsCompose, StatementsObjectAlone};
ghost use Rattle.l6_card.specs.Laws.{ReadsOnlyWithoutFault, ReadsWithoutFault, ReadsInOneWay, GroupsAreAtSpans, SpansRise, PrefixesBecomeWhole, BeginningsArePrefixes, WholeItemsDenote, ItemsThatDenoteAreWhole, ItemsDenoteOneStatement, GroupsAreInParentheses, BlanksVanish, LettersMakeWords, LettersBeginWords, OpeningsNeedClosings, OpeningsDoNotNest};

use crate::limits::{CARD_WIDTH, MAX_CONTINUATIONS, MAX_DECK_BYTES, MAX_DECK_STATEMENTS};

/// Each deck reads exactly if no piece of it objects, and then in one way.
pub fn reading_is_settled()
    ensures reads_only_if { ReadsOnlyWithoutFault }
    ensures reads_if { ReadsWithoutFault }
    ensures one_way { ReadsInOneWay }
{}

/// Whatever a deck says: each test and each operation is spelled by the bytes at its span, and the
/// spans rise, within the deck.
pub fn groups_have_their_spans()
    ensures are_prefix { GroupsAreAtSpans }
    ensures rise { SpansRise }
{}

/// A deck can be read in parts, each as a deck of its own, where each begins with the first card of a
/// statement.
pub fn parts_are_read_alone()
    ensures compose { PartsCompose }
    ensures alone { StatementsObjectAlone }
{}

/// Items are a prefix exactly if further items after them can make them a whole statement.
pub fn prefixes_begin_statements()
    ensures become_whole { PrefixesBecomeWhole }
    ensures are_prefixes { BeginningsArePrefixes }
{}

/// Items are a whole statement within its limits exactly if they denote a statement that is fit,
/// and they denote just one.
pub fn whole_items_denote_statements()
    ensures denote { WholeItemsDenote }
    ensures whole { ItemsThatDenoteAreWhole }
    ensures one { ItemsDenoteOneStatement }
{}

/// A group is what is between parentheses, and a `(` whose `)` is missing is unclosed. Words are
/// of letters and the like, up to a group or the end, and blanks vanish outside of groups.
pub fn items_are_groups_and_words()
    ensures groups { GroupsAreInParentheses }
    ensures unclosed { OpeningsNeedClosings }
    ensures nested { OpeningsDoNotNest }
    ensures blanks { BlanksVanish }
    ensures letters { LettersMakeWords }
    ensures words { LettersBeginWords }
{}

/// Cards are as wide, and decks as long, as the language says.
#[tactic(auto, unfolding(crate::specs::Numerals::card_width))]
pub fn decks_have_their_limits()
    ensures width { CARD_WIDTH ≡ card_width }
    ensures bytes { MAX_DECK_BYTES ≡ most_deck_bytes }
    ensures deck_statement { MAX_DECK_STATEMENTS ≡ most_deck_statements }
    ensures continuations { MAX_CONTINUATIONS ≡ most_continuations }
{}
