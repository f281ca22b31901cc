//! The laws of spelling, of images and of listings.

ghost use Rattle.l6_asm.specs.Laws.{DecksHaveImages, ImagesOfDecksFit};
ghost use Rattle.l6_asm.specs.Listing.{EachIsListed};
ghost use Rattle.l6_asm.specs.Spells.{SpellsOrFails, NeverBoth, SpellsInOneWay};

/// Each deck spells a program or has a fault, never both, and at most one program.
pub fn spelling_is_settled()
    ensures either { SpellsOrFails }
    ensures never_both { NeverBoth }
    ensures one_way { SpellsInOneWay }
{}

/// What a deck spells is a program: it is within the limits, each target is the number of one of its
/// statements, its names are names and its numbers words, and its last statement is the plain DONE. So
/// it has an image, of the version that is written.
pub fn decks_have_images()
    ensures { DecksHaveImages }
{}

/// The image of the program that a deck spells, of either version, is no longer than an image may be,
/// if the deck is no longer than a deck may be. So it can be loaded.
pub fn images_of_decks_fit()
    ensures { ImagesOfDecksFit }
{}

/// The listing of a deck has the words of each statement of the program that the deck spells, after
/// the statement's cards: after the last card all statements are complete but the one that is
/// added.
pub fn each_statement_is_listed()
    ensures { EachIsListed }
{}
