//! The laws of printouts.

ghost use Rattle.l6_run.specs.Laws.{DecksPrintAsImages, ImagesPrintAsDecks, PrintsInOneWay, PrintsLoadedInOneWay, WrittenImagesPrintAsDecks};

/// Whatever the options, a deck and an image have at most one printout each, and their runs one ending:
/// so the printout that `run_deck` or `run_image_text` writes is *the* printout.
pub fn printouts_are_determined()
    ensures decks { PrintsInOneWay }
    ensures images { PrintsLoadedInOneWay }
{
    l6_asm::spelling_is_settled();
    l6_image::images_are_of_one_program();
    l6_steps::runs_are_determined();
}

/// A deck and the image of the program that it spells print the same, if the deck is no longer than it
/// may be: whatever the options and the input, the run of one has the ending and the printout of the
/// other's. So do a deck and any image of its program, of either version, and a deck and the image that
/// is written of it.
pub fn images_print_as_decks()
    ensures each { DecksPrintAsImages }
    ensures versions { ImagesPrintAsDecks }
    ensures written { WrittenImagesPrintAsDecks }
{
    l6_asm::spelling_is_settled();
    l6_asm::decks_have_images();
    l6_asm::images_of_decks_fit();
    l6_image::images_are_of_one_program();
}
