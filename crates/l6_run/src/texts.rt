//! What is written of a deck that is not run, its image or its listing, and of an image that is
//! rewritten.

ghost use Rattle.std.specs.Prelude.{◌≡◌, ◌≤◌, length, true, IfOk, IfErr};
ghost use Rattle.std.specs.List.{list_all};
ghost use Rattle.l6_word.specs.Word.{is_word};
ghost use Rattle.l6_image.specs.Numerals.{most_bytes};
ghost use Rattle.l6_image.specs.Text.{text_of_words};
ghost use Rattle.l6_card.specs.Numerals.{most_deck_bytes};
ghost use Rattle.l6_device.specs.Patience.{WriterRetries};
ghost use Rattle.l6_run.specs.Serves.{IsUnwritten, Serves};
ghost use Rattle.l6_run.specs.Texts.{RefusesCards, RefusesRewriting, RewritesImage, WritesImage, WritesListing};
ghost use Rattle.l6_run.specs.inner.Running.{HasNoText};

use crate::lines::{room_for_lines, write_card_lines, write_words};
use l6_asm::{CardLines, StatementWords, assemble, listing_end};
use l6_device::{Part, Patience, RunFault, Sink, write_text};
use l6_image::{load, words_of};
use std::alloc::Global;

/// Writes the text of a deck's image.
///
/// # Errors
///
/// Why the deck has none. Nothing went out then, unless it is a `Write`.
pub fn write_deck_image<W: Sink>(
    alloc: Global,
    deck: &[u8],
    writer: &mut W,
    patience: &mut Patience,
) -> Result<(), RunFault>
    ensures done { Serves (λ _ text. WritesImage deck.now text) (RefusesCards deck.now)
        (W.taken writer.old) (W.taken writer.new) result }
    ensures unwritten { IsUnwritten result → writer.new ≡ writer.old }
    ensures retries { WriterRetries (W.health writer.old) (W.health writer.new)
        patience.old patience.new result }
{
    Part::Deck.check(deck)?;
    let words = image_of(alloc, deck)?;
    let mut lines = room_for_lines(alloc)?;
    write_words(writer, &words, &mut lines, patience)
}

/// The words of a deck's image.
fn image_of(alloc: Global, deck: &[u8]) -> Result<Vec<u64>, RunFault>
    requires { length deck.now ≤ most_deck_bytes }
    ensures image { IfOk result (λ words. WritesImage deck.now (text_of_words words.items)) }
    ensures known { IfOk result (λ words. list_all is_word words.items ≡ true) }
    ensures refuses { IfErr result (HasNoText (RefusesCards deck.now)) }
{
    let assembly = assemble(alloc, deck)?;
    let words = words_of(alloc, assembly.program())?;
    Ok(words)
}

/// Writes the listing of a deck.
///
/// # Errors
///
/// Why the deck has none. Nothing went out then, unless it is a `Write`.
pub fn write_deck_listing<W: Sink>(
    alloc: Global,
    deck: &[u8],
    writer: &mut W,
    patience: &mut Patience,
) -> Result<(), RunFault>
    ensures done { Serves (λ _ text. WritesListing deck.now text) (RefusesCards deck.now)
        (W.taken writer.old) (W.taken writer.new) result }
    ensures unwritten { IsUnwritten result → writer.new ≡ writer.old }
    ensures retries { WriterRetries (W.health writer.old) (W.health writer.new)
        patience.old patience.new result }
{
    Part::Deck.check(deck)?;
    let assembly = assemble(alloc, deck)?;
    let words = StatementWords::of(alloc, assembly.program())?;
    let end = listing_end(alloc, &assembly)?;
    let mut lines = room_for_lines(alloc)?;
    let cards = CardLines::new(deck, &words);
    let sent = write_card_lines(writer, cards, &mut lines, patience)?;
    write_text(writer, end.as_slice(), sent, patience)
}

/// Rewrites an image in the current version, the second one.
///
/// # Errors
///
/// Why the text is no image. Nothing went out then, unless it is a `Write`.
pub fn rewrite_image_text<W: Sink>(
    alloc: Global,
    image: &[u8],
    writer: &mut W,
    patience: &mut Patience,
) -> Result<(), RunFault>
    ensures done { Serves (λ _ text. RewritesImage image.now text) (RefusesRewriting image.now)
        (W.taken writer.old) (W.taken writer.new) result }
    ensures unwritten { IsUnwritten result → writer.new ≡ writer.old }
    ensures retries { WriterRetries (W.health writer.old) (W.health writer.new)
        patience.old patience.new result }
{
    Part::Image.check(image)?;
    let words = renewed(alloc, image)?;
    let mut lines = room_for_lines(alloc)?;
    write_words(writer, &words, &mut lines, patience)
}

/// The words of an image, in the current version.
fn renewed(alloc: Global, image: &[u8]) -> Result<Vec<u64>, RunFault>
    requires { length image.now ≤ most_bytes }
    ensures image { IfOk result (λ words. RewritesImage image.now (text_of_words words.items)) }
    ensures known { IfOk result (λ words. list_all is_word words.items ≡ true) }
    ensures refuses { IfErr result (HasNoText (RefusesRewriting image.now)) }
{
    let program = load(alloc, image)?;
    let words = words_of(alloc, &program)?;
    Ok(words)
}
