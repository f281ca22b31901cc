//! The image and the listing of a deck that a reader gives, and an image that is rewritten.

ghost use Rattle.std.specs.Prelude.{◌≡◌, ◌+◌, [], ◌∷◌};
ghost use Rattle.l6_image.specs.Numerals.{most_bytes};
ghost use Rattle.l6_card.specs.Numerals.{most_deck_bytes};
ghost use Rattle.l6_device.specs.Patience.{RetriesAccounted, reader_use, writer_use};
ghost use Rattle.l6_device.specs.Transfer.{GivesAtMost};
ghost use Rattle.l6_device.specs.declared.fault.Part.TheVariants.{Deck, Image};
ghost use Rattle.l6_run.specs.Runs.{Rewrites, WritesText};
ghost use Rattle.l6_run.specs.Serves.{IsUnwritten};
ghost use Rattle.l6_run.specs.Texts.{WritesImage, WritesListing};

use crate::texts::{rewrite_image_text, write_deck_image, write_deck_listing};
use l6_device::{Part, Patience, RunFault, Sink, Source, read_part};
use std::alloc::Global;

/// Reads a deck whole, and writes the text of its image.
///
/// # Errors
///
/// Why the deck has none, or not all of it went out. Nothing went out then, unless it is a `Write`.
pub fn write_image<D: Source, W: Sink>(
    alloc: Global,
    deck: &mut D,
    writer: &mut W,
) -> Result<(), RunFault>
    // What the reader gave, and what went out for it.
    ensures done { WritesText WritesImage (D.left deck.old) (D.left deck.new)
        (W.taken writer.old) (W.taken writer.new) result }
    ensures unwritten { IsUnwritten result → writer.new ≡ writer.old }
    ensures at_most { GivesAtMost (most_deck_bytes + 1) (D.left deck.old) (D.left deck.new) }

    // The retries of the devices are accounted for.
    ensures retries { RetriesAccounted (
        reader_use Deck (D.health deck.old) (D.health deck.new) result ∷
        writer_use (W.health writer.old) (W.health writer.new) result ∷ []) }
{
    let mut patience = Patience::new();
    let cards = read_part(alloc, deck, Part::Deck, &mut patience)?;
    write_deck_image(alloc, cards.as_slice(), writer, &mut patience)
}

/// Reads a deck whole, and writes its listing.
///
/// # Errors
///
/// Why the deck has none, or not all of it went out. Nothing went out then, unless it is a `Write`.
pub fn write_listing<D: Source, W: Sink>(
    alloc: Global,
    deck: &mut D,
    writer: &mut W,
) -> Result<(), RunFault>
    // What the reader gave, and what went out for it.
    ensures done { WritesText WritesListing (D.left deck.old) (D.left deck.new)
        (W.taken writer.old) (W.taken writer.new) result }
    ensures unwritten { IsUnwritten result → writer.new ≡ writer.old }
    ensures at_most { GivesAtMost (most_deck_bytes + 1) (D.left deck.old) (D.left deck.new) }

    // The retries of the devices are accounted for.
    ensures retries { RetriesAccounted (
        reader_use Deck (D.health deck.old) (D.health deck.new) result ∷
        writer_use (W.health writer.old) (W.health writer.new) result ∷ []) }
{
    let mut patience = Patience::new();
    let cards = read_part(alloc, deck, Part::Deck, &mut patience)?;
    write_deck_listing(alloc, cards.as_slice(), writer, &mut patience)
}

/// Reads the text of an image whole, and rewrites it in the current version, the second one.
///
/// # Errors
///
/// Why the text is no image, or not all of the new one went out. Nothing went out then, unless it is a
/// `Write`.
pub fn rewrite_image<D: Source, W: Sink>(
    alloc: Global,
    image: &mut D,
    writer: &mut W,
) -> Result<(), RunFault>
    // What the reader gave, and what went out for it.
    ensures done { Rewrites (D.left image.old) (D.left image.new)
        (W.taken writer.old) (W.taken writer.new) result }
    ensures unwritten { IsUnwritten result → writer.new ≡ writer.old }
    ensures at_most { GivesAtMost (most_bytes + 1) (D.left image.old) (D.left image.new) }

    // The retries of the devices are accounted for.
    ensures retries { RetriesAccounted (
        reader_use Image (D.health image.old) (D.health image.new) result ∷
        writer_use (W.health writer.old) (W.health writer.new) result ∷ []) }
{
    let mut patience = Patience::new();
    let text = read_part(alloc, image, Part::Image, &mut patience)?;
    rewrite_image_text(alloc, text.as_slice(), writer, &mut patience)
}
