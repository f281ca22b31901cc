//! Runs of a deck or an image, and of an input, that readers give.

ghost use Rattle.std.specs.Prelude.{◌≡◌, ◌+◌, [], ◌∷◌};
ghost use Rattle.l6_image.specs.Numerals.{most_bytes};
ghost use Rattle.l6_steps.specs.Numerals.{most_input};
ghost use Rattle.l6_card.specs.Numerals.{most_deck_bytes};
ghost use Rattle.l6_device.specs.Patience.{RetriesAccounted, reader_use, writer_use};
ghost use Rattle.l6_device.specs.Transfer.{GivesAtMost, IsOfPart};
ghost use Rattle.l6_device.specs.declared.fault.Part.TheVariants.{Deck, Image, Input};
ghost use Rattle.l6_run.specs.Runs.{Runs, RunsImage};
ghost use Rattle.l6_run.specs.Serves.{IsUnwritten};

use crate::loaded::run_image_text;
use crate::running::run_deck;
use l6_device::{Part, Patience, RunFault, Sink, Source, read_part};
use l6_machine::{Ending, Options};
use std::alloc::Global;

/// Reads a deck whole and then an input whole, runs the deck with the input, and writes the
/// printout. Answers how the run has ended.
///
/// # Errors
///
/// Why no run was made, or not all of its printout went out. Nothing went out then, unless it is a
/// `Write`.
pub fn run<D: Source, I: Source, W: Sink>(
    alloc: Global,
    deck: &mut D,
    input: &mut I,
    writer: &mut W,
    options: Options,
) -> Result<Ending, RunFault>
    // What the readers gave, and what went out for it.
    ensures done { Runs options (D.left deck.old) (D.left deck.new)
        (I.left input.old) (I.left input.new) (W.taken writer.old) (W.taken writer.new) result }
    ensures unwritten { IsUnwritten result → writer.new ≡ writer.old }
    ensures unasked { IsOfPart Deck result → input.new ≡ input.old }
    ensures deck_at_most { GivesAtMost (most_deck_bytes + 1) (D.left deck.old) (D.left deck.new) }
    ensures input_at_most { GivesAtMost (most_input + 1) (I.left input.old) (I.left input.new) }

    // The retries of the devices are accounted for.
    ensures retries { RetriesAccounted (
        reader_use Deck (D.health deck.old) (D.health deck.new) result ∷
        reader_use Input (I.health input.old) (I.health input.new) result ∷
        writer_use (W.health writer.old) (W.health writer.new) result ∷ []) }
{
    let mut patience = Patience::new();
    let cards = read_part(alloc, deck, Part::Deck, &mut patience)?;
    let lines = read_part(alloc, input, Part::Input, &mut patience)?;
    run_deck(
        alloc,
        cards.as_slice(),
        lines.as_slice(),
        writer,
        options,
        &mut patience,
    )
}

/// Reads an image's text whole and then an input whole, runs the image with the input, and writes
/// the printout. Answers how the run has ended.
///
/// # Errors
///
/// Why no run was made, or not all of its printout went out. Nothing went out then, unless it is a
/// `Write`.
pub fn run_image<D: Source, I: Source, W: Sink>(
    alloc: Global,
    image: &mut D,
    input: &mut I,
    writer: &mut W,
    options: Options,
) -> Result<Ending, RunFault>
    // What the readers gave, and what went out for it.
    ensures done { RunsImage options (D.left image.old) (D.left image.new)
        (I.left input.old) (I.left input.new) (W.taken writer.old) (W.taken writer.new) result }
    ensures unwritten { IsUnwritten result → writer.new ≡ writer.old }
    ensures unasked { IsOfPart Image result → input.new ≡ input.old }
    ensures image_at_most { GivesAtMost (most_bytes + 1) (D.left image.old) (D.left image.new) }
    ensures input_at_most { GivesAtMost (most_input + 1) (I.left input.old) (I.left input.new) }

    // The retries of the devices are accounted for.
    ensures retries { RetriesAccounted (
        reader_use Image (D.health image.old) (D.health image.new) result ∷
        reader_use Input (I.health input.old) (I.health input.new) result ∷
        writer_use (W.health writer.old) (W.health writer.new) result ∷ []) }
{
    let mut patience = Patience::new();
    let text = read_part(alloc, image, Part::Image, &mut patience)?;
    let given = read_part(alloc, input, Part::Input, &mut patience)?;
    run_image_text(
        alloc,
        text.as_slice(),
        given.as_slice(),
        writer,
        options,
        &mut patience,
    )
}
