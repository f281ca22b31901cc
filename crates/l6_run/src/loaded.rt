//! The run of an image.

ghost use Rattle.std.specs.Prelude.{◌≡◌, ◌≤◌, length, IfOk, IfErr};
ghost use Rattle.l6_image.specs.Numerals.{most_bytes};
ghost use Rattle.l6_steps.specs.Numerals.{most_input};
ghost use Rattle.l6_device.specs.Patience.{WriterRetries};
ghost use Rattle.l6_run.specs.Prints.{PrintsLoaded, RefusesImage};
ghost use Rattle.l6_run.specs.inner.Running.{HasNoText};
ghost use Rattle.l6_run.specs.Serves.{IsUnwritten, Serves};

use crate::running::printout_under;
use l6_device::{Part, Patience, RunFault, Sink, write_text};
use l6_image::load;
use l6_machine::{Ending, Options};
use std::alloc::Global;

/// Runs the image of this text with an input, and writes the printout. Answers how the run has ended.
///
/// # Errors
///
/// Why the image was not run. Nothing went out then, unless it is a `Write`.
pub fn run_image_text<W: Sink>(
    alloc: Global,
    image: &[u8],
    input: &[u8],
    writer: &mut W,
    options: Options,
    patience: &mut Patience,
) -> Result<Ending, RunFault>
    ensures done { Serves (PrintsLoaded options image.now input.now)
        (RefusesImage image.now input.now) (W.taken writer.old) (W.taken writer.new) result }
    ensures unwritten { IsUnwritten result → writer.new ≡ writer.old }
    ensures retries { WriterRetries (W.health writer.old) (W.health writer.new)
        patience.old patience.new result }
{
    Part::Image.check(image)?;
    Part::Input.check(input)?;
    let (ending, text) = printout_of_image(alloc, image, input, options)?;
    write_text(writer, text.as_slice(), 0, patience)?;
    Ok(ending)
}

/// How the run of an image ends, and what it prints.
fn printout_of_image(
    alloc: Global,
    image: &[u8],
    input: &[u8],
    options: Options,
) -> Result<(Ending, Vec<u8>), RunFault>
    requires image { length image.now ≤ most_bytes }
    requires input { length input.now ≤ most_input }
    ensures prints { IfOk result
        (λ found. PrintsLoaded options image.now input.now found.0 found.1.items) }
    ensures refuses { IfErr result (HasNoText (RefusesImage image.now input.now)) }
{
    let program = load(alloc, image)?;
    printout_under(alloc, program, input, options)
}
