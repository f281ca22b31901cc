//! One job, from the reader to the writer.

ghost use Rattle.std.specs.Prelude.{◌≡◌, ◌+◌, [], ◌∷◌};
ghost use Rattle.l6_device.specs.Numerals.{most_job_bytes};
ghost use Rattle.l6_device.specs.Patience.{RetriesAccounted, WriterRetries, reader_use, writer_use};
ghost use Rattle.l6_device.specs.Transfer.{GivesAtMost};
ghost use Rattle.l6_device.specs.declared.fault.Part.TheVariants.{Job};
ghost use Rattle.l6.specs.JobResult.{JobOutcome, IsUnwrittenBy, JobResult};

use crate::checking::{Shown, write_deck_check};
use l6_debug::debug_deck;
use l6_run::{
    Ending, Explained, Options, Part, Patience, RunFault, Sink, Source, explain_deck,
    head_parts_of, parts_of, read_part, rewrite_image_text, run_deck, run_image_text,
    write_deck_image, write_deck_listing,
};
use std::alloc::Global;

/// What is to be done with a job.
#[derive(Clone, Copy, Debug, PartialEq, Eq, Hash)]
pub enum Verb<'a> {
    /// The head of the job is a deck, of which the image is written.
    Asm,
    /// The head of the job is a deck, of which the listing is written.
    List,
    /// The head of the job is a deck, of which is said what is wrong with it, shown so.
    Check(Shown<'a>),
    /// The head of the job is a deck, which is run with the input of the job.
    Run,
    /// The same, and of a trap is said where it was met, and why.
    Explain,
    /// The head of the job is the text of an image, which is run with the input of the job.
    Load,
    /// The head of the job is the text of an image, which is rewritten in the current version.
    Renew,
    /// The head of the job is a deck with commands, which are obeyed with the run of the deck with the
    /// input of the job.
    Debug,
}

/// What was done with a job.
#[derive(Debug, Drop, PartialEq, Eq)]
pub enum Outcome {
    /// A text was written, and nothing was run.
    Written,
    /// It was said what is wrong with a deck, which has so many errors.
    Checked(u32),
    /// A run was made, ended so, and was printed.
    Ran(Ending),
    /// The same, with what is said of how it ended.
    Explained(Explained),
}

/// Reads a job whole, does with its parts what the verb says, and writes the answer.
///
/// # Errors
///
/// Why the job was not done. Nothing went out then, unless it is a `Write`, or memory ran out in a
/// session: then the first answers went out, each whole.
pub fn perform<R: Source, W: Sink>(
    alloc: Global,
    verb: Verb<'_>,
    options: Options,
    reader: &mut R,
    writer: &mut W,
) -> Result<Outcome, RunFault>
    // What the reader gave, and what went out for it.
    ensures done { JobResult verb.entry options (R.left reader.old) (R.left reader.new)
        (W.taken writer.old) (W.taken writer.new) result }
    ensures unwritten { IsUnwrittenBy verb.entry result → writer.new ≡ writer.old }
    ensures at_most { GivesAtMost (most_job_bytes + 1) (R.left reader.old) (R.left reader.new) }

    // The retries of the devices are accounted for: the reading has its own, and so has what is
    // then done.
    ensures reader_retries { RetriesAccounted
        (reader_use Job (R.health reader.old) (R.health reader.new) result ∷ []) }
    ensures writer_retries { RetriesAccounted
        (writer_use (W.health writer.old) (W.health writer.new) result ∷ []) }
{
    let job = read_part(alloc, reader, Part::Job, &mut Patience::new())?;
    let mut patience = Patience::new();
    serve(alloc, verb, options, job.as_slice(), writer, &mut patience)
}

/// Does with a job what the verb says, and writes the answer.
fn serve<W: Sink>(
    alloc: Global,
    verb: Verb<'_>,
    options: Options,
    job: &[u8],
    writer: &mut W,
    patience: &mut Patience,
) -> Result<Outcome, RunFault>
    ensures done { JobOutcome verb.entry options job.now (W.taken writer.old) (W.taken writer.new) result }
    ensures unwritten { IsUnwrittenBy verb.entry result → writer.new ≡ writer.old }
    ensures retries { WriterRetries (W.health writer.old) (W.health writer.new)
        patience.old patience.new result }
{
    let parts = parts_of(job);
    match verb {
        Verb::Asm => {
            write_deck_image(alloc, parts.head, writer, patience)?;
            Ok(Outcome::Written)
        }
        Verb::List => {
            write_deck_listing(alloc, parts.head, writer, patience)?;
            Ok(Outcome::Written)
        }
        Verb::Check(shown) => {
            let errors = write_deck_check(alloc, parts.head, shown, writer, patience)?;
            Ok(Outcome::Checked(errors))
        }
        Verb::Run => {
            let ending = run_deck(alloc, parts.head, parts.input, writer, options, patience)?;
            Ok(Outcome::Ran(ending))
        }
        Verb::Explain => {
            let explained = explain_deck(
                alloc,
                parts.head,
                parts.input,
                writer,
                options,
                patience,
            )?;
            Ok(Outcome::Explained(explained))
        }
        Verb::Load => {
            let ending = run_image_text(alloc, parts.head, parts.input, writer, options, patience)?;
            Ok(Outcome::Ran(ending))
        }
        Verb::Renew => {
            rewrite_image_text(alloc, parts.head, writer, patience)?;
            Ok(Outcome::Written)
        }
        Verb::Debug => {
            let session = head_parts_of(parts.head);
            debug_deck(
                alloc,
                session.deck,
                parts.input,
                session.commands,
                writer,
                options,
                patience,
            )?;
            Ok(Outcome::Written)
        }
    }
}
