//! The trace of an allocator's calls, from the reader to the writer.

ghost use Rattle.std.specs.Prelude.{◌≡◌};
ghost use Rattle.l6.specs.TraceStatus.{status_of_trace};

use l6_device::{Part, Patience, RunFault, Sink, Source, read_part, write_text};
use l6_trace::{Form, Pool, TraceFault, answers_to, judgement_of};
use l6_word::first_line;
use std::alloc::Global;
use std::io::Write;
use thiserror::Error;

/// Why a trace was not answered.
#[derive(Clone, Copy, Debug, PartialEq, Eq, Error)]
pub enum TracingFault {
    /// It was not read, or its answers were not written.
    #[error("{0}")]
    Device(#[from] RunFault),
    /// It has no answers.
    #[error("{0}")]
    Trace(#[from] TraceFault),
}

/// How the answers of a trace are tried.
#[derive(Clone, Copy, Debug, PartialEq, Eq)]
pub enum Trying {
    /// They are to be those of a store of so many units.
    Exact { units: u32 },
    /// They may have any rule of choice, and are judged. The smallest piece of the pool has so many bytes.
    AnyPlace { pool: Pool, piece: u32, form: Form },
}

/// Reads a trace whole, and writes its answers, or what is found of them; and says on `errors` why there are none, or
/// why not all may have been compared. Says whether something is wrong with them.
pub fn try_trace<R: Source, W: Sink, E: Write>(
    alloc: Global,
    trying: Trying,
    reader: &mut R,
    writer: &mut W,
    errors: &mut E,
) -> Result<bool, TracingFault> {
    let trace = read_part(alloc, reader, Part::Job, &mut Patience::new())?;
    let text = trace.as_slice();
    match trying {
        Trying::Exact { units } => {
            let answers = answers_to(alloc, units, text)?;
            write_text(writer, answers.text.as_slice(), 0, &mut Patience::new())?;
            say_notes(errors, answers.notes.as_slice());
            Ok(answers.fails)
        }
        Trying::AnyPlace { pool, piece, form } => {
            let judgement = judgement_of(alloc, pool, piece, form, text)?;
            write_text(writer, judgement.text.as_slice(), 0, &mut Patience::new())?;
            Ok(judgement.findings != 0)
        }
    }
}

/// Says each line of some notes. A text that `errors` does not take is lost.
fn say_notes<E: Write>(errors: &mut E, notes: &[u8]) {
    let mut rest = notes;
    while let Some((line, following)) = first_line(rest) {
        let _ = errors.write_all(b"l6: ");
        let _ = errors.write_all(line);
        let _ = errors.write_all(b"\n");
        rest = following;
    }
}

/// The exit status: 0 if nothing is wrong with the answers, 1 if something is, 4 if the trace was refused, and 5 if
/// memory ran out or a device failed.
pub fn tracing_status(traced: &Result<bool, TracingFault>) -> u8
    ensures { result ≡ status_of_trace traced.now }
{
    match traced {
        Ok(false) => 0,
        Ok(true) => 1,
        Err(TracingFault::Device(RunFault::TooLong(_)))
        | Err(
            TracingFault::Trace(
                TraceFault::BadUnits
                | TraceFault::BadPlaces
                | TraceFault::CutOff(_)
                | TraceFault::NotACall(_)
                | TraceFault::TooMany(_)
                | TraceFault::Held(_),
            ),
        ) => 4,
        Err(TracingFault::Device(_) | TracingFault::Trace(TraceFault::NoMemory)) => 5,
    }
}
